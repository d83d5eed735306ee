// What stands in a record behind its mark: texts and transactions.
ghost use Rattle.std.specs.Prelude.{◌≤◌, length, drop};
ghost use Rattle.model_batch.specs.Decoder.{read_text, read_who};
ghost use Rattle.batch_items.specs.Clauses.{Reads, Names, Stops, Behind, read_start, read_place};

use crate::{Span, Who};
use memory::numbers;

// A key or a value.
#[derive(Clone, Copy)]
pub enum Text {
    // and where it ends
    Whole(Span, usize),
    Cut,
}

// Whose record it is.
#[derive(Clone, Copy)]
pub enum Named {
    // and where that ends
    As(Who, usize),
    Malformed,
}

// Any length may stand there: it is compared with what is left before it is added.
pub fn text_at(x: &[u8], at: usize) -> Text
    requires { at ≤ length x.now }
    ensures { Reads x.now (read_text at (drop at x.now)) result }
{
    if x.len() - at < model::COUNT_WIDTH {
        return Text::Cut;
    }
    let len = numbers::read32(x, at) as usize;
    let from = at + model::COUNT_WIDTH;
    if x.len() - from < len {
        return Text::Cut;
    }
    Text::Whole(Span { at: from, len }, from + len)
}

fn start_at(x: &[u8], at: usize) -> Named
    requires { at ≤ length x.now }
    ensures { Names x.now (read_start at (drop at x.now)) result }
{
    if x.len() - at < model::NUMBER_WIDTH {
        return Named::Malformed;
    }
    Named::As(Who::Start(numbers::read64(x, at)), at + model::NUMBER_WIDTH)
}

// `begins` marks the begins among the earlier records.
fn place_at(x: &[u8], at: usize, begins: &[u8]) -> Named
    requires { at ≤ length x.now }
    ensures { Stops x.now result × Behind begins.now
        (λ earlier. Names x.now (read_place earlier at (drop at x.now)) result) }
{
    if x.len() - at < model_batch::PLACE_WIDTH {
        return Named::Malformed;
    }
    let place = numbers::read16(x, at) as usize;
    if begins.len() <= place {
        return Named::Malformed;
    }
    if begins[place] == 0 {
        return Named::Malformed;
    }
    Named::As(Who::Place(place), at + model_batch::PLACE_WIDTH)
}

pub fn who_at(x: &[u8], at: usize, begins: &[u8]) -> Named
    requires { at ≤ length x.now }
    ensures { Stops x.now result × Behind begins.now
        (λ earlier. Names x.now (read_who earlier at (drop at x.now)) result) }
{
    if x.len() - at < model::TAG_WIDTH {
        return Named::Malformed;
    }
    let tag = x[at];
    let to = at + model::TAG_WIDTH;
    if tag == 0 {
        return start_at(x, to);
    }
    if tag == 1 {
        return place_at(x, to, begins);
    }
    Named::Malformed
}
