// A record: its mark, and operands by its kind.
ghost use Rattle.std.specs.Prelude.{◌≤◌, ◌≡◌, length, drop};
ghost use Rattle.model_batch.specs.Decoder.{mark_fault, read_operands};
ghost use Rattle.batch_items.specs.Clauses.{paper_mark, Decodes, Behind, read_act_of, DecodesAt};

use crate::operands::{Named, Text};
use crate::{Decoded, Fault, Item, Who, kinds, operands};
use memory::numbers;

// The first byte of a mark; the second is a kind.
const MARKER: u64 = 0x4c;

const FIRST_RESERVED: u64 = 23;

const LAST_RESERVED: u64 = 31;

// What a mark says.
#[derive(Clone, Copy)]
enum Mark {
    Kind,
    Wrong(Fault),
}

fn mark_fault(mark: u64) -> Mark
    ensures { paper_mark result ≡ mark_fault mark }
{
    let kind = mark / 256;
    if mark % 256 != MARKER {
        return Mark::Wrong(Fault::Malformed);
    }
    if compare::is_within(FIRST_RESERVED, LAST_RESERVED, kind) {
        return Mark::Wrong(Fault::Reserved);
    }
    if compare::is_within(kinds::BEGIN, kinds::SWEEP, kind) {
        return Mark::Kind;
    }
    Mark::Wrong(Fault::Malformed)
}

fn put_at(x: &[u8], at: usize, who: Who) -> Decoded
    requires { at ≤ length x.now }
    ensures { Decodes x.now (read_act_of who 18 at (drop at x.now)) result }
{
    match operands::text_at(x, at) {
        Text::Cut => Decoded::Wrong(Fault::Malformed),
        Text::Whole(key, to) => match operands::text_at(x, to) {
            Text::Cut => Decoded::Wrong(Fault::Malformed),
            Text::Whole(val, end) => Decoded::Item(Item::Put(who, key, val), end),
        },
    }
}

// What a transaction does, of the kinds from read to abort.
fn act_at(x: &[u8], at: usize, who: Who, kind: u64) -> Decoded
    requires { at ≤ length x.now }
    ensures { Decodes x.now (read_act_of who kind at (drop at x.now)) result }
{
    if kind == kinds::READ {
        return match operands::text_at(x, at) {
            Text::Cut => Decoded::Wrong(Fault::Malformed),
            Text::Whole(key, end) => Decoded::Item(Item::Read(who, key), end),
        };
    }
    if kind == kinds::PUT {
        return put_at(x, at, who);
    }
    if kind == kinds::DELETE {
        return match operands::text_at(x, at) {
            Text::Cut => Decoded::Wrong(Fault::Malformed),
            Text::Whole(key, end) => Decoded::Item(Item::Delete(who, key), end),
        };
    }
    if kind == kinds::COMMIT {
        return Decoded::Item(Item::Commit(who), at);
    }
    Decoded::Item(Item::Abort(who), at)
}

fn operands_at(x: &[u8], at: usize, begins: &[u8], kind: u64) -> Decoded
    requires { at ≤ length x.now }
    ensures { Behind begins.now
        (λ earlier. Decodes x.now (read_operands earlier kind at (drop at x.now)) result) }
{
    if kind == kinds::BEGIN {
        return Decoded::Item(Item::Begin, at);
    }
    if kind == kinds::SWEEP {
        if x.len() - at < model::NUMBER_WIDTH {
            return Decoded::Wrong(Fault::Malformed);
        }
        return Decoded::Item(
            Item::Sweep(numbers::read64(x, at)),
            at + model::NUMBER_WIDTH,
        );
    }
    match operands::who_at(x, at, begins) {
        Named::Malformed => Decoded::Wrong(Fault::Malformed),
        Named::As(who, to) => act_at(x, to, who, kind),
    }
}

// The record at `at`, where `begins` marks the begins among the earlier ones.
pub fn item_at(x: &[u8], at: usize, begins: &[u8]) -> Decoded
    requires { at ≤ length x.now }
    ensures { DecodesAt x.now at begins.now result }
{
    if x.len() - at < model::MARK_WIDTH {
        return Decoded::Wrong(Fault::Malformed);
    }
    let mark = numbers::read16(x, at) as u64;
    match mark_fault(mark) {
        Mark::Wrong(f) => Decoded::Wrong(f),
        Mark::Kind => operands_at(x, at + model::MARK_WIDTH, begins, mark / 256),
    }
}
