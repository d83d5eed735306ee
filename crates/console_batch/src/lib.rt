// A batch done, and its answers said on one line.
#![tactic(auto)]

mod heads;
mod records;
mod says;

ghost use Rattle.std.specs.Prelude.{◌≤◌, length};
ghost use Rattle.model_batch.specs.Items.{max_items};

use answers::Batched;
use batch_items::Checked;

// Bytes of the longest answers of all: as many commits as a batch may have.
pub const LONGEST: usize = model_batch::MAX_ITEMS
    * (model_batch::HEAD_WIDTH + model_batch::CLASHES_WIDTH);

// How many records there are, and the bytes of their answers; zeros, if the batch is refused in parsing.
#[derive(Drop)]
struct Needs {
    count: usize,
    width: usize,
}

// With the kind of each record.
fn needs_of(x: &[u8], kinds: &mut [u8]) -> Needs
    requires { max_items ≤ length kinds.old }
    ensures { result.count ≤ max_items }
{
    let mut begins = [0u8; model_batch::MAX_ITEMS];
    match batch_items::batch::check(x, &mut begins) {
        Checked::Items(count, width) => {
            records::gather(x, &begins, count, kinds);
            Needs { count, width }
        }
        Checked::Wrong(_, _) => Needs { count: 0, width: 0 },
    }
}

// How much of the text is lent as the output: what is needed or a byte less, but no more than there is.
fn room(width: usize, full: bool, text: &[u8]) -> usize
    ensures { result ≤ length text.now }
{
    if text.len() < width {
        return text.len();
    }
    if full {
        return width;
    }
    if width == 0 {
        return 0;
    }
    width - 1
}

// The answers, which stand in the text, are said in the spare memory and copied from there.
fn say(kinds: &[u8], spare: &mut [u8], text: &mut [u8]) -> usize
    requires { length kinds.now ≤ max_items }
    ensures { result ≤ length text.old }
{
    let n = says::answers(kinds, text, spare);
    text_words::append(&spare[..n], text, 0)
}

fn tell(b: Batched, kinds: &[u8], spare: &mut [u8], text: &mut [u8]) -> usize
    requires { length kinds.now ≤ max_items }
    ensures { result ≤ length text.old }
{
    match b {
        Batched::Answers(_) => say(kinds, spare, text),
        Batched::Malformed(at) => console_say::fault(answers::MALFORMED_BATCH, at, text),
        Batched::Reserved(at) => console_say::fault(answers::RESERVED_KIND, at, text),
        Batched::Refused(r) => console_say::refused(r, text),
    }
}

// The batch is the first n bytes of the spare memory, the output the front of the text: no memory is lent for it alone.
pub fn answer(
    n: usize,
    full: bool,
    hall: &mut [u8],
    desk: &mut [u8],
    spare: &mut [u8],
    text: &mut [u8],
) -> usize
    requires { n ≤ length spare.old }
    ensures { result ≤ length text.old }
{
    let mut kinds = [0u8; model_batch::MAX_ITEMS];
    let needs = needs_of(&spare[..n], &mut kinds);
    let lent = room(needs.width, full, text);
    let b = batch::batch(hall, desk, &spare[..n], &mut text[..lent]);
    tell(b, &kinds[..needs.count], spare, text)
}
