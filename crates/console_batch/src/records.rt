// The kinds of a batch's records, by which their answers are said.
ghost use Rattle.std.specs.Prelude.{◌≤◌, length};

use batch_items::{Decoded, items, kinds};
use memory::spans;

#[derive(Drop)]
struct Record {
    kind: u64,
    end: usize,
}

// The record at `at`; what is none has no detail, and ends with the batch.
fn record_at(x: &[u8], at: usize, begins: &[u8]) -> Record
    requires { at ≤ length x.now }
    ensures { result.end ≤ length x.now }
{
    let none = Record {
        kind: kinds::ABORT,
        end: x.len(),
    };
    match items::item_at(x, at, begins) {
        Decoded::Item(item, end) => {
            if none.end < end {
                return none;
            }
            Record {
                kind: kinds::kind_of(item),
                end,
            }
        }
        Decoded::Wrong(_) => none,
    }
}

// The kinds of so many records; `begins` marks the begins among them.
pub(crate) fn gather(x: &[u8], begins: &[u8], count: usize, kinds: &mut [u8])
    requires { (count ≤ length begins.now) × (count ≤ length kinds.old) }
{
    let mut at = 0;
    let mut i = 0;
    while i < count {
        let next = record_at(x, at, spans::piece(begins, 0, i));
        kinds[i] = (next.kind % 256) as u8;
        at = next.end;
        i += 1;
    }
}
