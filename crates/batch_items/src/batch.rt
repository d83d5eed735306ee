// The whole batch, before anything of it is done.
ghost use Rattle.std.specs.Prelude.{◌≤◌, ◌≡◌, length};
ghost use Rattle.model.specs.Bytes.{Bytes};
ghost use Rattle.model_batch.specs.Items.{max_items};
ghost use Rattle.model_batch.specs.Answers.{detail_width};
ghost use Rattle.batch_items.specs.Papers.{paper_item, mark_of};
ghost use Rattle.batch_items.specs.Clauses.{Checks};

use crate::{Checked, Decoded, Fault, Item, items, kinds};
use memory::spans;

// Bytes of an item's answer behind its head.
pub fn detail_width(item: Item) -> usize
    ensures { (x : Bytes) → result ≡ detail_width (paper_item x item) }
{
    kinds::detail_width(kinds::kind_of(item))
}

// 1 for a begin.
fn mark_of(item: Item) -> u8
    ensures { (x : Bytes) → result ≡ mark_of (paper_item x item) }
{
    if kinds::kind_of(item) == kinds::BEGIN {
        return 1;
    }
    0
}

// Marks each record's byte of `begins` as it goes; what stood there does not matter.
pub fn check(x: &[u8], begins: &mut [u8]) -> Checked
    requires { max_items ≤ length begins.old }
    ensures { Checks x.now begins.new result }
{
    let mut at = 0;
    let mut n = 0;
    let mut width = 0;
    while at < x.len() {
        if n == model_batch::MAX_ITEMS {
            return Checked::Wrong(Fault::Malformed, at);
        }
        match items::item_at(x, at, spans::piece(begins, 0, n)) {
            Decoded::Wrong(f) => {
                return Checked::Wrong(f, at);
            }
            Decoded::Item(item, end) => {
                begins[n] = mark_of(item);
                width += model_batch::HEAD_WIDTH + detail_width(item);
                at = end;
                n += 1;
            }
        }
    }
    Checked::Items(n, width)
}
