// The kinds of records, by which their answers differ.
ghost use Rattle.std.specs.Prelude.{◌≡◌};
ghost use Rattle.model.specs.Bytes.{Bytes};
ghost use Rattle.model_batch.specs.Items.{item_kind};
ghost use Rattle.model_batch.specs.Answers.{kind_width};
ghost use Rattle.batch_items.specs.Papers.{paper_item};

use crate::Item;

pub const BEGIN: u64 = 16;

pub const READ: u64 = 17;

pub const PUT: u64 = 18;

pub const DELETE: u64 = 19;

pub const COMMIT: u64 = 20;

pub const ABORT: u64 = 21;

pub const SWEEP: u64 = 22;

pub fn kind_of(item: Item) -> u64
    ensures { (x : Bytes) → result ≡ item_kind (paper_item x item) }
{
    match item {
        Item::Begin => BEGIN,
        Item::Read(_, _) => READ,
        Item::Put(_, _, _) => PUT,
        Item::Delete(_, _) => DELETE,
        Item::Commit(_) => COMMIT,
        Item::Abort(_) => ABORT,
        Item::Sweep(_) => SWEEP,
    }
}

// Bytes of an answer behind its head.
pub fn detail_width(kind: u64) -> usize
    ensures { result ≡ kind_width kind }
{
    if kind == READ {
        return model_batch::VALUE_WIDTH;
    }
    if kind == COMMIT {
        return model_batch::CLASHES_WIDTH;
    }
    0
}
