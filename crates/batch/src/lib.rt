// Many calls in one: the memories are tested once, the records read whole, and then each is made as its single call.
#![tactic(auto)]

ghost use Rattle.std.specs.Prelude.{◌≡◌};
ghost use Rattle.model.specs.Calls.{faulty};
ghost use Rattle.answers.specs.Paper.{paper_batched};
ghost use Rattle.batch_items.specs.declared.Item.TheVariants.{Read, Put, Delete, Commit, Abort};
ghost use Rattle.batch_items.specs.Papers.{paper_who, paper_fault};
ghost use Rattle.bridge.specs.Store.{memories_of};
ghost use Rattle.batch.specs.Batches.{Batching};
ghost use Rattle.batch.specs.Making.{start_in, Answered, Makes, Recorded, items_in, Ready, AllMade};

use answers::{Batched, Refusal};
use batch_items::{Checked, Decoded, Fault, Item, Span, Who, batch as records, items};
use bridge::memories;
use memory::spans;
use model::Start;

// The start of a transaction; by place, what its begin answered.
fn start_for(out: &[u8], who: Who) -> Start
    requires { Answered out.now (paper_who who) }
    ensures { result.0 ≡ start_in out.now (paper_who who) }
{
    match who {
        Who::Start(t) => Start(t),
        Who::Place(p) => Start(batch_heads::start_of(out, p)),
    }
}

fn make_read<'a>(
    hall: &'a [u8],
    desk: &'a [u8],
    x: &[u8],
    who: Who,
    key: Span,
    out: &mut [u8],
    i: usize,
    at: usize,
)
    requires { Makes hall.now desk.now x.now out.old i at (Read who key) }
    ensures { Recorded hall.now desk.now hall.now desk.now
        x.now out.old out.new i at (Read who key) }
{
    let start = start_for(out, who);
    batch_calls::read_record(
        hall,
        desk,
        start,
        spans::piece(x, key.at, key.len),
        out,
        i,
        at,
    );
}

fn make_put(
    hall: &[u8],
    desk: &mut [u8],
    x: &[u8],
    who: Who,
    key: Span,
    val: Span,
    out: &mut [u8],
    i: usize,
    at: usize,
)
    requires { Makes hall.now desk.old x.now out.old i at (Put who key val) }
    ensures { Recorded hall.now desk.old hall.now desk.new
        x.now out.old out.new i at (Put who key val) }
{
    let start = start_for(out, who);
    let k = spans::piece(x, key.at, key.len);
    batch_calls::put_record(
        hall,
        desk,
        start,
        k,
        spans::piece(x, val.at, val.len),
        out,
        i,
    );
}

fn make_delete(
    hall: &[u8],
    desk: &mut [u8],
    x: &[u8],
    who: Who,
    key: Span,
    out: &mut [u8],
    i: usize,
    at: usize,
)
    requires { Makes hall.now desk.old x.now out.old i at (Delete who key) }
    ensures { Recorded hall.now desk.old hall.now desk.new
        x.now out.old out.new i at (Delete who key) }
{
    let start = start_for(out, who);
    batch_calls::delete_record(hall, desk, start, spans::piece(x, key.at, key.len), out, i);
}

fn make_commit(
    hall: &mut [u8],
    desk: &mut [u8],
    x: &[u8],
    who: Who,
    out: &mut [u8],
    i: usize,
    at: usize,
)
    requires { Makes hall.old desk.old x.now out.old i at (Commit who) }
    ensures { Recorded hall.old desk.old hall.new desk.new
        x.now out.old out.new i at (Commit who) }
{
    let start = start_for(out, who);
    batch_calls::commit_record(hall, desk, start, out, i, at);
}

fn make_abort(hall: &[u8], desk: &mut [u8], x: &[u8], who: Who, out: &mut [u8], i: usize, at: usize)
    requires { Makes hall.now desk.old x.now out.old i at (Abort who) }
    ensures { Recorded hall.now desk.old hall.now desk.new
        x.now out.old out.new i at (Abort who) }
{
    let start = start_for(out, who);
    batch_calls::abort_record(hall, desk, start, out, i);
}

// Makes the record i, with its details at `at`.
fn make_record(
    hall: &mut [u8],
    desk: &mut [u8],
    x: &[u8],
    item: Item,
    out: &mut [u8],
    i: usize,
    at: usize,
)
    requires { Makes hall.old desk.old x.now out.old i at item }
    ensures { Recorded hall.old desk.old hall.new desk.new
        x.now out.old out.new i at item }
{
    match item {
        Item::Begin => batch_calls::begin_record(hall, desk, out, i),
        Item::Read(who, key) => make_read(hall, desk, x, who, key, out, i, at),
        Item::Put(who, key, val) => make_put(hall, desk, x, who, key, val, out, i, at),
        Item::Delete(who, key) => make_delete(hall, desk, x, who, key, out, i, at),
        Item::Commit(who) => make_commit(hall, desk, x, who, out, i, at),
        Item::Abort(who) => make_abort(hall, desk, x, who, out, i, at),
        Item::Sweep(limit) => batch_calls::sweep_record(hall, desk, limit, out, i),
    }
}

// Makes the records of a batch that was found whole; `begins` marks its begins.
fn make_records(
    hall: &mut [u8],
    desk: &mut [u8],
    x: &[u8],
    begins: &[u8],
    out: &mut [u8],
    count: usize,
)
    requires { Ready hall.old desk.old x.now begins.now out.old count }
    ensures { AllMade (memories_of hall.old desk.old)
        (memories_of hall.new desk.new) out.old out.new
        (items_in x.now) }
{
    let mut at = 0;
    let mut to = batch_heads::place(count);
    let mut i = 0;
    while i < count {
        match items::item_at(x, at, begins) {
            Decoded::Item(item, end) => {
                make_record(hall, desk, x, item, out, i, to);
                to += records::detail_width(item);
                at = end;
                i += 1;
            }
            // there is none, once the batch is checked
            Decoded::Wrong(_) => {
                return;
            }
        }
    }
}

fn wrong_at(f: Fault, at: usize) -> Batched
    ensures { paper_batched result ≡ faulty (paper_fault f) at }
{
    match f {
        Fault::Malformed => Batched::Malformed(at),
        Fault::Reserved => Batched::Reserved(at),
    }
}

// Answers each record in `out`, heads first, or says why none was made.
pub fn batch(hall: &mut [u8], desk: &mut [u8], x: &[u8], out: &mut [u8]) -> Batched
    ensures { Batching (memories_of hall.old desk.old)
        (memories_of hall.new desk.new) x.now out.old out.new
        (paper_batched result) }
{
    if !memories::are_sound(hall, desk) {
        return Batched::Refused(Refusal::Unsound);
    }
    let mut begins = [0u8; model_batch::MAX_ITEMS];
    match records::check(x, &mut begins) {
        Checked::Wrong(f, at) => wrong_at(f, at),
        Checked::Items(count, width) => {
            if out.len() < width {
                return Batched::Refused(Refusal::ShortOutput);
            }
            make_records(hall, desk, x, spans::piece(&begins, 0, count), out, count);
            Batched::Answers(width)
        }
    }
}
