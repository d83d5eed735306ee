// The records of a batch, one at a time in sound memories: each is done by its call's inner form, and its answer goes
// into the output, the head to place i and the details to `at`.
#![tactic(auto)]

ghost use Rattle.std.specs.Prelude.{◌≡◌, ◌++◌, ◌+◌, ◌*◌, ◌≤◌, length};
ghost use Rattle.std.proofs.lemmas.List.Edits.{sets};
ghost use Rattle.model.specs.Sizes.{max_value, max_writes, count_width};
ghost use Rattle.model.specs.Bytes.{bytes};
ghost use Rattle.model.specs.Calls.{read, put, delete, commit, abort, begin, on, sweep};
ghost use Rattle.model_batch.specs.Items.{started, begins, acts, sweeps};
ghost use Rattle.model_batch.specs.Answers.{padded, value_width, clash_width};
ghost use Rattle.bridge.specs.Store.{Sound};
ghost use Rattle.batch_calls.specs.Done.{Heading, Doing, Did, DidPlain, CommitListed};

use answers::Committed;
use memory::{numbers, spans};
use model::Start;

pub fn begin_record(hall: &mut [u8], desk: &mut [u8], out: &mut [u8], i: usize)
    requires { Heading hall.old desk.old out.old i }
    ensures { DidPlain hall.old desk.old hall.new desk.new
        out.old out.new i begins begin }
{
    let a = call_begin::begin_in(hall, desk);
    batch_heads::tell_begun(out, i, a);
}

// Writes the value behind its length, and zeros after it.
fn write_value(val: &[u8], out: &mut [u8], at: usize)
    requires { (length val.now ≤ max_value) × (at + value_width ≤ length out.old) }
    ensures { out.new ≡ sets out.old at
        (padded value_width (bytes count_width (length val.now) ++ val.now)) }
{
    numbers::write32(out, at + model_batch::LENGTH_PLACE, val.len() as u64);
    spans::pad_in(val, out, at + model_batch::VALUE_PLACE, model::MAX_VALUE);
}

pub fn read_record<'a>(
    hall: &'a [u8],
    desk: &'a [u8],
    start: Start,
    key: &[u8],
    out: &mut [u8],
    i: usize,
    at: usize,
)
    requires { Doing hall.now desk.now out.old i at (acts (started start.0) (read key.now)) }
    ensures { Did hall.now desk.now hall.now desk.now
        out.old out.new i at (acts (started start.0) (read key.now))
        (on start.0 (read key.now)) }
{
    let p = call_read::place_in(hall, desk, start, key);
    batch_heads::tell_placed(out, i, p);
    write_value(hall_values::lent(hall, desk, p), out, at);
}

pub fn put_record(
    hall: &[u8],
    desk: &mut [u8],
    start: Start,
    key: &[u8],
    val: &[u8],
    out: &mut [u8],
    i: usize,
)
    requires { Heading hall.now desk.old out.old i }
    ensures { DidPlain hall.now desk.old hall.now desk.new
        out.old out.new i (acts (started start.0) (put key.now val.now))
        (on start.0 (put key.now val.now)) }
{
    let a = call_write::put_in(hall, desk, start, key, val);
    batch_heads::tell_done(out, i, a);
}

pub fn delete_record(
    hall: &[u8],
    desk: &mut [u8],
    start: Start,
    key: &[u8],
    out: &mut [u8],
    i: usize,
)
    requires { Heading hall.now desk.old out.old i }
    ensures { DidPlain hall.now desk.old hall.now desk.new
        out.old out.new i (acts (started start.0) (delete key.now))
        (on start.0 (delete key.now)) }
{
    let a = call_write::delete_in(hall, desk, start, key);
    batch_heads::tell_done(out, i, a);
}

// Commits without a journal; the clashes fill the whole output, with zeros after them.
fn commit_listed(hall: &mut [u8], desk: &mut [u8], start: Start, clashes: &mut [u8]) -> Committed
    requires { Sound hall.old desk.old × (length clashes.old ≡ max_writes * clash_width) }
    ensures { CommitListed hall.old desk.old hall.new desk.new
        clashes.new start.0 result }
{
    spans::clear(clashes, 0, model_batch::CLASHES_WIDTH);
    let mut none = [0u8; 0];
    call_commit::commit_in(hall, desk, start, clashes, false, &mut none).answer
}

pub fn commit_record(
    hall: &mut [u8],
    desk: &mut [u8],
    start: Start,
    out: &mut [u8],
    i: usize,
    at: usize,
)
    requires { Doing hall.old desk.old out.old i at (acts (started start.0) commit) }
    ensures { Did hall.old desk.old hall.new desk.new
        out.old out.new i at (acts (started start.0) commit) (on start.0 commit) }
{
    let a = commit_listed(
        hall,
        desk,
        start,
        &mut out[at..at + model_batch::CLASHES_WIDTH],
    );
    batch_heads::tell_committed(out, i, a);
}

pub fn abort_record(hall: &[u8], desk: &mut [u8], start: Start, out: &mut [u8], i: usize)
    requires { Heading hall.now desk.old out.old i }
    ensures { DidPlain hall.now desk.old hall.now desk.new
        out.old out.new i (acts (started start.0) abort) (on start.0 abort) }
{
    let a = call_abort::abort_in(hall, desk, start);
    batch_heads::tell_done(out, i, a);
}

pub fn sweep_record(hall: &mut [u8], desk: &[u8], limit: u64, out: &mut [u8], i: usize)
    requires { Heading hall.old desk.now out.old i }
    ensures { DidPlain hall.old desk.now hall.new desk.now
        out.old out.new i (sweeps limit) (sweep limit) }
{
    let a = call_sweep::sweep_in(hall, desk, limit);
    batch_heads::tell_swept(out, i, a);
}
