// The public calls for programs in C and Rust. A slice crosses as a pointer and then a length, a number as itself,
// an answer as a plain struct.
#![tactic(auto)]

ghost use Rattle.std.specs.Prelude.{◌≡◌, [], length, None, Some};
ghost use Rattle.model.specs.Calls.{read, put, delete, abort, on, newest, as_of, counts, ask, begin, sweep, thin, replay};
ghost use Rattle.model.specs.Runs.{make, load};
ghost use Rattle.answers.specs.Paper.{paper_done, paper_loaded, paper_begun, paper_swept, paper_thinned, paper_counted, paper_dumped, paper_replayed, paper_batched};
ghost use Rattle.bridge.specs.Store.{answer_on, outcome_on, memories_of};
ghost use Rattle.bridge.specs.Clauses.{Called, DeskCalled, HallCalled, DumpCalled, Committing, Recording};
ghost use Rattle.bridge.specs.Creations.{CreatedAs};
ghost use Rattle.batch.specs.Batches.{Batching};
ghost use Rattle.boundary.specs.Boundary.{Crossed, Positive, as_done, as_loaded, as_begun, as_committed, as_recorded, as_swept, as_thinned, as_counted, as_dumped, as_replayed, as_batched};
ghost use Rattle.boundary.specs.Found.{FoundAs};

use boundary::{
    HbBatched, HbBegun, HbCommitted, HbCounted, HbDumped, HbFound, HbLoaded, HbRecorded,
    HbReplayed, HbSwept, HbThinned,
};
use model::Start;

// An empty store of these sizes.
#[unsafe(no_mangle)]
pub extern "C" fn hb_make(
    hall: &mut [u8],
    desk: &mut [u8],
    keys: u64,
    versions: u64,
    desks: u64,
) -> u64
    ensures { Crossed as_done
        (λ a. CreatedAs hall.old desk.old hall.new desk.new
        (make keys versions desks) (paper_done a)) result }
{
    boundary::refusal(store::make(hall, desk, keys, versions, desks))
}

// The store that a dump says, in these sizes.
#[unsafe(no_mangle)]
pub extern "C" fn hb_load(
    dump: &[u8],
    hall: &mut [u8],
    desk: &mut [u8],
    keys: u64,
    versions: u64,
    desks: u64,
) -> HbLoaded
    ensures { Crossed as_loaded
        (λ a. CreatedAs hall.old desk.old hall.new desk.new
        (load dump.now keys versions desks) (paper_loaded a)) result }
{
    boundary::loaded(store::load(dump, hall, desk, keys, versions, desks))
}

#[unsafe(no_mangle)]
pub extern "C" fn hb_begin(hall: &mut [u8], desk: &mut [u8]) -> HbBegun
    ensures { Crossed as_begun
        (λ a. Called hall.old desk.old hall.new desk.new begin
        (paper_begun a)) result }
{
    boundary::begun(store::begin(hall, desk))
}

// Kind and bytes in one: the bytes as a place in the memory that holds them.
#[unsafe(no_mangle)]
pub extern "C" fn hb_read(hall: &[u8], desk: &[u8], start: u64, key: &[u8]) -> HbFound
    ensures { FoundAs hall.now desk.now
        (outcome_on hall.now desk.now (on start (read key.now))) result }
{
    boundary::found(call_read::place(hall, desk, Start(start), key))
}

// The bytes stand in hall memory.
#[unsafe(no_mangle)]
pub extern "C" fn hb_newest(hall: &[u8], key: &[u8]) -> HbFound
    ensures { FoundAs hall.now hall.now
        (outcome_on hall.now [] (ask (newest key.now))) result }
{
    boundary::found(call_ask::place(hall, key))
}

// The bytes stand in hall memory.
#[unsafe(no_mangle)]
pub extern "C" fn hb_as_of(hall: &[u8], number: u64, key: &[u8]) -> HbFound
    ensures { FoundAs hall.now hall.now
        (outcome_on hall.now [] (ask (as_of number key.now))) result }
{
    boundary::found(call_ask::past::place(hall, number, key))
}

#[unsafe(no_mangle)]
pub extern "C" fn hb_put(hall: &[u8], desk: &mut [u8], start: u64, key: &[u8], val: &[u8]) -> u64
    ensures { Crossed as_done
        (λ a. DeskCalled hall.now desk.old desk.new
        (on start (put key.now val.now)) (paper_done a)) result }
{
    boundary::refusal(store::put(hall, desk, Start(start), key, val))
}

#[unsafe(no_mangle)]
pub extern "C" fn hb_delete(hall: &[u8], desk: &mut [u8], start: u64, key: &[u8]) -> u64
    ensures { Crossed as_done
        (λ a. DeskCalled hall.now desk.old desk.new
        (on start (delete key.now)) (paper_done a)) result }
{
    boundary::refusal(store::delete(hall, desk, Start(start), key))
}

// A conflict's keys are listed in `clashes`, as many as have room there.
#[unsafe(no_mangle)]
pub extern "C" fn hb_commit(
    hall: &mut [u8],
    desk: &mut [u8],
    start: u64,
    clashes: &mut [u8],
) -> HbCommitted
    ensures { Crossed as_committed
        (λ a. Committing None hall.old desk.old hall.new desk.new
        clashes.old clashes.new start a × Positive a) result }
{
    boundary::committed(store::commit(hall, desk, Start(start), clashes))
}

// The same with a record of the commit, if it has writes, over the front of the journal.
#[unsafe(no_mangle)]
pub extern "C" fn hb_commit_journal(
    hall: &mut [u8],
    desk: &mut [u8],
    start: u64,
    clashes: &mut [u8],
    journal: &mut [u8],
) -> HbRecorded
    ensures { Crossed as_recorded
        (λ a. Recording (Some (length journal.old)) hall.old desk.old
        hall.new desk.new clashes.old clashes.new journal.old
        journal.new start a × Positive a.answer) result }
{
    boundary::recorded(store::commit_to(hall, desk, Start(start), clashes, journal))
}

#[unsafe(no_mangle)]
pub extern "C" fn hb_abort(hall: &[u8], desk: &mut [u8], start: u64) -> u64
    ensures { Crossed as_done
        (λ a. DeskCalled hall.now desk.old desk.new (on start abort)
        (paper_done a)) result }
{
    boundary::refusal(store::abort(hall, desk, Start(start)))
}

#[unsafe(no_mangle)]
pub extern "C" fn hb_sweep(hall: &mut [u8], desk: &[u8], limit: u64) -> HbSwept
    ensures { Crossed as_swept
        (λ a. HallCalled hall.old desk.now hall.new (sweep limit) (paper_swept a)) result }
{
    boundary::swept(store::sweep(hall, desk, limit))
}

#[unsafe(no_mangle)]
pub extern "C" fn hb_thin(hall: &mut [u8], desk: &[u8], limit: u64) -> HbThinned
    ensures { Crossed as_thinned
        (λ a. HallCalled hall.old desk.now hall.new (thin limit) (paper_thinned a)) result }
{
    boundary::thinned(store::thin(hall, desk, limit))
}

// The commits of a journal, done again in turn.
#[unsafe(no_mangle)]
pub extern "C" fn hb_replay(hall: &mut [u8], desk: &mut [u8], journal: &[u8]) -> HbReplayed
    ensures { Crossed as_replayed
        (λ a. Called hall.old desk.old hall.new desk.new
        (replay journal.now) (paper_replayed a)) result }
{
    boundary::replayed(store::replay(hall, desk, journal))
}

// Many calls in one: the answers go to the front of `answers`.
#[unsafe(no_mangle)]
pub extern "C" fn hb_batch(
    hall: &mut [u8],
    desk: &mut [u8],
    batch: &[u8],
    answers: &mut [u8],
) -> HbBatched
    ensures { Crossed as_batched
        (λ a. Batching (memories_of hall.old desk.old)
        (memories_of hall.new desk.new) batch.now answers.old
        answers.new (paper_batched a)) result }
{
    boundary::batched(batch::batch(hall, desk, batch, answers))
}

#[unsafe(no_mangle)]
pub extern "C" fn hb_counts(hall: &[u8], desk: &[u8]) -> HbCounted
    ensures { Crossed as_counted
        (λ a. paper_counted a ≡ answer_on hall.now desk.now (ask counts)) result }
{
    boundary::counted(store::counts(hall, desk))
}

#[unsafe(no_mangle)]
pub extern "C" fn hb_dump(hall: &[u8], out: &mut [u8]) -> HbDumped
    ensures { Crossed as_dumped
        (λ a. DumpCalled hall.now out.old out.new (paper_dumped a)) result }
{
    boundary::dumped(store::dump(hall, out))
}
