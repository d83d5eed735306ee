// Committing the open transaction of a start.
#![tactic(auto)]

ghost use Rattle.std.specs.Prelude.{length, None, Some};
ghost use Rattle.bridge.specs.Store.{Sound};
ghost use Rattle.commit_writes.specs.Commits.{room_in, settle_at, OpenDesk, Ended};
ghost use Rattle.call_commit.specs.Lists.{Lists};
ghost use Rattle.bridge.specs.Clauses.{Committing, Recording};

use answers::{Committed, Recorded, Refusal};
use bridge::memories;
use desk::desks;
use memory::Which;
use model::Start;

// Settles the writes of desk d, which is open with that start; what clashes is listed.
fn settle(
    hall: &mut [u8],
    desk: &mut [u8],
    d: usize,
    start: Start,
    clashes: &mut [u8],
    keeping: bool,
    journal: &mut [u8],
) -> Recorded
    requires { OpenDesk hall.old desk.old d start.0 }
    ensures { Ended hall.old desk.old hall.new desk.new
        journal.old journal.new
        (settle_at (room_in keeping journal.old) hall.old desk.old d start.0)
        result
        × Lists clashes.old clashes.new
        (settle_at (room_in keeping journal.old) hall.old desk.old d
        start.0) }
{
    if desk_writes::write_count(desk, d) == 0 {
        desks::close_desk(desk, d);
        return Recorded {
            answer: Committed::Closed,
            length: 0,
        };
    }
    let mut at = [0usize; model::MAX_WRITES];
    let new = hall_sought::seek_writes(hall, desk, d, &mut at);
    let count = hall_conflict::list_clashes(hall, desk, d, start, &at, clashes);
    if 0 < count {
        desks::close_desk(desk, d);
        return Recorded {
            answer: Committed::Conflict(count),
            length: 0,
        };
    }
    commit_writes::publish(hall, desk, d, start, &at, new, keeping, journal)
}

// The commit over sound memories, with a record in the journal if one is kept.
pub fn commit_in(
    hall: &mut [u8],
    desk: &mut [u8],
    start: Start,
    clashes: &mut [u8],
    keeping: bool,
    journal: &mut [u8],
) -> Recorded
    requires { Sound hall.old desk.old }
    ensures { Recording (room_in keeping journal.old) hall.old
        desk.old hall.new desk.new clashes.old clashes.new
        journal.old journal.new start.0 result }
{
    match desks::desk_of(desk, start.0) {
        Which::At(d) => settle(hall, desk, d, start, clashes, keeping, journal),
        Which::Nothing => Recorded {
            answer: Committed::Refused(Refusal::NotOpen),
            length: 0,
        },
    }
}

// Publishes the writes of the transaction with that start, or says what stands in their way. Of a conflict it lists in
// `clashes` as many keys, with their newest numbers, as have room there.
pub fn commit(hall: &mut [u8], desk: &mut [u8], start: Start, clashes: &mut [u8]) -> Committed
    ensures { Committing None hall.old desk.old hall.new desk.new
        clashes.old clashes.new start.0 result }
{
    if !memories::are_sound(hall, desk) {
        return Committed::Refused(Refusal::Unsound);
    }
    let mut none = [0u8; 0];
    commit_in(hall, desk, start, clashes, false, &mut none).answer
}

// The same with a record of the commit, if it has writes, over the front of the journal.
pub fn commit_to(
    hall: &mut [u8],
    desk: &mut [u8],
    start: Start,
    clashes: &mut [u8],
    journal: &mut [u8],
) -> Recorded
    ensures { Recording (Some (length journal.old)) hall.old desk.old
        hall.new desk.new clashes.old clashes.new journal.old
        journal.new start.0 result }
{
    if !memories::are_sound(hall, desk) {
        return Recorded {
            answer: Committed::Refused(Refusal::Unsound),
            length: 0,
        };
    }
    commit_in(hall, desk, start, clashes, true, journal)
}
