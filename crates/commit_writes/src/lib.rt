// The writes of a desk that nothing clashes with: room for them, their record in the journal, and published.
#![tactic(auto)]

ghost use Rattle.std.specs.Prelude.{◌≡◌, length, ◌<◌};
ghost use Rattle.model.specs.Calls as calls;
ghost use Rattle.model.specs.Calls.{stays, answering, check, new_keys, room_checks};
ghost use Rattle.answers.specs.Paper.{paper_done};
ghost use Rattle.hall.specs.Layout.{hall_in};
ghost use Rattle.desk.specs.Layout.{desks_in};
ghost use Rattle.desk.specs.Shape.{Shaped};
ghost use Rattle.hall_sought.specs.Sought.{writes_in, Ready, Found};
ghost use Rattle.commit_writes.specs.Commits.{room_in, settle_at, commit_at, Unopposed, Keeps, Ended};

use answers::{Committed, Done, Recorded, Refusal};
use desk::desks;
use hall::header;
use hall_sought::room;
use model::{Commit, Start};

// What became of a record: its length, zero where no journal is kept, or that the journal is too short for it.
#[derive(Drop)]
enum Kept {
    Record(usize),
    Short,
}

// Is there a number left, and room for the writes of desk d, of which `new` are of new keys?
fn has_room(hall: &[u8], desk: &[u8], d: usize, new: usize) -> Done
    requires { Ready hall.now desk.now d
        × (new ≡ new_keys (writes_in desk.now d) (hall_in hall.now).entries) }
    ensures { paper_done result ≡ (check (room_checks (hall_in hall.now) (writes_in desk.now d))
        (answering calls.done stays)).answer }
{
    if model::LAST_NUMBER <= header::counter(hall) {
        return Done::Refused(Refusal::Spent);
    }
    let lack = room::lack(hall, desk, d, new);
    if lack == room::NO_KEY_ROOM {
        return Done::Refused(Refusal::NoKeyRoom);
    }
    if lack == room::NO_VERSION_ROOM {
        return Done::Refused(Refusal::NoVersionRoom);
    }
    Done::Done
}

// Writes the record of desk d's writes under that number over the front of the journal, if one is kept.
fn keep(desk: &[u8], d: usize, number: u64, keeping: bool, journal: &mut [u8]) -> Kept
    requires { Shaped desk.now × (d < length (desks_in desk.now)) }
    ensures { Keeps (room_in keeping journal.old) (commit_at desk.now d number)
        journal.old journal.new result }
{
    if !keeping {
        return Kept::Record(0);
    }
    let len = journal_write::record_length(desk, d);
    if journal.len() < len {
        return Kept::Short;
    }
    Kept::Record(journal_write::write_record(desk, journal, d, number, len))
}

// Publishes the writes of desk d, which nothing clashes with, if there is room for them; their places are in `at`.
pub fn publish(
    hall: &mut [u8],
    desk: &mut [u8],
    d: usize,
    start: Start,
    at: &[usize],
    new: usize,
    keeping: bool,
    journal: &mut [u8],
) -> Recorded
    requires { Unopposed hall.old desk.old d start.0 × Found hall.old desk.old d at.now new }
    ensures { Ended hall.old desk.old hall.new desk.new
        journal.old journal.new
        (settle_at (room_in keeping journal.old) hall.old desk.old d start.0)
        result }
{
    if let Done::Refused(r) = has_room(hall, desk, d, new) {
        return Recorded {
            answer: Committed::Refused(r),
            length: 0,
        };
    }
    let number = header::counter(hall) + 1;
    match keep(desk, d, number, keeping, journal) {
        Kept::Short => Recorded {
            answer: Committed::Refused(Refusal::ShortOutput),
            length: 0,
        },
        Kept::Record(len) => {
            hall_merge::publish_writes(hall, desk, d, number, at, new);
            desks::close_desk(desk, d);
            Recorded {
                answer: Committed::As(Commit(number)),
                length: len,
            }
        }
    }
}
