// The commits of a journal, done again.
#![tactic(auto)]

ghost use Rattle.std.specs.Prelude.{◌≡◌};
ghost use Rattle.model.specs.Calls.{replay};
ghost use Rattle.journal_replay.specs.Replays.{paper_stopped};
ghost use Rattle.answers.specs.Paper.{paper_replayed};
ghost use Rattle.bridge.specs.Store.{Sound};
ghost use Rattle.bridge.specs.Clauses.{Called};

use answers::{Refusal, Replayed};
use bridge::memories;
use desk::desks;
use journal_replay::Stopped;

fn told(s: Stopped) -> Replayed
    ensures { paper_replayed result ≡ paper_stopped s }
{
    match s {
        Stopped::Ended(at) => Replayed::UpTo(at),
        Stopped::Malformed(at) => Replayed::Malformed(at),
        Stopped::NoKeyRoom(at) => Replayed::NoKeyRoom(at),
        Stopped::NoVersionRoom(at) => Replayed::NoVersionRoom(at),
    }
}

// The replay over sound memories.
pub fn replay_in(hall: &mut [u8], desk: &mut [u8], journal: &[u8]) -> Replayed
    requires { Sound hall.old desk.old }
    ensures { Called hall.old desk.old hall.new desk.new
        (replay journal.now) (paper_replayed result) }
{
    if desks::open_desks(desk) != 0 {
        return Replayed::Refused(Refusal::DesksOpen);
    }
    told(journal_replay::replay_records(hall, desk, journal))
}

// Does the records of the journal in turn, beside desks that are all free: up to its end, to where it is cut off, or to
// a record that is refused. Those before it stand.
pub fn replay(hall: &mut [u8], desk: &mut [u8], journal: &[u8]) -> Replayed
    ensures { Called hall.old desk.old hall.new desk.new
        (replay journal.now) (paper_replayed result) }
{
    if !memories::are_sound(hall, desk) {
        return Replayed::Refused(Refusal::Unsound);
    }
    replay_in(hall, desk, journal)
}
