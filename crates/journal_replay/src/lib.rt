// The records of a journal, done one after the other: each is judged, staged at the first desk and published from it.
#![tactic(auto)]

ghost use Rattle.std.specs.Prelude.{◌≡◌, ◌⊎◌};
ghost use Rattle.model.specs.Calls.{faulty};
ghost use Rattle.hall.specs.Layout.{Sound};
ghost use Rattle.desk.specs.Layout.{desks_in, put_desks};
ghost use Rattle.hall_sought.specs.Sought.{writes_in};
ghost use Rattle.journal_stage.specs.Staging.{writes_of, Body};
ghost use Rattle.journal_replay.specs.Replays.{Vacant, staged, commit_of, Doable, Offered, Committed, paper_stopped, Replayed};

use desk::desks;
use hall::header;
use hall_sought::room;
use journal_check::Judged;
use memory::{numbers, spans};

// Where a replay stopped: at the end of the whole records, or at a record that is refused.
#[derive(Drop)]
pub enum Stopped {
    Ended(usize),
    Malformed(usize),
    NoKeyRoom(usize),
    NoVersionRoom(usize),
}

// A record that there is no room for.
fn full(lack: u8, at: usize) -> Stopped
    requires { (lack ≡ 10) ⊎ (lack ≡ 11) }
    ensures { paper_stopped result ≡ faulty lack at }
{
    if lack == room::NO_KEY_ROOM {
        return Stopped::NoKeyRoom(at);
    }
    Stopped::NoVersionRoom(at)
}

// The first desk is taken for the writes of the body x.
fn stage(x: &[u8], desk: &mut [u8])
    requires { Body x.now × Vacant desk.old }
    ensures { desk.new ≡ put_desks desk.old
        (staged (writes_of x.now) (desks_in desk.old)) }
{
    desks::take_desk(desk, 0, 0);
    journal_stage::stage_writes(x, desk, 0);
}

// Publishes the writes of the first desk under that number, if there is room for them; else 10 or 11.
fn publish(hall: &mut [u8], desk: &[u8], number: u64) -> u8
    requires { Offered hall.old desk.now number }
    ensures { Committed hall.old
        (record { number = number; writes = writes_in desk.now 0 }) hall.new result }
{
    let mut at = [0usize; model::MAX_WRITES];
    let new = hall_sought::seek_writes(hall, desk, 0, &mut at);
    let lack = room::lack(hall, desk, 0, new);
    if lack != 0 {
        return lack;
    }
    hall_merge::publish_writes(hall, desk, 0, number, &at, new);
    0
}

// The record with the body x, of a lawful commit; desk memory ends as it began.
fn do_record(hall: &mut [u8], desk: &mut [u8], x: &[u8]) -> u8
    requires { Doable hall.old desk.old x.now }
    ensures { Committed hall.old (commit_of x.now) hall.new result
        × (desk.new ≡ desk.old) }
{
    stage(x, desk);
    let lack = publish(
        hall,
        desk,
        numbers::read64(x, journal_fields::NUMBER_IN_BODY),
    );
    desks::close_desk(desk, 0);
    lack
}

// Does the records of a journal in turn, up to its end, a cut, or a record that is refused.
pub fn replay_records(hall: &mut [u8], desk: &mut [u8], journal: &[u8]) -> Stopped
    requires { Sound hall.old × Vacant desk.old }
    ensures { Replayed hall.old desk.old journal.now hall.new
        desk.new (paper_stopped result) }
{
    let mut at = 0;
    loop {
        match journal_check::judge(journal, at, header::counter(hall)) {
            Judged::Cut => {
                return Stopped::Ended(at);
            }
            Judged::Spoiled => {
                return Stopped::Malformed(at);
            }
            Judged::Whole(n) => {
                let body = at + journal_fields::BODY_PLACE;
                let lack = do_record(hall, desk, spans::piece(journal, body, n));
                if lack != 0 {
                    return full(lack, at);
                }
                at = body + n;
            }
        }
    }
}
