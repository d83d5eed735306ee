// A worker's turn: begin if it has no transaction, put or read, commit after its fourth.
#![tactic(auto)]

ghost use Rattle.std.specs.Prelude.{◌≡◌, ◌≤◌};
ghost use Rattle.model.specs.State.{Store};
ghost use Rattle.model.specs.Calls.{Clashes, next};
ghost use Rattle.answers.specs.Paper.{paper_begun, paper_committed};
ghost use Rattle.workload_turns.specs.Turns.{start_in, seated, drawn_call, lacks_room, finished, turned};
ghost use Rattle.workload_turns.specs.Holding.{Does, Plays};

use answers::{Begun, Committed};
use model::Start;
use workload_plan::choices;
use workload_plan::choices::Choice;

const TURN_LIMIT: u64 = 4;

// A worker's transaction, and how many operations are left to it: none left, and it has no transaction.
#[derive(Clone, Copy)]
pub struct Seat {
    pub start: Start,
    pub turns: u64,
}

// The start that begin answered; 0, which no transaction has, if it was refused.
fn start_of(b: Begun) -> Start
    ensures { result.0 ≡ start_in (paper_begun b) }
{
    match b {
        Begun::As(start, _) => start,
        Begun::Refused(_) => Start(0),
    }
}

// Was the commit refused for lack of room, 10 or 11?
fn lacks_room(r: Committed) -> bool
    ensures { (cs : Clashes) → result ≡ lacks_room (paper_committed cs r) }
{
    match r {
        Committed::As(_) => false,
        Committed::Closed => false,
        Committed::Conflict(_) => false,
        Committed::Refused(why) => {
            let n = answers::number_of(why);
            if n == 10 {
                return true;
            }
            n == 11
        }
    }
}

// Commits the transaction, and aborts it where that lacks room; it is not asked what clashes.
pub fn finish(hall: &mut [u8], desk: &mut [u8], start: Start)
    ensures { Does (λ (s : Store). finished s start.0) hall.old desk.old
        hall.new desk.new }
{
    let r = store::commit(hall, desk, start, &mut []);
    if lacks_room(r) {
        store::abort(hall, desk, start);
    }
}

// A worker with no transaction begins one.
fn take_seat(hall: &mut [u8], desk: &mut [u8], seat: Seat) -> Seat
    ensures le_turns { 1 ≤ result.turns }
    ensures plays { Plays (λ (s : Store). seated s seat) hall.old desk.old hall.new
        desk.new result }
{
    if seat.turns == 0 {
        let begun = store::begin(hall, desk);
        let start = start_of(begun);
        return Seat {
            start,
            turns: TURN_LIMIT,
        };
    }
    seat
}

// The operation itself: workers below the writers put, others read.
fn act(hall: &[u8], desk: &mut [u8], start: Start, c: Choice, writers: u64)
    ensures { Does (λ (s : Store). next s (drawn_call writers c start.0)) hall.now
        desk.old hall.now desk.new }
{
    let key = choices::key_of(c.key);
    if c.worker < writers {
        let payload = choices::payload_of(c.payload);
        store::put(hall, desk, start, &key, &payload);
    } else {
        store::read(hall, desk, start, &key);
    }
}

// One operation of a worker; the seat that it has afterwards.
pub fn turn(hall: &mut [u8], desk: &mut [u8], seat: Seat, c: Choice, writers: u64) -> Seat
    ensures { Plays (λ (s : Store). turned writers c s seat) hall.old desk.old
        hall.new desk.new result }
{
    let open = take_seat(hall, desk, seat);
    let start = open.start;
    act(hall, desk, start, c, writers);
    let turns = open.turns - 1;
    if turns == 0 {
        finish(hall, desk, start);
    }
    Seat { start, turns }
}
