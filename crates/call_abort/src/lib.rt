// A transaction given up: its desk is free again, and nothing of it stays.
#![tactic(auto)]

ghost use Rattle.model.specs.Calls.{on, abort};
ghost use Rattle.answers.specs.Paper.{paper_done};
ghost use Rattle.bridge.specs.Store.{Sound};
ghost use Rattle.bridge.specs.Clauses.{DeskCalled};

use answers::{Done, Refusal};
use bridge::memories;
use desk::desks;
use memory::Which;
use model::Start;

pub fn abort_in(hall: &[u8], desk: &mut [u8], start: Start) -> Done
    requires { Sound hall.now desk.old }
    ensures { DeskCalled hall.now desk.old desk.new (on start.0 abort)
        (paper_done result) }
{
    match desks::desk_of(desk, start.0) {
        Which::At(d) => {
            desks::close_desk(desk, d);
            Done::Done
        }
        Which::Nothing => Done::Refused(Refusal::NotOpen),
    }
}

pub fn abort(hall: &[u8], desk: &mut [u8], start: Start) -> Done
    ensures { DeskCalled hall.now desk.old desk.new (on start.0 abort)
        (paper_done result) }
{
    if !memories::are_sound(hall, desk) {
        return Done::Refused(Refusal::Unsound);
    }
    abort_in(hall, desk, start)
}
