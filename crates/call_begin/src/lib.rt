// A transaction opened: its start is the next number, its desk the lowest that is free.
#![tactic(auto)]

ghost use Rattle.model.specs.Calls.{begin};
ghost use Rattle.answers.specs.Paper.{paper_begun};
ghost use Rattle.bridge.specs.Clauses.{Called};
ghost use Rattle.bridge.specs.Store.{Sound};

use answers::{Begun, Refusal};
use bridge::memories;
use desk::desks;
use hall::header;
use memory::Which;
use model::Start;

pub fn begin_in(hall: &mut [u8], desk: &mut [u8]) -> Begun
    requires { Sound hall.old desk.old }
    ensures { Called hall.old desk.old hall.new desk.new begin
        (paper_begun result) }
{
    match desks::free_desk(desk) {
        Which::At(d) => {
            let counter = header::counter(hall);
            if model::LAST_NUMBER <= counter {
                return Begun::Refused(Refusal::Spent);
            }
            hall_head::set_counter(hall, counter + 1);
            desks::take_desk(desk, d, counter + 1);
            Begun::As(Start(counter + 1), d)
        }
        Which::Nothing => Begun::Refused(Refusal::DesksTaken),
    }
}

pub fn begin(hall: &mut [u8], desk: &mut [u8]) -> Begun
    ensures { Called hall.old desk.old hall.new desk.new begin
        (paper_begun result) }
{
    if !memories::are_sound(hall, desk) {
        return Begun::Refused(Refusal::Unsound);
    }
    begin_in(hall, desk)
}
