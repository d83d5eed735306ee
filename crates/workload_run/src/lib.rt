// The seeded workload over the store.
#![tactic(auto)]

pub mod run;

ghost use Rattle.workload_run.specs.Works.{Works};

use answers::{Done, Dumped};
use workload_plan::Input;

// What became of a text: a workload that was run, with what its dump answered, or other input.
#[derive(Drop)]
pub enum Worked {
    Ran(Dumped),
    Other,
}

// Runs the workload that a text says, on a new store in the lent memories, and dumps it into the output. A text that
// says none, or rooms that the memories don't hold, is other input: then no byte changes.
pub fn workload(text: &[u8], hall: &mut [u8], desk: &mut [u8], out: &mut [u8]) -> Worked
    ensures { Works text.now hall.old desk.old out.old
        hall.new desk.new out.new result }
{
    let Input::Plan(p) = workload_plan::plan_in(text) else {
        return Worked::Other;
    };
    if let Done::Refused(_) = run::run_plan(hall, desk, p) {
        return Worked::Other;
    }
    Worked::Ran(store::dump(hall, out))
}
