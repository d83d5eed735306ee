// The run: the drawn operations one after the other, then what is open commits.
ghost use Rattle.std.specs.Prelude.{◌≡◌, true, length};
ghost use Rattle.model.specs.State.{Store};
ghost use Rattle.answers.specs.Paper.{paper_done};
ghost use Rattle.workload_plan.specs.Input.{worker_limit, fits};
ghost use Rattle.workload_turns.specs.Holding.{Does};
ghost use Rattle.workload_run.specs.Workload.{left, ended, Operates};
ghost use Rattle.workload_run.specs.Works.{Ran};

use answers::Done;
use model::Start;
use workload_plan::{Plan, WORKER_LIMIT, choices};
use workload_turns::Seat;

// All operations of the plan, on a store with every worker idle; the seats afterwards.
fn operate(hall: &mut [u8], desk: &mut [u8], p: Plan) -> [Seat; WORKER_LIMIT]
    requires { fits p ≡ true }
    ensures result_len { length result ≡ worker_limit }
    ensures operates { Operates p hall.old desk.old hall.new desk.new result }
{
    let mut seats = [Seat {
        start: Start(0),
        turns: 0,
    }; WORKER_LIMIT];
    let mut state = p.seed;
    let mut left = p.operations;
    while 0 < left {
        let c = choices::choose(p, state);
        let w = c.worker as usize;
        let seat = seats[w];
        seats[w] = workload_turns::turn(hall, desk, seat, c, p.writers);
        state = c.state;
        left -= 1;
    }
    seats
}

// The open transactions commit, in worker order.
fn end(hall: &mut [u8], desk: &mut [u8], seats: [Seat; WORKER_LIMIT])
    requires { length seats ≡ worker_limit }
    ensures { Does (λ (s : Store). ended seats s) hall.old desk.old hall.new
        desk.new }
{
    let mut i = 0;
    while i < WORKER_LIMIT {
        let seat = seats[i];
        leave(hall, desk, seat);
        i += 1;
    }
}

// A worker's transaction commits, if it has one.
fn leave(hall: &mut [u8], desk: &mut [u8], seat: Seat)
    ensures { Does (λ (s : Store). left s seat) hall.old desk.old hall.new
        desk.new }
{
    if 0 < seat.turns {
        workload_turns::finish(hall, desk, seat.start);
    }
}

// The workload on a new store of the plan's rooms with a desk for each worker; refused if the memories don't hold it.
pub(crate) fn run_plan(hall: &mut [u8], desk: &mut [u8], p: Plan) -> Done
    requires { fits p ≡ true }
    ensures { Ran p hall.old desk.old hall.new desk.new
        (paper_done result) }
{
    let workers = p.writers + p.readers;
    if let Done::Refused(why) = store::make(hall, desk, p.key_rooms, p.version_rooms, workers) {
        return Done::Refused(why);
    }
    let seats = operate(hall, desk, p);
    end(hall, desk, seats);
    Done::Done
}
