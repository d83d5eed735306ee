// The sweeps: up to a cutoff, versions that nobody needs go, and the past is no longer told.
#![tactic(auto)]

ghost use Rattle.model.specs.Calls.{sweep, thin};
ghost use Rattle.answers.specs.Paper.{paper_swept, paper_thinned};
ghost use Rattle.bridge.specs.Store.{Sound};
ghost use Rattle.bridge.specs.Clauses.{HallCalled};
ghost use Rattle.call_sweep.specs.Trims.{Trimmable, Trims};

use answers::{Refusal, Swept, Thinned};
use bridge::memories;
use desk::{desks, starts};
use hall::header;

// Sweeps up to the cutoff, sparing these starts; all is clear up to `clear`. Answers how many versions were dropped.
fn trim_to(hall: &mut [u8], cutoff: u64, clear: u64, starts: &[u64]) -> usize
    requires { Trimmable hall.old cutoff clear starts.now }
    ensures { Trims hall.old cutoff starts.now hall.new result }
{
    let versions = header::version_count(hall);
    hall_head::raise_floor(hall, cutoff);
    let left = hall_sweep::sweep_to(hall, cutoff, clear, starts);
    versions - left
}

// No start is below the cutoff, so none is to be spared.
pub fn sweep_in(hall: &mut [u8], desk: &[u8], limit: u64) -> Swept
    requires { Sound hall.old desk.now }
    ensures { HallCalled hall.old desk.now hall.new (sweep limit)
        (paper_swept result) }
{
    let cutoff = desks::least_start(desk, arithmetic::lesser(limit, header::counter(hall)));
    let none = [0u64; 0];
    let dropped = trim_to(hall, cutoff, cutoff, &none);
    Swept::At(cutoff, dropped as u64)
}

pub fn sweep(hall: &mut [u8], desk: &[u8], limit: u64) -> Swept
    ensures { HallCalled hall.old desk.now hall.new (sweep limit)
        (paper_swept result) }
{
    if !memories::are_sound(hall, desk) {
        return Swept::Refused(Refusal::Unsound);
    }
    sweep_in(hall, desk, limit)
}

pub fn thin_in(hall: &mut [u8], desk: &[u8], limit: u64) -> Thinned
    requires { Sound hall.old desk.now }
    ensures { HallCalled hall.old desk.now hall.new (thin limit)
        (paper_thinned result) }
{
    let cutoff = arithmetic::lesser(limit, header::counter(hall));
    let clear = desks::least_start(desk, cutoff);
    let mut starts = [0u64; model::MAX_DESKS as usize];
    let n = starts::gather(desk, &mut starts);
    let dropped = trim_to(hall, cutoff, clear, &starts[..n]);
    Thinned::Dropped(dropped as u64)
}

pub fn thin(hall: &mut [u8], desk: &[u8], limit: u64) -> Thinned
    ensures { HallCalled hall.old desk.now hall.new (thin limit)
        (paper_thinned result) }
{
    if !memories::are_sound(hall, desk) {
        return Thinned::Refused(Refusal::Unsound);
    }
    thin_in(hall, desk, limit)
}
