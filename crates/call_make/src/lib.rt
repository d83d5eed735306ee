// A new store.
#![tactic(auto)]

ghost use Rattle.std.specs.Prelude.{◌≡◌, ◌&&◌};
ghost use Rattle.model.specs.Sound.{sizes_fit};
ghost use Rattle.model.specs.Runs.{make};
ghost use Rattle.answers.specs.Paper.{paper_done};
ghost use Rattle.bridge.specs.Creations.{are_long, CreatedAs};

use answers::{Done, Refusal};

// Are the sizes in range, and both memories long enough for them?
pub fn has_room(hall: &[u8], desk: &[u8], keys: u64, versions: u64, desks: u64) -> bool
    ensures { result ≡ (sizes_fit keys versions desks
        && are_long hall.now desk.now keys versions desks) }
{
    if !hall_shape::sizes_fit(keys, versions, desks) {
        return false;
    }
    if hall.len() < hall::needed_length(keys, versions) {
        return false;
    }
    desk::needed_length(desks) <= desk.len()
}

// An empty hall of these sizes, and so many desks, all free.
pub fn make(hall: &mut [u8], desk: &mut [u8], keys: u64, versions: u64, desks: u64) -> Done
    ensures { CreatedAs hall.old desk.old hall.new desk.new
        (make keys versions desks) (paper_done result) }
{
    if !has_room(hall, desk, keys, versions, desks) {
        return Done::Refused(Refusal::BadSizes);
    }
    hall_head::make_hall(hall, keys, versions, desks);
    desk::desks::make_desks(desk, desks as usize);
    Done::Done
}
