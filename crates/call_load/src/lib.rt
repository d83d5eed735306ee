// A store from a dump.
#![tactic(auto)]

ghost use Rattle.std.specs.Prelude.{◌≡◌};
ghost use Rattle.model.specs.Calls.{faulty};
ghost use Rattle.model.specs.Runs.{load};
ghost use Rattle.dump_fields.specs.Machine.{fault_number};
ghost use Rattle.answers.specs.Paper.{paper_loaded};
ghost use Rattle.bridge.specs.Creations.{CreatedAs};

use answers::{Loaded, Refusal};
use dump_check::Faulty;
use dump_fields::machine::Fault;

fn faulty(f: Fault, at: usize) -> Loaded
    ensures { paper_loaded result ≡ faulty (fault_number f) at }
{
    match f {
        Fault::CutShort => Loaded::CutShort(at),
        Fault::Malformed => Loaded::Malformed(at),
        Fault::TooBig => Loaded::TooBig(at),
    }
}

// The whole dump is checked first; a dump that is refused leaves both memories as they were.
pub fn load(
    dump: &[u8],
    hall: &mut [u8],
    desk: &mut [u8],
    keys: u64,
    versions: u64,
    desks: u64,
) -> Loaded
    ensures { CreatedAs hall.old desk.old hall.new desk.new
        (load dump.now keys versions desks) (paper_loaded result) }
{
    if !call_make::has_room(hall, desk, keys, versions, desks) {
        return Loaded::Refused(Refusal::BadSizes);
    }
    match dump_check::check_dump(dump, keys, versions) {
        Ok(()) => {
            hall_fill::fill(dump, hall, keys, versions, desks);
            desk::desks::make_desks(desk, desks as usize);
            Loaded::Done
        }
        Err(Faulty { fault, at }) => faulty(fault, at),
    }
}
