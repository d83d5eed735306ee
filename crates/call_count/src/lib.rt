// How much the store holds.
#![tactic(auto)]

ghost use Rattle.std.specs.Prelude.{◌≡◌};
ghost use Rattle.model.specs.Calls.{counts, ask};
ghost use Rattle.answers.specs.Paper.{paper_counted};
ghost use Rattle.bridge.specs.Store.{answer_on, Sound};

use answers::{Counted, Refusal};
use bridge::memories;
use desk::desks;
use hall::header;

pub fn counts_in(hall: &[u8], desk: &[u8]) -> Counted
    requires { Sound hall.now desk.now }
    ensures { paper_counted result ≡ answer_on hall.now desk.now (ask counts) }
{
    let keys = header::key_count(hall);
    let versions = header::version_count(hall);
    Counted::Held(keys as u64, versions as u64, desks::open_desks(desk))
}

pub fn counts(hall: &[u8], desk: &[u8]) -> Counted
    ensures { paper_counted result ≡ answer_on hall.now desk.now (ask counts) }
{
    if !memories::are_sound(hall, desk) {
        return Counted::Refused(Refusal::Unsound);
    }
    counts_in(hall, desk)
}
