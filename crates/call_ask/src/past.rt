// The map as it stood at a number.
ghost use Rattle.std.specs.Prelude.{◌≡◌, []};
ghost use Rattle.model.specs.Calls.{as_of, ask};
ghost use Rattle.answers.specs.Paper.{paper_found};
ghost use Rattle.bridge.specs.Store.{answer_on, bytes_on, outcome_on};
ghost use Rattle.hall_values.specs.Places.{Reading};

use answers::{Found, Refusal};
use bridge::arguments;
use hall::header;
use hall_values::Placed;
use model::Start;

// A refusal, or where the value stands that the key had at the number: what a start of that number would see.
pub fn place(hall: &[u8], number: u64, key: &[u8]) -> Placed
    ensures { Reading hall.now hall.now result
        (outcome_on hall.now [] (ask (as_of number key.now))) }
{
    if !hall_sound::is_sound(hall) {
        return Placed::Refused(Refusal::Unsound);
    }
    if !arguments::key_fits(key) {
        return Placed::Refused(Refusal::BadKey);
    }
    if !compare::is_within(header::floor(hall), header::counter(hall), number) {
        return Placed::Refused(Refusal::OutOfReach);
    }
    hall_values::held(hall_values::seen_in(hall, Start(number), key))
}

// The kind of the version that the key had at the number: a hall value, or nothing there.
pub fn as_of(hall: &[u8], number: u64, key: &[u8]) -> Found
    ensures { paper_found result ≡ answer_on hall.now [] (ask (as_of number key.now)) }
{
    hall_values::found(place(hall, number, key))
}

// Its bytes, a part of hall memory; empty if refused and where nothing is there.
pub fn as_of_bytes<'a>(hall: &'a [u8], number: u64, key: &[u8]) -> &'a [u8]
    ensures { result.now ≡ bytes_on hall.now [] (ask (as_of number key.now)) }
{
    let p = place(hall, number, key);
    hall_values::lent(hall, hall, p)
}
