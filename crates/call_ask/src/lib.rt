// Asked outside any transaction, over hall memory alone: a key's newest version, and the version it had at a number.
#![tactic(auto)]

pub mod past;

ghost use Rattle.std.specs.Prelude.{◌≡◌, []};
ghost use Rattle.model.specs.State.{look, newest_of, value_of};
ghost use Rattle.model.specs.Calls.{newest, ask};
ghost use Rattle.answers.specs.Paper.{paper_found};
ghost use Rattle.hall.specs.Layout.{hall_in, Sound};
ghost use Rattle.bridge.specs.Store.{answer_on, bytes_on, outcome_on};
ghost use Rattle.hall_values.specs.Places.{Reading};
ghost use Rattle.hall_values.specs.Stands.{Stands};

use answers::{Found, Refusal};
use bridge::arguments;
use cells::rows::Place;
use hall_values::Placed;
use memory::spans::Span;

// Where the key's newest value stands in sound hall memory.
pub fn newest_value(hall: &[u8], key: &[u8]) -> Option<Span>
    requires { Sound hall.now }
    ensures { Stands hall.now result
        (value_of (newest_of (look key.now (hall_in hall.now).entries))) }
{
    match hall::keys::seek(hall, key) {
        Place::At(i) => {
            return hall_values::version_value(hall, i);
        }
        Place::Before(i) => {
            return None;
        }
    }
}

// A refusal, or where the value stands; of the two memories of a read only the hall is asked.
pub fn place(hall: &[u8], key: &[u8]) -> Placed
    ensures { Reading hall.now hall.now result
        (outcome_on hall.now [] (ask (newest key.now))) }
{
    if !hall_sound::is_sound(hall) {
        return Placed::Refused(Refusal::Unsound);
    }
    if !arguments::key_fits(key) {
        return Placed::Refused(Refusal::BadKey);
    }
    hall_values::held(newest_value(hall, key))
}

// The kind of the key's newest version: a hall value, or nothing there.
pub fn newest(hall: &[u8], key: &[u8]) -> Found
    ensures { paper_found result ≡ answer_on hall.now [] (ask (newest key.now)) }
{
    hall_values::found(place(hall, key))
}

// Its bytes, a part of hall memory; empty if refused and where nothing is there.
pub fn newest_bytes<'a>(hall: &'a [u8], key: &[u8]) -> &'a [u8]
    ensures { result.now ≡ bytes_on hall.now [] (ask (newest key.now)) }
{
    let p = place(hall, key);
    hall_values::lent(hall, hall, p)
}
