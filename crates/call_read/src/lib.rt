// What a transaction reads: its own write, else the newest version that it sees.
#![tactic(auto)]

ghost use Rattle.std.specs.Prelude.{◌≡◌};
ghost use Rattle.model.specs.State.{find};
ghost use Rattle.model.specs.Calls.{read, on, read_outcome};
ghost use Rattle.answers.specs.Paper.{paper_found};
ghost use Rattle.desk.specs.Shape.{desk_in, own_writes};
ghost use Rattle.bridge.specs.Store as memories;
ghost use Rattle.bridge.specs.Store.{answer_on, bytes_on, outcome_on};
ghost use Rattle.hall_values.specs.Places.{Reading};
ghost use Rattle.hall_values.specs.Sees.{sees};
ghost use Rattle.call_read.specs.Desks.{Readable};

use answers::{Found, Refusal};
use bridge::{arguments, memories};
use cells::rows::Place;
use desk::desks;
use hall_values::Placed;
use memory::Which;
use model::Start;

// Where the value stands for the transaction at desk d.
fn place_at(hall: &[u8], desk: &[u8], d: usize, start: Start, key: &[u8]) -> Placed
    requires { Readable hall.now desk.now d }
    ensures { Reading hall.now desk.now result
        (read_outcome (find key.now (own_writes (desk_in desk.now d)))
        (sees hall.now start.0 key.now)) }
{
    match desk_writes::own_write(desk, d, key) {
        Place::At(i) => hall_values::own(desk_writes::value_at(desk, d, i)),
        Place::Before(_) => hall_values::held(hall_values::seen_in(hall, start, key)),
    }
}

// The inner form of both reads: where the value stands in sound memories.
pub fn place_in(hall: &[u8], desk: &[u8], start: Start, key: &[u8]) -> Placed
    requires { memories.Sound hall.now desk.now }
    ensures { Reading hall.now desk.now result
        (outcome_on hall.now desk.now (on start.0 (read key.now))) }
{
    if !arguments::key_fits(key) {
        return Placed::Refused(Refusal::BadKey);
    }
    match desks::desk_of(desk, start.0) {
        Which::At(d) => place_at(hall, desk, d, start, key),
        Which::Nothing => Placed::Refused(Refusal::NotOpen),
    }
}

// The same in any memories.
pub fn place(hall: &[u8], desk: &[u8], start: Start, key: &[u8]) -> Placed
    ensures { Reading hall.now desk.now result
        (outcome_on hall.now desk.now (on start.0 (read key.now))) }
{
    if !memories::are_sound(hall, desk) {
        return Placed::Refused(Refusal::Unsound);
    }
    place_in(hall, desk, start, key)
}

// The kind of the value that the transaction reads.
pub fn read(hall: &[u8], desk: &[u8], start: Start, key: &[u8]) -> Found
    ensures { paper_found result ≡ answer_on hall.now desk.now
        (on start.0 (read key.now)) }
{
    hall_values::found(place(hall, desk, start, key))
}

// Its bytes, a part of the memory that holds them; empty if refused and where nothing is there.
pub fn read_bytes<'a>(hall: &'a [u8], desk: &'a [u8], start: Start, key: &[u8]) -> &'a [u8]
    ensures { result.now ≡ bytes_on hall.now desk.now
        (on start.0 (read key.now)) }
{
    let p = place(hall, desk, start, key);
    hall_values::lent(hall, desk, p)
}
