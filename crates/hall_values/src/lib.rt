// Where the value that a read hands back stands, and what that place answers.
#![tactic(auto)]

ghost use Rattle.std.specs.Prelude.{◌≡◌, ◌<◌, length};
ghost use Rattle.model.specs.State.{content_of};
ghost use Rattle.answers.specs.Paper.{paper_found};
ghost use Rattle.hall.specs.Layout.{versions_in, Sound};
ghost use Rattle.hall.specs.Tables.{Shaped, version_at};
ghost use Rattle.hall_values.specs.Places.{placed_answer, placed_bytes, Inside};
ghost use Rattle.hall_values.specs.Sees.{sees};
ghost use Rattle.hall_values.specs.Stands.{Stands, own_place, held_place};

use answers::{Found, Refusal};
use cells::rows::Place;
use hall::versions;
use memory::spans::Span;
use memory::{Which, spans};
use model::Start;

// A refusal, or where the value stands: place and length in desk memory, or in hall memory.
#[derive(Clone, Copy)]
pub enum Placed {
    Refused(Refusal),
    Own(usize, usize),
    Held(usize, usize),
    Nothing,
}

pub fn own(v: Option<Span>) -> Placed
    ensures { result ≡ own_place v }
{
    match v {
        Some(s) => Placed::Own(s.at, s.len),
        None => Placed::Nothing,
    }
}

pub fn held(v: Option<Span>) -> Placed
    ensures { result ≡ held_place v }
{
    match v {
        Some(s) => Placed::Held(s.at, s.len),
        None => Placed::Nothing,
    }
}

pub fn found(p: Placed) -> Found
    ensures { paper_found result ≡ placed_answer p }
{
    match p {
        Placed::Refused(r) => Found::Refused(r),
        Placed::Own(_, _) => Found::OwnValue,
        Placed::Held(_, _) => Found::HallValue,
        Placed::Nothing => Found::NothingThere,
    }
}

pub fn lent<'a>(hall: &'a [u8], desk: &'a [u8], p: Placed) -> &'a [u8]
    requires { Inside hall.now desk.now p }
    ensures { result.now ≡ placed_bytes hall.now desk.now p }
{
    match p {
        Placed::Refused(_) => spans::piece(hall, 0, 0),
        Placed::Own(at, len) => spans::piece(desk, at, len),
        Placed::Held(at, len) => spans::piece(hall, at, len),
        Placed::Nothing => spans::piece(hall, 0, 0),
    }
}

// Where the value of version j stands.
pub fn version_value(hall: &[u8], j: usize) -> Option<Span>
    requires { Shaped hall.now × (j < length (versions_in hall.now)) }
    ensures { Stands hall.now result
        (content_of (version_at j (versions_in hall.now)).payload) }
{
    cells::value_in(hall, versions::payload_place(hall, j))
}

// Where the value stands that the transaction sees in a sound hall.
pub fn seen_in(hall: &[u8], start: Start, key: &[u8]) -> Option<Span>
    requires { Sound hall.now }
    ensures { Stands hall.now result (sees hall.now start.0 key.now) }
{
    match hall::keys::seek(hall, key) {
        Place::At(i) => match versions::visible_of(hall, i, start) {
            Which::At(j) => version_value(hall, j),
            Which::Nothing => None,
        },
        Place::Before(_) => None,
    }
}
