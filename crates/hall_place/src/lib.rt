// Where each field of a dump goes in hall memory, and a field stored there.
#![tactic(auto)]

ghost use Rattle.std.specs.Prelude.{◌≡◌, ◌+◌, ◌^◌, ◌≤◌};
ghost use Rattle.model.specs.Sizes.{max_key_rooms, max_version_rooms, count_width};
ghost use Rattle.model.specs.Bytes.{bytes};
ghost use Rattle.hall.specs.Layout.{version_base, needed};
ghost use Rattle.hall_place.specs.Placing.{fit_sets, up, rows_by, end_of, version_row, target_at, Placeable, target_of, stored};

use dump_fields::machine::{Loader, Phase};
use hall::places;
use memory::{numbers, spans};

// The rows that are begun.
#[derive(Clone, Copy, Debug, PartialEq, Eq)]
pub struct Rows {
    pub keys: u64,
    pub versions: u64,
}

// Where a field goes.
#[derive(Clone, Copy, Debug, PartialEq, Eq)]
pub enum Target {
    Nowhere,
    Field(usize),
    // how many older versions there are so far, and not the field
    End(usize),
}

// Where a version row's tag, its value's length and its value stand.
const TAG_PLACE: usize = hall::PAYLOAD_PLACE;

const LENGTH_PLACE: usize = TAG_PLACE + cells::LENGTH_PLACE;

const VALUE_PLACE: usize = TAG_PLACE + cells::VALUE_PLACE;

// One more than any number in a count's field.
const COUNT_LIMIT: u64 = 4294967296;

// One row more, up to the most that there are.
fn up(top: u64, i: u64) -> u64
    ensures { result ≡ up top i }
{
    if i < top { i + 1 } else { i }
}

// A row begins with its first field.
pub fn rows_by(p: Phase, g: Rows) -> Rows
    ensures { result ≡ rows_by p g }
{
    match p {
        Phase::KeyLength => Rows {
            keys: up(model::MAX_KEY_ROOMS, g.keys),
            ..g
        },
        Phase::Number => Rows {
            versions: up(model::MAX_VERSION_ROOMS, g.versions),
            ..g
        },
        Phase::Magic
        | Phase::Next
        | Phase::Count
        | Phase::Key(_)
        | Phase::VersionCount
        | Phase::Tag
        | Phase::ValueLength
        | Phase::Value(_)
        | Phase::End => g,
    }
}

// How many older versions there are with those of a key that has n.
pub fn end_of(g: Rows, n: u64) -> u64
    requires { g.versions ≤ max_version_rooms }
    ensures { result ≡ end_of g n }
{
    (g.versions + n % COUNT_LIMIT).saturating_sub(g.keys)
}

// The version row that was begun last: a key's newest version has the key's own, the older ones come after those.
fn version_row(s: Loader, g: Rows) -> u64
    requires { g.versions ≤ max_version_rooms }
    ensures { result ≡ version_row s g }
{
    if s.versions == 0 {
        g.keys.saturating_sub(1)
    } else {
        s.keys % COUNT_LIMIT + g.versions
    }
}

// Where the key row stands at k and the version row at v.
fn target_at(p: Phase, k: usize, v: usize) -> Target
    requires { (k ≤ version_base max_key_rooms) × (v ≤ needed max_key_rooms (256 ^ count_width + max_version_rooms)) }
    ensures { result ≡ target_at p k v }
{
    match p {
        Phase::Magic | Phase::Next | Phase::Count | Phase::End => Target::Nowhere,
        Phase::KeyLength => Target::Field(k),
        Phase::Key(_) => Target::Field(k + cells::KEY_PLACE),
        Phase::VersionCount => Target::End(k + hall::END_PLACE),
        Phase::Number => Target::Field(v),
        Phase::Tag => Target::Field(v + TAG_PLACE),
        Phase::ValueLength => Target::Field(v + LENGTH_PLACE),
        Phase::Value(_) => Target::Field(v + VALUE_PLACE),
    }
}

// Among the rows begun last. After the field s is known.
pub fn target_of(key_rooms: usize, p: Phase, s: Loader, g: Rows) -> Target
    requires { Placeable key_rooms g }
    ensures { result ≡ target_of key_rooms p s g }
{
    let row = g.keys.saturating_sub(1) as usize;
    let version = version_row(s, g) as usize;
    target_at(
        p,
        places::row_place(row),
        places::version_place(key_rooms, version),
    )
}

// Copies src in, where it fits.
fn put_in(m: &mut [u8], at: usize, src: &[u8])
    ensures { m.new ≡ fit_sets m.old at src.now }
{
    if at <= m.len() && src.len() <= m.len() - at {
        spans::copy_in(src, m, at);
    }
}

// The four lowest bytes of v, where they fit.
fn put_count(m: &mut [u8], at: usize, v: u64)
    ensures { m.new ≡ fit_sets m.old at (bytes count_width v) }
{
    if at <= m.len() && model::COUNT_WIDTH <= m.len() - at {
        numbers::write32(m, at, v);
    }
}

pub fn store(m: &mut [u8], t: Target, end: u64, field: &[u8])
    ensures { m.new ≡ stored t end m.old field.now }
{
    match t {
        Target::Nowhere => {}
        Target::Field(at) => put_in(m, at, field),
        Target::End(at) => put_count(m, at, end),
    }
}
