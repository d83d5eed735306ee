// Version rows, read by their places, and which version of a key row is seen.
ghost use Rattle.std.specs.Prelude.{◌≡◌, ◌-◌, ◌≤◌, ◌<◌, leb, length};
ghost use Rattle.memory.specs.Which.{placed};
ghost use Rattle.hall.specs.Layout.{version_place, payload_place, key_rooms_in, keys_in, versions_in, Sound};
ghost use Rattle.hall.specs.Tables.{Shaped, version_at};
ghost use Rattle.hall.specs.Seen.{RunIn, seen_from, seen_of};

use crate::{header, keys, places};
use memory::{Which, numbers};
use model::{Commit, Start};

// Where row j begins.
pub fn place(m: &[u8], j: usize) -> usize
    requires { (Shaped m.now) × (j ≤ length (versions_in m.now)) }
    ensures { result ≡ version_place (key_rooms_in m.now) j }
{
    places::version_place(header::key_rooms(m), j)
}

// Where its payload begins.
pub fn payload_place(m: &[u8], j: usize) -> usize
    requires { (Shaped m.now) × (j < length (versions_in m.now)) }
    ensures { result ≡ payload_place (key_rooms_in m.now) j }
{
    places::payload_place(header::key_rooms(m), j)
}

pub fn number_at(m: &[u8], j: usize) -> u64
    requires { (Shaped m.now) × (j < length (versions_in m.now)) }
    ensures { result ≡ (version_at j (versions_in m.now)).number }
{
    numbers::read64(m, place(m, j))
}

// Does the transaction see version j?
pub fn is_seen(m: &[u8], j: usize, start: Start) -> bool
    requires { (Shaped m.now) × (j < length (versions_in m.now)) }
    ensures { result ≡ leb (version_at j (versions_in m.now)).number start.0 }
{
    let number = number_at(m, j);
    compare::sees(start, Commit(number))
}

// The last of the versions from `from` up to `to` that the transaction sees.
fn seen_between(m: &[u8], from: usize, to: usize, start: Start) -> Which
    requires { RunIn m.now from to }
    ensures { placed result ≡ seen_from start.0 from (to - from) (versions_in m.now) }
{
    let mut j = to;
    while from < j {
        j -= 1;
        if is_seen(m, j, start) {
            return Which::At(j);
        }
    }
    Which::Nothing
}

// The newest version of key row i that the transaction sees.
pub fn visible_of(m: &[u8], i: usize, start: Start) -> Which
    requires { (Sound m.now) × (i < length (keys_in m.now)) }
    ensures { placed result ≡ seen_of start.0 i (keys_in m.now) (versions_in m.now) }
{
    if is_seen(m, i, start) {
        return Which::At(i);
    }
    let n = header::key_count(m);
    seen_between(m, n + keys::end_before(m, i), n + keys::end_at(m, i), start)
}
