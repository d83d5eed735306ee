// Desks: which are taken, by whom, and taking and closing one.
ghost use Rattle.std.specs.Prelude.{◌≡◌, [], ◌∷◌, ◌≤◌, ◌<◌, length, set, replicate, Some};
ghost use Rattle.model.specs.Sizes.{max_desks};
ghost use Rattle.model.specs.State.{free, free_desk, open_desks, cutoff, seat};
ghost use Rattle.memory.specs.Which.{placed};
ghost use Rattle.desk.specs.Layout.{desks_place, needed, occupied_in, desks_in, put_desks};
ghost use Rattle.desk.specs.Shape.{Shaped, desk_in, BitIn, start_of, is_at, desk_of};

use crate::places;
use memory::{Which, numbers, spans};

// So many desks, all free.
pub fn make_desks(m: &mut [u8], n: usize)
    requires { (n ≤ max_desks) × (needed n ≤ length m.old) }
    ensures { m.new ≡ put_desks m.old (replicate n free) }
{
    spans::clear(m, 0, places::desk_place(n));
    m[crate::DESK_COUNT_PLACE] = n as u8;
}

pub fn desk_count(m: &[u8]) -> usize
    requires { Shaped m.now }
    ensures { result ≡ length (desks_in m.now) }
{
    m[crate::DESK_COUNT_PLACE] as usize
}

// Bit d is set where desk d is taken.
pub fn occupied(m: &[u8]) -> u64
    requires { desks_place ≤ length m.now }
    ensures { result ≡ occupied_in m.now }
{
    numbers::read64(m, crate::OCCUPIED_PLACE)
}

pub fn open_desks(m: &[u8]) -> u64
    requires { Shaped m.now }
    ensures { result ≡ open_desks (desks_in m.now) }
{
    u64::count_ones(occupied(m)) as u64
}

// The lowest free desk: the first zero of the occupied bits is the first one of their complement.
pub fn free_desk(m: &[u8]) -> Which
    requires { Shaped m.now }
    ensures { placed result ≡ free_desk (desks_in m.now) }
{
    let d = u64::trailing_zeros(!occupied(m)) as usize;
    if d < desk_count(m) {
        return Which::At(d);
    }
    Which::Nothing
}

// Desk d, the lowest that is free, is taken with this start.
pub fn take_desk(m: &mut [u8], d: usize, start: u64)
    requires { Shaped m.old × (free_desk (desks_in m.old) ≡ Some d) }
    ensures { m.new ≡ put_desks m.old (seat start (desks_in m.old)) }
{
    let bits = occupied(m) | (1u64 << d);
    numbers::write64(m, crate::OCCUPIED_PLACE, bits);
    numbers::write64(m, places::start_place(d), start);
}

// Desk d is free and its bytes are zeros.
pub fn close_desk(m: &mut [u8], d: usize)
    requires { Shaped m.old × (d < length (desks_in m.old)) }
    ensures { m.new ≡ put_desks m.old (set (desks_in m.old) d free) }
{
    let bits = occupied(m) & !(1u64 << d);
    numbers::write64(m, crate::OCCUPIED_PLACE, bits);
    spans::clear(m, places::desk_place(d), crate::DESK_WIDTH);
}

pub fn start_at(m: &[u8], d: usize) -> u64
    requires { Shaped m.now × (d < length (desks_in m.now)) }
    ensures { result ≡ start_of (desk_in m.now d) }
{
    numbers::read64(m, places::start_place(d))
}

// Is desk d, whose bit is the lowest of `bits`, taken with this start?
fn is_at(m: &[u8], bits: u64, d: usize, start: u64) -> bool
    requires { BitIn m.now bits d }
    ensures { result ≡ is_at start (desk_in m.now d) }
{
    if bits % 2 == 0 {
        return false;
    }
    start == start_at(m, d)
}

pub fn desk_of(m: &[u8], start: u64) -> Which
    requires { Shaped m.now }
    ensures { placed result ≡ desk_of start (desks_in m.now) }
{
    let n = desk_count(m);
    let mut bits = occupied(m);
    let mut d = 0;
    while d < n {
        if is_at(m, bits, d, start) {
            return Which::At(d);
        }
        bits = bits / 2;
        d += 1;
    }
    Which::Nothing
}

// The lesser of `least` and the start of desk d, whose bit is the lowest of `bits`.
fn lesser(m: &[u8], bits: u64, d: usize, least: u64) -> u64
    requires { BitIn m.now bits d }
    ensures { result ≡ cutoff least (desk_in m.now d ∷ []) }
{
    if bits % 2 == 0 {
        return least;
    }
    let start = start_at(m, d);
    if start < least {
        return start;
    }
    least
}

// The cutoff: the smallest of `limit` and every open start.
pub fn least_start(m: &[u8], limit: u64) -> u64
    requires { Shaped m.now }
    ensures { result ≡ cutoff limit (desks_in m.now) }
{
    let mut least = limit;
    let n = desk_count(m);
    let mut bits = occupied(m);
    let mut d = 0;
    while d < n {
        least = lesser(m, bits, d, least);
        bits = bits / 2;
        d += 1;
    }
    least
}
