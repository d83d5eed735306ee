// Key rows: more of them, the last ones cut off, a run moved up, one stored, ends set and raised.
ghost use Rattle.std.specs.Prelude.{◌++◌, ◌+◌, ◌≤◌, length, take, set, replicate};
ghost use Rattle.hall.specs.Layout.{keys_in, versions_in, key_rooms_in};
ghost use Rattle.hall.specs.Tables.{Shaped, no_row, row_at, set_end};
ghost use Rattle.hall_rows.specs.Held.{Holds};
ghost use Rattle.hall_rows.specs.Runs.{shifted, raise, raised, Shiftable, KeyStorable, EndStorable, EndsRaisable};

use hall::{header, keys, places};
use memory::{numbers, spans};

// The next n rooms, which hold zeros, become rows.
pub fn grow(m: &mut [u8], n: usize)
    requires { (Shaped m.old) × (length (keys_in m.old) + n ≤ key_rooms_in m.old) }
    ensures { Holds m.old (keys_in m.old ++ replicate n no_row) (versions_in m.old)
        m.new }
{
    let count = header::key_count(m);
    numbers::write32(m, hall::KEY_COUNT_PLACE, (count + n) as u64);
}

// Only the first n rows stay.
pub fn cut(m: &mut [u8], n: usize)
    requires { (Shaped m.old) × (n ≤ length (keys_in m.old)) }
    ensures { Holds m.old (take n (keys_in m.old)) (versions_in m.old)
        m.new }
{
    let count = header::key_count(m);
    if n == count {
        return;
    }
    spans::clear(m, places::row_place(n), places::rows_length(count - n));
    numbers::write32(m, hall::KEY_COUNT_PLACE, n as u64);
}

// Moves rows `from` up to `to` up by `by` rows.
pub fn shift(m: &mut [u8], from: usize, to: usize, by: usize)
    requires { Shiftable m.old (length (keys_in m.old)) from to by }
    ensures { Holds m.old (shifted from to by (keys_in m.old)) (versions_in m.old)
        m.new }
{
    if by == 0 {
        return;
    }
    spans::open_gap(
        m,
        places::row_place(from),
        places::row_place(to),
        places::rows_length(by),
    );
}

// Stores row j.
pub fn put(m: &mut [u8], j: usize, key: &[u8], end: usize)
    requires { KeyStorable m.old j key.now end }
    ensures { Holds m.old
        (set (keys_in m.old) j (record { key = key.now; end = end })) (versions_in m.old)
        m.new }
{
    cells::write_key(m, places::row_place(j), key);
    numbers::write32(m, places::end_place(j), end as u64);
}

// Gives row i this end, if it has another.
pub fn set_end(m: &mut [u8], i: usize, end: usize)
    requires { EndStorable m.old i end }
    ensures { Holds m.old (set_end i end (keys_in m.old)) (versions_in m.old)
        m.new }
{
    if keys::end_at(m, i) == end {
        return;
    }
    numbers::write32(m, places::end_place(i), end as u64);
}

// n more in the end of row i.
fn raise_end(m: &mut [u8], i: usize, n: usize)
    requires { EndStorable m.old i ((row_at i (keys_in m.old)).end + n) }
    ensures { Holds m.old
        (set (keys_in m.old) i (raise n (row_at i (keys_in m.old)))) (versions_in m.old)
        m.new }
{
    let end = keys::end_at(m, i) + n;
    set_end(m, i, end);
}

// n more in the ends of rows `from` up to `to`.
pub fn raise_ends(m: &mut [u8], from: usize, to: usize, n: usize)
    requires { EndsRaisable m.old from to n }
    ensures { Holds m.old (raised from to n (keys_in m.old)) (versions_in m.old)
        m.new }
{
    let mut i = from;
    while i < to {
        raise_end(m, i, n);
        i += 1;
    }
}
