// Version rows: more of them, the last ones cut off, a run moved up, one stored.
ghost use Rattle.std.specs.Prelude.{◌++◌, ◌+◌, ◌≤◌, length, take, set, replicate};
ghost use Rattle.hall.specs.Layout.{keys_in, versions_in, version_rooms_in};
ghost use Rattle.hall.specs.Tables.{Shaped, no_version};
ghost use Rattle.hall_rows.specs.Held.{Holds};
ghost use Rattle.hall_rows.specs.Runs.{shifted, version_by, Shiftable, VersionStorable};

use hall::{header, places, versions};
use memory::{numbers, spans};

// The next n rooms, which hold zeros, become rows.
pub fn grow(m: &mut [u8], n: usize)
    requires { (Shaped m.old) × (length (versions_in m.old) + n ≤ version_rooms_in m.old) }
    ensures { Holds m.old (keys_in m.old)
        (versions_in m.old ++ replicate n no_version) m.new }
{
    let count = header::version_count(m);
    numbers::write32(m, hall::VERSION_COUNT_PLACE, (count + n) as u64);
}

// Only the first n rows stay.
pub fn cut(m: &mut [u8], n: usize)
    requires { (Shaped m.old) × (n ≤ length (versions_in m.old)) }
    ensures { Holds m.old (keys_in m.old) (take n (versions_in m.old))
        m.new }
{
    let count = header::version_count(m);
    if n == count {
        return;
    }
    let at = versions::place(m, n);
    spans::clear(m, at, places::versions_length(count - n));
    numbers::write32(m, hall::VERSION_COUNT_PLACE, n as u64);
}

// Moves rows `from` up to `to` up by `by` rows.
pub fn shift(m: &mut [u8], from: usize, to: usize, by: usize)
    requires { Shiftable m.old (length (versions_in m.old)) from to by }
    ensures { Holds m.old (keys_in m.old) (shifted from to by (versions_in m.old))
        m.new }
{
    if by == 0 {
        return;
    }
    let at = versions::place(m, from);
    let end = versions::place(m, to);
    spans::open_gap(m, at, end, places::versions_length(by));
}

// Stores a version in row j; its payload is the one in `cell`.
pub fn put(m: &mut [u8], j: usize, number: u64, cell: &[u8])
    requires { VersionStorable m.old j cell.now }
    ensures { Holds m.old (keys_in m.old)
        (set (versions_in m.old) j (version_by number cell.now)) m.new }
{
    let at = versions::place(m, j);
    numbers::write64(m, at, number);
    spans::copy_in(cell, m, at + hall::PAYLOAD_PLACE);
}
