// The two passes of a commit: the writes of known keys, then those of new keys.
ghost use Rattle.std.specs.Prelude.{◌+◌, ◌-◌, set};
ghost use Rattle.hall.specs.Layout.{keys_in, versions_in};
ghost use Rattle.hall.specs.Tables.{end_before};
ghost use Rattle.hall_rows.specs.Held.{Holds};
ghost use Rattle.hall_rows.specs.Runs.{shifted, version_by};
ghost use Rattle.hall_merge.specs.Merge.{Renewable, Enterable, PassingKnown, PassingNew, Renewed, Entered};

use cells::rows::Place;
use hall::{header, keys};

// Puts version row p at the end of its key's older ones, which is before row `end`, and another version in its place.
// Rows `end` up to `top` go up by `up` rows.
fn renew(hall: &mut [u8], p: usize, end: usize, top: usize, up: usize, number: u64, cell: &[u8])
    requires { Renewable hall.old p end top up cell.now }
    ensures { Holds hall.old (keys_in hall.old)
        (set (shifted p (p + 1) (end + (up - 1) - p) (shifted end top up (versions_in hall.old))) p
        (version_by number cell.now)) hall.new }
{
    hall_rows::versions::shift(hall, end, top, up);
    hall_rows::versions::shift(hall, p, p + 1, end + (up - 1) - p);
    hall_rows::versions::put(hall, p, number, cell);
}

// Publishes the writes of known keys: the newest version of each goes to the end of its older ones.
pub fn place_known(hall: &mut [u8], desk: &[u8], d: usize, number: u64, at: &[usize], new: usize)
    requires { PassingKnown hall.old desk.now d at.now new }
    ensures { Renewed hall.old desk.now d number new hall.new }
{
    let count = header::key_count(hall);
    let mut row = count;
    let mut top = header::version_count(hall);
    let mut j = desk_writes::write_count(desk, d);
    let mut up = j;
    hall_rows::versions::grow(hall, j);
    while 0 < j {
        j -= 1;
        if let Place::At(p) = hall_sought::place_at(at, j) {
            let end = count + keys::end_at(hall, p);
            renew(
                hall,
                p,
                end,
                top,
                up,
                number,
                desk_writes::payload_at(desk, d, j),
            );
            hall_rows::keys::raise_ends(hall, p, row, up - new);
            row = p;
            top = end;
            up -= 1;
        }
    }
    hall_rows::versions::shift(hall, count, top, up);
}

// Puts a key and its version in before row p; rows p up to `top` go up by `up` rows.
fn enter(hall: &mut [u8], p: usize, top: usize, up: usize, key: &[u8], number: u64, cell: &[u8])
    requires { Enterable hall.old p top up key.now cell.now }
    ensures { Holds hall.old
        (set (shifted p top up (keys_in hall.old)) (p + (up - 1))
        (record { key = key.now; end = end_before 0 p (keys_in hall.old) }))
        (set (shifted p top up (versions_in hall.old)) (p + (up - 1)) (version_by number cell.now))
        hall.new }
{
    let end = keys::end_before(hall, p);
    hall_rows::keys::shift(hall, p, top, up);
    hall_rows::keys::put(hall, p + (up - 1), key, end);
    hall_rows::versions::shift(hall, p, top, up);
    hall_rows::versions::put(hall, p + (up - 1), number, cell);
}

// Publishes the writes of new keys: each has a key row and a version row of the same number.
pub fn place_new(hall: &mut [u8], desk: &[u8], d: usize, number: u64, at: &[usize], new: usize)
    requires { PassingNew hall.old desk.now d at.now new }
    ensures { Entered hall.old desk.now d number new hall.new }
{
    let mut top = header::key_count(hall);
    let mut up = new;
    hall_rows::keys::grow(hall, new);
    let mut j = desk_writes::write_count(desk, d);
    while 0 < j {
        j -= 1;
        if let Place::Before(p) = hall_sought::place_at(at, j) {
            enter(
                hall,
                p,
                top,
                up,
                desk_writes::key_at(desk, d, j),
                number,
                desk_writes::payload_at(desk, d, j),
            );
            top = p;
            up -= 1;
        }
    }
}
