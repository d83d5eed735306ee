// The writes of a desk, in the order of their keys.
#![tactic(auto)]

ghost use Rattle.std.specs.Prelude.{◌≡◌, ◌≤◌, ◌<◌, length};
ghost use Rattle.model.specs.Sizes.{max_value};
ghost use Rattle.model.specs.State.{content, content_of, written_keys, put_write};
ghost use Rattle.memory.specs.Rows.{insert_at};
ghost use Rattle.cells.specs.Cells.{payload_bytes};
ghost use Rattle.cells.specs.Rows.{place_of};
ghost use Rattle.cells.specs.Values.{bytes_at, Inside};
ghost use Rattle.desk.specs.Layout.{desks_in, put_desks};
ghost use Rattle.desk.specs.Shape.{Shaped, desk_in, own_writes};
ghost use Rattle.desk_writes.specs.Writes.{write_in, rewritten, overwritten, deletion_of, value_of, ending, Written, Ordered, Changeable, Insertable, Writable, Appendable, Appended, Deleted};

use cells::rows::Place;
use cells::{PAYLOAD_WIDTH, rows};
use desk::places;
use memory::spans;
use memory::spans::Span;

pub fn write_count(m: &[u8], d: usize) -> usize
    requires { Shaped m.now × (d < length (desks_in m.now)) }
    ensures { result ≡ length (own_writes (desk_in m.now d)) }
{
    m[places::write_count_place(d)] as usize
}

// The key of write i of desk d.
pub fn key_at(m: &[u8], d: usize, i: usize) -> &[u8]
    requires { Written m.now d i }
    ensures { result.now ≡ (write_in m.now d i).key }
{
    cells::key_in(m, places::write_place(d, i))
}

// The cell of its payload.
pub fn payload_at(m: &[u8], d: usize, i: usize) -> &[u8]
    requires { Written m.now d i }
    ensures { result.now ≡ payload_bytes (write_in m.now d i).payload }
{
    spans::piece(m, places::payload_place(d, i), PAYLOAD_WIDTH)
}

// Where its value stands.
pub fn value_at(m: &[u8], d: usize, i: usize) -> Option<Span>
    requires { Written m.now d i }
    ensures { (bytes_at m.now result ≡ content_of (write_in m.now d i).payload)
        × Inside m.now result }
{
    cells::value_in(m, places::payload_place(d, i))
}

// Where the key stands among the writes of desk d.
pub fn own_write(m: &[u8], d: usize, key: &[u8]) -> Place
    requires { Ordered m.now × (d < length (desks_in m.now)) }
    ensures { result ≡ place_of key.now 0 (written_keys (own_writes (desk_in m.now d))) }
{
    rows::seek(
        m,
        places::writes_place(d),
        desk::WRITE_WIDTH,
        write_count(m, d),
        key,
    )
}

// A value over the payload of write i.
fn set_value(m: &mut [u8], d: usize, i: usize, val: &[u8])
    requires { Changeable m.old d i × (length val.now ≤ max_value) }
    ensures { m.new ≡ put_desks m.old
        (rewritten d (overwritten i (content val.now)) (desks_in m.old)) }
{
    cells::write_value(m, places::payload_place(d, i), val);
}

// A deletion of the key, put in before row i.
fn insert_deletion(m: &mut [u8], d: usize, i: usize, key: &[u8])
    requires { Insertable m.old d i key.now }
    ensures { m.new ≡ put_desks m.old
        (rewritten d (insert_at i (deletion_of key.now)) (desks_in m.old)) }
{
    let n = write_count(m, d);
    let at = places::write_place(d, i);
    spans::open_gap(m, at, places::write_place(d, n), desk::WRITE_WIDTH);
    cells::write_key(m, at, key);
    cells::write_deletion(m, places::payload_place(d, i));
    m[places::write_count_place(d)] = (n + 1) as u8;
}

// A deletion behind the writes of desk d; the row where it stands.
pub fn append_deletion(m: &mut [u8], d: usize, key: &[u8]) -> usize
    requires { Appendable m.old d key.now }
    ensures { Appended m.old d (deletion_of key.now) result m.new }
{
    let n = write_count(m, d);
    insert_deletion(m, d, n, key);
    n
}

// A value behind them.
pub fn append_value(m: &mut [u8], d: usize, key: &[u8], val: &[u8])
    requires { Appendable m.old d key.now × (length val.now ≤ max_value) }
    ensures { m.new ≡ put_desks m.old
        (rewritten d (ending (value_of key.now val.now)) (desks_in m.old)) }
{
    let i = append_deletion(m, d, key);
    set_value(m, d, i, val);
}

// A deletion among the writes of desk d; the row where it stands.
pub fn delete_write(m: &mut [u8], d: usize, key: &[u8]) -> usize
    requires { Writable m.old d key.now }
    ensures { Deleted m.old d key.now result m.new }
{
    match own_write(m, d, key) {
        Place::At(i) => {
            cells::write_deletion(m, places::payload_place(d, i));
            i
        }
        Place::Before(i) => {
            insert_deletion(m, d, i, key);
            i
        }
    }
}

// A value among the writes of desk d.
pub fn put_write(m: &mut [u8], d: usize, key: &[u8], val: &[u8])
    requires { Writable m.old d key.now × (length val.now ≤ max_value) }
    ensures { m.new ≡ put_desks m.old
        (rewritten d (put_write key.now (content val.now)) (desks_in m.old)) }
{
    let i = delete_write(m, d, key);
    set_value(m, d, i, val);
}
