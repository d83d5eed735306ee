// Key rows, read by their places, and where a key stands.
ghost use Rattle.std.specs.Prelude.{◌≡◌, ◌≤◌, ◌<◌, length};
ghost use Rattle.cells.specs.Rows.{place_of};
ghost use Rattle.hall.specs.Layout.{keys_in, Sound};
ghost use Rattle.hall.specs.Tables.{Shaped, row_at, row_keys, end_before};

use crate::{header, places};
use cells::rows;
use cells::rows::Place;
use memory::numbers;

pub fn key_at(m: &[u8], i: usize) -> &[u8]
    requires { (Shaped m.now) × (i < length (keys_in m.now)) }
    ensures { result.now ≡ (row_at i (keys_in m.now)).key }
{
    cells::key_in(m, places::row_place(i))
}

pub fn end_at(m: &[u8], i: usize) -> usize
    requires { (Shaped m.now) × (i < length (keys_in m.now)) }
    ensures { result ≡ (row_at i (keys_in m.now)).end }
{
    numbers::read32(m, places::end_place(i)) as usize
}

pub fn end_before(m: &[u8], i: usize) -> usize
    requires { (Shaped m.now) × (i ≤ length (keys_in m.now)) }
    ensures { result ≡ end_before 0 i (keys_in m.now) }
{
    if i == 0 {
        return 0;
    }
    end_at(m, i - 1)
}

pub fn seek(m: &[u8], key: &[u8]) -> Place
    requires { Sound m.now }
    ensures { result ≡ place_of key.now 0 (row_keys (keys_in m.now)) }
{
    rows::seek(
        m,
        crate::HEAD_SIZE,
        crate::ROW_WIDTH,
        header::key_count(m),
        key,
    )
}
