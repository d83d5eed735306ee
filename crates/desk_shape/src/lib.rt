// The form of desk memory, tested; and whether a desk's keys are printable and ascend.
#![tactic(auto)]

ghost use Rattle.std.specs.Prelude.{◌≡◌, [], ◌+◌, ◌*◌, ◌≤◌, ◌<◌, length, get_or};
ghost use Rattle.model.specs.Sizes.{max_writes};
ghost use Rattle.model.specs.Bytes.{part};
ghost use Rattle.model.specs.Sound.{sound_writes};
ghost use Rattle.memory.specs.Rows.{rows};
ghost use Rattle.desk.specs.Layout.{write_width, write_count_place, desk_width, desks_in};
ghost use Rattle.desk.specs.Shape.{Shaped, desk_in, own_writes};
ghost use Rattle.desk_shape.specs.Tests.{row_fits, rows_fit, taken_fits, desk_fits, count_fits, shape_fits};

use cells::rows;
use desk::{
    DESK_COUNT_PLACE, DESK_WIDTH, DESKS_PLACE, PAYLOAD_PLACE, WRITE_COUNT_PLACE, WRITES_PLACE,
    desks, places,
};
use memory::spans;

fn row_fits(m: &[u8], at: usize) -> bool
    requires { at + write_width ≤ length m.now }
    ensures { result ≡ row_fits (part m.now at write_width) }
{
    if cells::is_key_cell(m, at) {
        return cells::is_payload_cell(m, at + PAYLOAD_PLACE);
    }
    false
}

// The n rows from `at`.
fn rows_fit(m: &[u8], at: usize, n: usize) -> bool
    requires { (n ≤ max_writes) × (at + write_width * n ≤ length m.now) }
    ensures { result ≡ rows_fit (rows m.now at write_width n) }
{
    let mut i = 0;
    while i < n {
        if !row_fits(m, at + places::writes_length(i)) {
            return false;
        }
        i += 1;
    }
    true
}

// The taken desk at `at`.
fn taken_fits(m: &[u8], at: usize) -> bool
    requires { at + desk_width ≤ length m.now }
    ensures { result ≡ taken_fits (get_or (part m.now at desk_width) write_count_place 0)
        (part m.now at desk_width) }
{
    let n = m[at + WRITE_COUNT_PLACE] as usize;
    if model::MAX_WRITES < n {
        return false;
    }
    if rows_fit(m, at + WRITES_PLACE, n) {
        let used = WRITES_PLACE + places::writes_length(n);
        return spans::all_zero(spans::piece(m, at + used, DESK_WIDTH - used));
    }
    false
}

// The desk at `at`, whose bit is the lowest of `bits`.
fn desk_fits(m: &[u8], at: usize, bits: u64) -> bool
    requires { at + desk_width ≤ length m.now }
    ensures { result ≡ desk_fits bits (part m.now at desk_width) }
{
    if bits % 2 == 0 {
        return spans::all_zero(spans::piece(m, at, DESK_WIDTH));
    }
    taken_fits(m, at)
}

fn count_fits(m: &[u8]) -> bool
    ensures { result ≡ count_fits m.now }
{
    if m.len() < DESKS_PLACE {
        return false;
    }
    let n = m[DESK_COUNT_PLACE] as usize;
    if m.len() < places::desk_place(n) {
        return false;
    }
    n <= model::MAX_DESKS as usize
}

pub fn is_shaped(m: &[u8]) -> bool
    ensures { result ≡ shape_fits m.now }
{
    if !count_fits(m) {
        return false;
    }
    let n = m[DESK_COUNT_PLACE] as usize;
    let mut bits = desks::occupied(m);
    let mut d = 0;
    while d < n {
        if !desk_fits(m, places::desk_place(d), bits) {
            return false;
        }
        bits = bits / 2;
        d += 1;
    }
    bits == 0
}

// Are the keys of desk d's writes printable, and do they ascend?
pub fn writes_ascend(m: &[u8], d: usize) -> bool
    requires { Shaped m.now × (d < length (desks_in m.now)) }
    ensures { result ≡ sound_writes [] (own_writes (desk_in m.now d)) }
{
    rows::all_follow(
        m,
        places::writes_place(d),
        desk::WRITE_WIDTH,
        desk_writes::write_count(m, d),
    )
}
