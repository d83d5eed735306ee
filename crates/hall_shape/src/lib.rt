// The shape of hall memory: sizes, counts, cells, and zeros where nothing stands.
#![tactic(auto)]

ghost use Rattle.std.specs.Prelude.{◌≡◌, ◌≤◌, length};
ghost use Rattle.model.specs.Sound.{every, sizes_fit};
ghost use Rattle.memory.specs.Tests.{all_below};
ghost use Rattle.hall.specs.Layout.{head_size, key_count_in, version_count_in};
ghost use Rattle.hall_shape.specs.Tests.{zero_between, head_tests, Fits, key_test, payload_test, rest_tests, shape_tests};

use hall::{header, places};
use memory::spans;

pub fn sizes_fit(keys: u64, versions: u64, desks: u64) -> bool
    ensures { result ≡ sizes_fit keys versions desks }
{
    if !compare::is_within(1, model::MAX_KEY_ROOMS, keys) {
        return false;
    }
    if !compare::is_within(1, model::MAX_VERSION_ROOMS, versions) {
        return false;
    }
    compare::is_within(1, model::MAX_DESKS, desks)
}

fn zero_between(m: &[u8], from: usize, to: usize) -> bool
    requires { (from ≤ to) × (to ≤ length m.now) }
    ensures { result ≡ zero_between m.now from to }
{
    spans::all_zero(spans::piece(m, from, to - from))
}

fn head_fits(m: &[u8]) -> bool
    requires { head_size ≤ length m.now }
    ensures { result ≡ every (head_tests m.now) }
{
    let h = header::read(m);
    if !sizes_fit(
        h.key_rooms as u64,
        h.version_rooms as u64,
        h.desk_count as u64,
    ) {
        return false;
    }
    if model::LAST_NUMBER < h.counter {
        return false;
    }
    if h.key_rooms < h.key_count {
        return false;
    }
    if h.version_rooms < h.version_count {
        return false;
    }
    if m.len() < hall::needed_length(h.key_rooms as u64, h.version_rooms as u64) {
        return false;
    }
    if !zero_between(m, hall::SPARE_PLACE, hall::HEAD_SIZE) {
        return false;
    }
    if h.counter < h.floor {
        return false;
    }
    true
}

fn keys_fit(m: &[u8]) -> bool
    requires { Fits m.now }
    ensures { result ≡ all_below (key_count_in m.now) (key_test m.now) }
{
    let n = header::read(m).key_count;
    let mut i = 0;
    while i < n {
        if !cells::is_key_cell(m, places::row_place(i)) {
            return false;
        }
        i += 1;
    }
    true
}

fn payloads_fit(m: &[u8]) -> bool
    requires { Fits m.now }
    ensures { result ≡ all_below (version_count_in m.now) (payload_test m.now) }
{
    let h = header::read(m);
    let rooms = h.key_rooms;
    let n = h.version_count;
    let mut j = 0;
    while j < n {
        if !cells::is_payload_cell(m, places::payload_place(rooms, j)) {
            return false;
        }
        j += 1;
    }
    true
}

// Zeros where no row stands.
fn rests_fit(m: &[u8]) -> bool
    requires { Fits m.now }
    ensures { result ≡ every (rest_tests m.now) }
{
    let h = header::read(m);
    if !zero_between(
        m,
        places::row_place(h.key_count),
        places::version_base(h.key_rooms),
    ) {
        return false;
    }
    let used = places::version_place(h.key_rooms, h.version_count);
    let end = places::version_place(h.key_rooms, h.version_rooms);
    if !zero_between(m, used, end) {
        return false;
    }
    true
}

pub fn is_shaped(m: &[u8]) -> bool
    ensures { result ≡ every (shape_tests m.now) }
{
    if m.len() < hall::HEAD_SIZE {
        return false;
    }
    if !head_fits(m) {
        return false;
    }
    if !keys_fit(m) {
        return false;
    }
    if !payloads_fit(m) {
        return false;
    }
    if !rests_fit(m) {
        return false;
    }
    true
}
