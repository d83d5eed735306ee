// Is a memory a sound desk memory beside a sound hall memory? First its form, then each open desk beside the counter
// and the later desks, then all open starts beside the versions' numbers.
#![tactic(auto)]

ghost use Rattle.std.specs.Prelude.{◌≡◌, ◌+◌, drop};
ghost use Rattle.model.specs.Sound.{every, sound_open};
ghost use Rattle.hall.specs.Layout.{hall_in, Sound};
ghost use Rattle.desk.specs.Layout.{desks_in, is_sound};
ghost use Rattle.desk.specs.Shape.{Shaped, desk_in};
ghost use Rattle.desk_sound.specs.Tests.{DeskAt, open_tests, desk_test, desks_test};

use desk::desks;
use hall::header;

// The open desk d. The bits are those of the desks from it on.
fn open_fits(hall: &[u8], desk: &[u8], bits: u64, d: usize) -> bool
    requires { DeskAt hall.now desk.now bits d }
    ensures { result ≡ every (open_tests (hall_in hall.now) (desk_in desk.now d)
        (drop (d + 1) (desks_in desk.now))) }
{
    let start = desks::start_at(desk, d);
    if start < 1 {
        return false;
    }
    if header::counter(hall) < start {
        return false;
    }
    if desk_starts::is_start_from(desk, bits / 2, d + 1, start) {
        return false;
    }
    if !desk_shape::writes_ascend(desk, d) {
        return false;
    }
    true
}

// Desk d. The bits are those of the desks from it on.
fn desk_fits(hall: &[u8], desk: &[u8], bits: u64, d: usize) -> bool
    requires { DeskAt hall.now desk.now bits d }
    ensures { result ≡ desk_test (hall_in hall.now) (desk_in desk.now d)
        (drop (d + 1) (desks_in desk.now)) }
{
    if bits % 2 == 0 {
        return true;
    }
    open_fits(hall, desk, bits, d)
}

fn desks_fit(hall: &[u8], desk: &[u8]) -> bool
    requires { Sound hall.now × Shaped desk.now }
    ensures { result ≡ desks_test (hall_in hall.now) (desks_in desk.now) }
{
    let n = desks::desk_count(desk);
    let mut bits = desks::occupied(desk);
    let mut d = 0;
    while d < n {
        if !desk_fits(hall, desk, bits, d) {
            return false;
        }
        bits = bits / 2;
        d += 1;
    }
    true
}

// The desks beside the hall.
fn open_desks_fit(hall: &[u8], desk: &[u8]) -> bool
    requires { Sound hall.now × Shaped desk.now }
    ensures { result ≡ sound_open (hall_in hall.now) (desks_in desk.now) }
{
    if desks::open_desks(desk) == 0 {
        return true;
    }
    if !desks_fit(hall, desk) {
        return false;
    }
    let least = desks::least_start(desk, model::LAST_NUMBER);
    let greatest = desk_starts::greatest_start(desk);
    desk_starts::no_number_is_start(hall, desk, least, greatest)
}

pub fn is_sound(hall: &[u8], desk: &[u8]) -> bool
    requires { Sound hall.now }
    ensures { result ≡ is_sound (hall_in hall.now) desk.now }
{
    if !desk_shape::is_shaped(desk) {
        return false;
    }
    if desks::desk_count(desk) != header::desk_count(hall) {
        return false;
    }
    open_desks_fit(hall, desk)
}
