// Is an open start the number of a version? Numbers outside the starts' range and numbers without a mark are passed
// over; the others are sought among the desks.
#![tactic(auto)]

mod marks;

ghost use Rattle.std.specs.Prelude.{◌≡◌, [], drop};
ghost use Rattle.model.specs.State.{is_some, writes_of};
ghost use Rattle.hall.specs.Layout.{versions_in, Sound};
ghost use Rattle.desk.specs.Layout.{desks_in};
ghost use Rattle.desk.specs.Shape.{Shaped};
ghost use Rattle.desk_starts.specs.Starts.{StartSought, none_starts, last_start, Between, StartsBetween, outsiders};
ghost use Rattle.desk_starts.specs.Marks.{Marked};

use desk::desks;
use hall::{header, versions};

// Has some desk from desk d on this start? The bits are those of these desks. A free desk says 0.
pub fn is_start_from(desk: &[u8], bits: u64, d: usize, start: u64) -> bool
    requires { StartSought desk.now bits d start }
    ensures { result ≡ is_some (writes_of start (drop d (desks_in desk.now))) }
{
    let mut rest = bits;
    let mut i = d;
    while rest != 0 {
        if desks::start_at(desk, i) == start {
            return true;
        }
        rest = rest / 2;
        i += 1;
    }
    false
}

pub fn greatest_start(desk: &[u8]) -> u64
    requires { Shaped desk.now }
    ensures { result ≡ last_start (desks_in desk.now) }
{
    let n = desks::desk_count(desk);
    let mut greatest = 0;
    let mut d = 0;
    while d < n {
        greatest = arithmetic::greater(greatest, desks::start_at(desk, d));
        d += 1;
    }
    greatest
}

// How many versions come before the first numbered between. A loop of its own, since this is the long one.
fn first_between(hall: &[u8], least: u64, greatest: u64) -> usize
    requires { Sound hall.now }
    ensures { result ≡ outsiders least greatest (versions_in hall.now) }
{
    let n = header::version_count(hall);
    let mut j = 0;
    while j < n {
        if compare::is_within(least, greatest, versions::number_at(hall, j)) {
            return j;
        }
        j += 1;
    }
    n
}

// Is the number an open start?
fn is_start(desk: &[u8], least: u64, greatest: u64, number: u64) -> bool
    requires { Shaped desk.now × Between least greatest (desks_in desk.now) }
    ensures { result ≡ is_some (writes_of number (desks_in desk.now)) }
{
    if !compare::is_within(least, greatest, number) {
        return false;
    }
    is_start_from(desk, desks::occupied(desk), 0, number)
}

// One pass over the versions from `first` on, for all desks: those without a mark are passed over.
fn none_starts_from(
    hall: &[u8],
    desk: &[u8],
    marked: &[u8],
    least: u64,
    greatest: u64,
    first: usize,
) -> bool
    requires { StartsBetween hall.now desk.now least greatest
        × Marked marked.now (desks_in desk.now) [] }
    ensures { result ≡ none_starts (desks_in desk.now) (drop first (versions_in hall.now)) }
{
    let n = header::version_count(hall);
    let mut j = first;
    while j < n {
        if is_start(desk, least, greatest, versions::number_at(hall, j)) {
            return false;
        }
        j = marks::next_marked(hall, marked, j + 1);
    }
    true
}

// No marks are made if no number lies between.
pub fn no_number_is_start(hall: &[u8], desk: &[u8], least: u64, greatest: u64) -> bool
    requires { StartsBetween hall.now desk.now least greatest }
    ensures { result ≡ none_starts (desks_in desk.now) (versions_in hall.now) }
{
    let first = first_between(hall, least, greatest);
    if header::version_count(hall) <= first {
        return true;
    }
    let mut marked = [0u8; marks::COUNT];
    marks::mark_starts(desk, &mut marked);
    none_starts_from(hall, desk, &marked, least, greatest, first)
}
