// Marks of the open starts, by their lowest bits: a number without a mark is no start.
ghost use Rattle.std.specs.Prelude.{◌≡◌, [], ◌≤◌, length, drop};
ghost use Rattle.hall.specs.Layout.{versions_in, Sound};
ghost use Rattle.desk.specs.Layout.{desks_in};
ghost use Rattle.desk.specs.Shape.{Shaped};
ghost use Rattle.desk_starts.specs.Marks.{mark_count, mark_place, is_marked, Marked, Passed};

use desk::desks;
use hall::{header, versions};

pub const COUNT: usize = 4096;

fn place_of(number: u64) -> usize
    ensures { result ≡ mark_place number }
{
    (number % COUNT as u64) as usize
}

// Each start's mark is set; a free desk, which says 0, sets one too.
pub fn mark_starts(desk: &[u8], marks: &mut [u8])
    requires { Shaped desk.now × (length marks.old ≡ mark_count) }
    ensures { Marked marks.new (desks_in desk.now) [] }
{
    let n = desks::desk_count(desk);
    let mut d = 0;
    while d < n {
        marks[place_of(desks::start_at(desk, d))] = 1;
        d += 1;
    }
}

fn is_marked(marks: &[u8], number: u64) -> bool
    requires { length marks.now ≡ mark_count }
    ensures { result ≡ is_marked marks.now number }
{
    marks[place_of(number)] != 0
}

// The first version from `from` on whose number has a mark, or where they end. A loop of its own, since it is long.
pub fn next_marked(hall: &[u8], marks: &[u8], from: usize) -> usize
    requires { Sound hall.now × (length marks.now ≡ mark_count) }
    ensures { (from ≤ result) × Passed marks.now (drop from (versions_in hall.now))
        (drop result (versions_in hall.now)) }
{
    let n = header::version_count(hall);
    let mut j = from;
    while j < n {
        if is_marked(marks, versions::number_at(hall, j)) {
            return j;
        }
        j += 1;
    }
    j
}
