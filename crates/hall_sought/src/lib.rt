// Where the keys of a desk's writes stand in the hall.
#![tactic(auto)]

pub mod room;

ghost use Rattle.std.specs.Prelude.{◌≡◌, ◌≤◌, ◌<◌, length, get_or};
ghost use Rattle.hall_sought.specs.Sought.{writes_in, Ready, place_from, Found};

use cells::rows::Place;
use hall::keys;

// The place of write j.
pub fn place_at(at: &[usize], j: usize) -> Place
    requires { j < length at.now }
    ensures { result ≡ place_from (get_or at.now j 0) }
{
    let c = at[j];
    if c % 2 == 0 {
        return Place::Before(c / 2);
    }
    Place::At(c / 2)
}

// Seeks the key of each write of desk d, once; answers how many are new to the hall.
pub fn seek_writes(hall: &[u8], desk: &[u8], d: usize, at: &mut [usize]) -> usize
    requires { Ready hall.now desk.now d × (length (writes_in desk.now d) ≤ length at.old) }
    ensures { Found hall.now desk.now d at.new result }
{
    let n = desk_writes::write_count(desk, d);
    let mut new = 0;
    let mut j = 0;
    while j < n {
        match keys::seek(hall, desk_writes::key_at(desk, d, j)) {
            Place::At(p) => {
                at[j] = 2 * p + 1;
                j += 1;
            }
            Place::Before(p) => {
                at[j] = 2 * p;
                new += 1;
                j += 1;
            }
        }
    }
    new
}
