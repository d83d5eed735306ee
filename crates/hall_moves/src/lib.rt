// Runs of rows copied down.
#![tactic(auto)]

ghost use Rattle.std.specs.Prelude.{length};
ghost use Rattle.std.proofs.lemmas.List.Edits.{sets};
ghost use Rattle.hall.specs.Layout.{keys_in, versions_in};
ghost use Rattle.hall.specs.Tables.{between};
ghost use Rattle.hall_rows.specs.Held.{Holds};
ghost use Rattle.hall_moves.specs.Moves.{Stored, Copyable, rows_between};

use hall::{places, versions};
use memory::spans;

// Copies the versions from j up to k down to place w, if there are any and they are not there. Answers the next place.
pub fn copy_versions(m: &mut [u8], j: usize, k: usize, w: usize) -> usize
    requires { Copyable m.old (length (versions_in m.old)) j k w }
    ensures { Stored m.old w (between j k (versions_in m.old)) m.new result }
{
    if j == k {
        return w;
    }
    if w == j {
        return k;
    }
    let at = versions::place(m, w);
    let end = versions::place(m, k);
    spans::close_gap(m, at, end, places::versions_length(j - w));
    w + (k - j)
}

// Copies the key rows from i up to k down to row w, if they are not there.
pub fn copy_keys(m: &mut [u8], i: usize, k: usize, w: usize)
    requires { Copyable m.old (length (keys_in m.old)) i k w }
    ensures { Holds m.old
        (sets (keys_in m.old) w (rows_between i k (keys_in m.old))) (versions_in m.old)
        m.new }
{
    if w == i {
        return;
    }
    let at = places::row_place(w);
    let end = places::row_place(k);
    spans::close_gap(m, at, end, places::rows_length(i - w));
}
