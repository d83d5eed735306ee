// The second pass, over the keys and their newest versions: a key goes with its newest version. It has no
// older ones by then.
ghost use Rattle.std.specs.Prelude.{[], ◌≤◌, length};
ghost use Rattle.model.specs.Sweeps.{goes};
ghost use Rattle.hall.specs.Layout.{keys_in};
ghost use Rattle.hall_sweep.specs.Held.{RowsFit, RowRun, RunFits, RunStored, RowsKept, Closed};

use hall::header;

// The first row from `from` on whose newest version goes, or n.
fn run_end(m: &[u8], from: usize, n: usize, clear: u64) -> usize
    requires { (RowsFit m.now n) × (from ≤ n) }
    ensures { RowRun (goes clear []) m.now from n result }
{
    let mut i = from;
    while i < n {
        if hall_rule::does_go_alone(m, i, clear) {
            return i;
        }
        i += 1;
    }
    i
}

// Copies the keys from row i up to row k, and their newest versions, down to row w. Answers the next row.
fn copy_rows(m: &mut [u8], i: usize, k: usize, w: usize) -> usize
    requires { RunFits m.old i k w }
    ensures { RunStored m.old i k w m.new result }
{
    hall_moves::copy_keys(m, i, k, w);
    hall_moves::copy_versions(m, i, k, w)
}

// What stays of the n keys goes to the first rows. Answers how many stay.
fn keep_rows(m: &mut [u8], n: usize, clear: u64) -> usize
    requires { RowsFit m.old n }
    ensures { RowsKept (goes clear []) m.old n m.new result }
{
    let mut w = 0;
    let mut i = 0;
    while i < n {
        let k = run_end(m, i, n, clear);
        w = copy_rows(m, i, k, w);
        i = k + 1;
    }
    w
}

// Drops the keys whose newest version goes. Answers how many versions are left.
pub fn close(m: &mut [u8], clear: u64) -> usize
    requires { RowsFit m.old (length (keys_in m.old)) }
    ensures { Closed (goes clear []) m.old m.new result }
{
    let n = header::key_count(m);
    let kept = keep_rows(m, n, clear);
    let count = header::version_count(m);
    let left = hall_moves::copy_versions(m, n, count, kept);
    hall_rows::keys::cut(m, kept);
    hall_rows::versions::cut(m, left);
    left
}
