// The order of the rows: good keys ascend, ends ascend up to the version count, numbers ascend within a chain.
ghost use Rattle.std.specs.Prelude.{◌≡◌, [], ◌∷◌, ◌++◌, ◌≤◌, ◌<◌, length};
ghost use Rattle.std.proofs.Math.Seq.{slice};
ghost use Rattle.model.specs.Sound.{every};
ghost use Rattle.memory.specs.Tests.{all_below};
ghost use Rattle.hall.specs.Layout.{keys_in, versions_in};
ghost use Rattle.hall.specs.Tables.{Shaped, version_at};
ghost use Rattle.hall_sound.specs.Tests.{ChainIn, ascends, RowIn, row_of, order_tests};

use cells::rows;

// The versions from place `from` up to place `to`, then the one at place i.
fn chain_ascends(m: &[u8], from: usize, to: usize, i: usize, top: u64) -> bool
    requires { ChainIn m.now from to i }
    ensures { result ≡ ascends 0 top
        (slice from to (versions_in m.now) ++ version_at i (versions_in m.now) ∷ []) }
{
    let mut last = 0;
    let mut j = from;
    while j < to {
        let n = hall::versions::number_at(m, j);
        if n <= last {
            return false;
        }
        last = n;
        j += 1;
    }
    let n = hall::versions::number_at(m, i);
    if n <= last {
        return false;
    }
    // The newest is the greatest: the older ones need no such test.
    if top < n {
        return false;
    }
    true
}

fn row_fits(m: &[u8], i: usize) -> bool
    requires { RowIn m.now i }
    ensures { result ≡ row_of m.now i }
{
    let from = hall::keys::end_before(m, i);
    let to = hall::keys::end_at(m, i);
    if to < from {
        return false;
    }
    let n = hall::header::key_count(m);
    if hall::header::version_count(m) - n < to {
        return false;
    }
    if !chain_ascends(m, n + from, n + to, i, hall::header::counter(m)) {
        return false;
    }
    true
}

fn rows_fit(m: &[u8]) -> bool
    requires { (Shaped m.now) × (length (keys_in m.now) ≤ length (versions_in m.now)) }
    ensures { result ≡ all_below (length (keys_in m.now)) (row_of m.now) }
{
    let n = hall::header::key_count(m);
    let mut i = 0;
    while i < n {
        if !row_fits(m, i) {
            return false;
        }
        i += 1;
    }
    true
}

pub fn are_ordered(m: &[u8]) -> bool
    requires { Shaped m.now }
    ensures { result ≡ every (order_tests m.now) }
{
    let n = hall::header::key_count(m);
    let total = hall::header::version_count(m);
    if total < n {
        return false;
    }
    if !rows::all_follow(m, hall::HEAD_SIZE, hall::ROW_WIDTH, n) {
        return false;
    }
    if !rows_fit(m) {
        return false;
    }
    if hall::keys::end_before(m, n) != total - n {
        return false;
    }
    true
}
