// The first pass, over the older versions, with a place to read and a place to write. The newest version of each key
// stays in its row.
#![tactic(auto)]

ghost use Rattle.model.specs.Sweeps.{goes};
ghost use Rattle.hall.specs.Layout.{Sound};
ghost use Rattle.hall_rule.specs.Readers.{Readers};
ghost use Rattle.hall_rule.specs.Older.{Older};
ghost use Rattle.hall_moves.specs.Moves.{Stored};
ghost use Rattle.hall_trim.specs.Held.{OldersFrom, Telling, OldersFit, Near, kept_of, Gone, Run};
ghost use Rattle.hall_trim.specs.Held.{KeySweepable, KeySwept, Trimmed};

use hall::{header, keys};

// The first older version of key i, from `from` on, whose next number is above `high`, or `to`. A loop of its own,
// since it passes nearly all.
fn near_end(m: &[u8], i: usize, from: usize, to: usize, high: u64) -> usize
    requires { OldersFrom m.now i from to }
    ensures { Near m.now i from to high result }
{
    let mut j = from;
    while j < to {
        if high < hall_rule::next_number(m, i, j, to) {
            return j;
        }
        j += 1;
    }
    j
}

// The first older version of key i, from `from` on, that stays, or `to`. Their numbers ascend, so what is clear up to
// `high` from one on is so from the next on too.
fn gone_end(
    m: &[u8],
    i: usize,
    from: usize,
    to: usize,
    cutoff: u64,
    clear: u64,
    starts: &[u64],
) -> usize
    requires { Telling m.now i from to cutoff clear starts.now }
    ensures { Gone (goes cutoff starts.now) m.now i from to result }
{
    let mut high = clear;
    let mut j = near_end(m, i, from, to, clear);
    while j < to {
        let next = hall_rule::next_number(m, i, j, to);
        high = hall_rule::reach(m, j, next, high, cutoff, starts);
        if !hall_rule::goes_within(m, j, next, high, clear) {
            return j;
        }
        j = near_end(m, i, j + 1, to, high);
    }
    j
}

// The first older version of key i, from `from` on, that goes, or `to`.
fn run_end(
    m: &[u8],
    i: usize,
    from: usize,
    to: usize,
    cutoff: u64,
    clear: u64,
    starts: &[u64],
) -> usize
    requires { Older m.now i from to × Readers cutoff clear starts.now }
    ensures { Run (goes cutoff starts.now) m.now i from to result }
{
    let mut j = from;
    while j < to {
        if hall_rule::does_go(m, i, j, to, cutoff, clear, starts) {
            return j;
        }
        j += 1;
    }
    j
}

// What stays of the versions from `from` up to `to`, the older ones of key i, goes to place w0. Answers the next place.
fn sweep_olders(
    m: &mut [u8],
    i: usize,
    from: usize,
    to: usize,
    w0: usize,
    cutoff: u64,
    clear: u64,
    starts: &[u64],
) -> usize
    requires { OldersFit m.old i from to w0 × Readers cutoff clear starts.now }
    ensures { Stored m.old w0
        (kept_of (goes cutoff starts.now) m.old i from to) m.new result }
{
    let mut w = w0;
    let mut j = from;
    while j < to {
        let f = gone_end(m, i, j, to, cutoff, clear, starts);
        if f == to {
            return w;
        }
        let k = run_end(m, i, f, to, cutoff, clear, starts);
        w = hall_moves::copy_versions(m, f, k, w);
        j = k + 1;
    }
    w
}

// What stays of the older versions of key i of n, from end `from` up to end `to`, goes to end w. Answers the new end.
fn sweep_key(
    m: &mut [u8],
    n: usize,
    i: usize,
    from: usize,
    to: usize,
    w: usize,
    cutoff: u64,
    clear: u64,
    starts: &[u64],
) -> usize
    requires { KeySweepable m.old n i from to w cutoff clear starts.now }
    ensures { KeySwept (goes cutoff starts.now) m.old i from to w m.new result }
{
    let end = sweep_olders(m, i, n + from, n + to, n + w, cutoff, clear, starts) - n;
    hall_rows::keys::set_end(m, i, end);
    end
}

// Drops the older versions that go.
pub fn trim(m: &mut [u8], cutoff: u64, clear: u64, starts: &[u64])
    requires { Sound m.old × Readers cutoff clear starts.now }
    ensures { Trimmed (goes cutoff starts.now) m.old m.new }
{
    let n = header::key_count(m);
    let mut from = 0;
    let mut w = 0;
    let mut i = 0;
    while i < n {
        let to = keys::end_at(m, i);
        w = sweep_key(m, n, i, from, to, w, cutoff, clear, starts);
        from = to;
        i += 1;
    }
    hall_rows::versions::cut(m, n + w);
}
