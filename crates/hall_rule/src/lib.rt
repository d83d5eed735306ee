// The rule of both sweeps: up to a cutoff, sparing readers. Up to one number all is clear; the readers are looked at
// only above it.
#![tactic(auto)]

ghost use Rattle.std.specs.Prelude.{◌≡◌, ◌||◌, [], ◌∷◌, ◌<◌, leb, length};
ghost use Rattle.model.specs.State.{is_deletion};
ghost use Rattle.model.specs.Sweeps.{goes};
ghost use Rattle.hall.specs.Layout.{versions_in};
ghost use Rattle.hall.specs.Tables.{Shaped, version_at};
ghost use Rattle.hall_rule.specs.Readers.{Upward, Upto, Readers, Reaches};
ghost use Rattle.hall_rule.specs.Older.{Older, Reaching, successor_of};

use hall::versions;

// Is version j a deletion?
fn is_deletion(m: &[u8], j: usize) -> bool
    requires { (Shaped m.now) × (j < length (versions_in m.now)) }
    ensures { result ≡ is_deletion (version_at j (versions_in m.now)).payload }
{
    let at = versions::payload_place(m, j);
    m[at] == 0
}

// Does version j go whatever comes after it?
pub fn does_go_alone(m: &[u8], j: usize, clear: u64) -> bool
    requires { (Shaped m.now) × (j < length (versions_in m.now)) }
    ensures { result ≡ goes clear [] (version_at j (versions_in m.now)) [] }
{
    if !is_deletion(m, j) {
        return false;
    }
    versions::number_at(m, j) <= clear
}

// The number of the version after j, an older version of key i.
pub fn next_number(m: &[u8], i: usize, j: usize, to: usize) -> u64
    requires { Older m.now i j to }
    ensures { result ≡ (successor_of m.now i j to).number }
{
    if j + 1 < to {
        return versions::number_at(m, j + 1);
    }
    versions::number_at(m, i)
}

// How far all is clear from lo on: the first start at or above lo decides.
fn clear_from(starts: &[u64], lo: u64, cutoff: u64) -> u64
    requires { Upward 0 starts.now }
    ensures { Upto cutoff starts.now lo result }
{
    let n = starts.len();
    let mut p = 0;
    while p < n {
        if lo <= starts[p] {
            return arithmetic::lesser(cutoff, starts[p]);
        }
        p += 1;
    }
    cutoff
}

// Up to where all is clear from version j on, as far as `next` asks: `high`, if that tells, else what the starts tell.
pub fn reach(m: &[u8], j: usize, next: u64, high: u64, cutoff: u64, starts: &[u64]) -> u64
    requires { Reaching m.now j high cutoff starts.now }
    ensures { Reaches cutoff starts.now (version_at j (versions_in m.now)) next result }
{
    if next <= high {
        return high;
    }
    if cutoff < next {
        return high;
    }
    clear_from(starts, versions::number_at(m, j), cutoff)
}

// Does version j go, if from it on all is clear up to `reached` and the next number is `next`?
pub fn goes_within(m: &[u8], j: usize, next: u64, reached: u64, clear: u64) -> bool
    requires { (Shaped m.now) × (j < length (versions_in m.now)) }
    ensures { result ≡ (leb next reached || goes clear [] (version_at j (versions_in m.now)) []) }
{
    if next <= reached {
        return true;
    }
    does_go_alone(m, j, clear)
}

// Does j go, an older version of key i?
pub fn does_go(
    m: &[u8],
    i: usize,
    j: usize,
    to: usize,
    cutoff: u64,
    clear: u64,
    starts: &[u64],
) -> bool
    requires { Older m.now i j to × Readers cutoff clear starts.now }
    ensures { result ≡ goes cutoff starts.now (version_at j (versions_in m.now))
        (successor_of m.now i j to ∷ []) }
{
    let next = next_number(m, i, j, to);
    let high = reach(m, j, next, clear, cutoff, starts);
    goes_within(m, j, next, high, clear)
}
