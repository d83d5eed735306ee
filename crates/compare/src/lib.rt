// The numbers that a store issues, compared, and a number with its bounds.
#![tactic(auto)]

ghost use Rattle.std.specs.Prelude.{◌≡◌, leb, ltb};
ghost use Rattle.model.specs.Sound.{within};

use model::{Commit, Start};

// Does a transaction see that version?
pub fn sees(start: Start, version: Commit) -> bool
    ensures { result ≡ leb version.0 start.0 }
{
    version.0 <= start.0
}

// Does that version stand in the transaction's way?
pub fn clashes(start: Start, version: Commit) -> bool
    ensures { result ≡ ltb start.0 version.0 }
{
    start.0 < version.0
}

pub fn is_within(lo: u64, hi: u64, x: u64) -> bool
    ensures { result ≡ within lo hi x }
{
    lo <= x && x <= hi
}
