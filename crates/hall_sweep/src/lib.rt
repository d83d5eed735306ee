// A sweep of hall memory, in place, in two passes: first over the older versions, then over the keys and their newest
// versions.
#![tactic(auto)]

mod rows;

ghost use Rattle.hall.specs.Layout.{Sound};
ghost use Rattle.hall_rule.specs.Readers.{Readers};
ghost use Rattle.hall_sweep.specs.Held.{Swept};

// Drops what goes up to the cutoff, sparing these starts; up to `clear` all is clear. Answers how many versions are
// left.
pub fn sweep_to(m: &mut [u8], cutoff: u64, clear: u64, starts: &[u64]) -> usize
    requires { Sound m.old × Readers cutoff clear starts.now }
    ensures { Swept m.old cutoff starts.now m.new result }
{
    hall_trim::trim(m, cutoff, clear, starts);
    rows::close(m, clear)
}
