// One key after another.
ghost use Rattle.std.specs.Prelude.{◌≡◌};
ghost use Rattle.cells.specs.Keys.{follows};

use memory::{order, spans};

// A key after `last`, of whatever length.
pub fn follows(last: &[u8], key: &[u8]) -> bool
    ensures { result ≡ follows last.now key.now }
{
    order::less(last, key) && spans::are_printable(key)
}
