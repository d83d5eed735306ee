// Byte strings in order.
ghost use Rattle.std.specs.Prelude.{◌≡◌};
ghost use Rattle.model.specs.Bytes.{order, is_less, is_same};

use std::cmp::Ordering;

pub fn compare(a: &[u8], b: &[u8]) -> Ordering
    ensures { result ≡ order a.now b.now }
{
    a.cmp(&b)
}

// By `<`, which is in line at each caller, where `compare` would be a call for every key that soundness tests.
pub fn less(a: &[u8], b: &[u8]) -> bool
    ensures { result ≡ is_less (order a.now b.now) }
{
    a < b
}

pub fn same(a: &[u8], b: &[u8]) -> bool
    ensures { result ≡ is_same (order a.now b.now) }
{
    compare(a, b).is_eq()
}
