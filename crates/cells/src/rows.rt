// Rows of one width, each of which begins with its key, by their order.
ghost use Rattle.std.specs.Prelude.{◌≡◌, []};
ghost use Rattle.cells.specs.Keys.{all_follow};
ghost use Rattle.cells.specs.Rows.{KeyRows, Seekable, keys_at, place_of};

use crate::keys;
use memory::order;
use std::cmp::Ordering;

#[derive(Clone, Copy)]
pub enum Place {
    // the row that has the key
    At(usize),
    // the row before which the key would go
    Before(usize),
}

// Where the key stands among the n rows of w bytes from `at`, by halving.
pub fn seek(m: &[u8], at: usize, w: usize, n: usize, key: &[u8]) -> Place
    requires { Seekable m.now at w n }
    ensures { result ≡ place_of key.now 0 (keys_at m.now at w n) }
{
    let mut lo = 0;
    let mut hi = n;
    while lo < hi {
        let mid = lo + (hi - lo) / 2;
        match order::compare(key, crate::key_in(m, at + w * mid)) {
            Ordering::Less => {
                hi = mid;
            }
            Ordering::Equal => {
                return Place::At(mid);
            }
            Ordering::Greater => {
                lo = mid + 1;
            }
        }
    }
    Place::Before(lo)
}

// Are the keys of these rows printable, and does each come after the one before it?
pub fn all_follow(m: &[u8], at: usize, w: usize, n: usize) -> bool
    requires { KeyRows m.now at w n }
    ensures { result ≡ all_follow [] (keys_at m.now at w n) }
{
    let mut last = &m[..0];
    for i in 0..n {
        let key = crate::key_in(m, at + w * i);
        if !keys::follows(last, key) {
            return false;
        }
        last = key;
    }
    true
}
