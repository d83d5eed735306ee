// Keys and values as they come in, tested.
ghost use Rattle.std.specs.Prelude.{◌≡◌};
ghost use Rattle.model.specs.Sound.{key_fits, value_fits};

use memory::spans;

pub fn key_fits(key: &[u8]) -> bool
    ensures { result ≡ key_fits key.now }
{
    if key.len() < 1 {
        return false;
    }
    if model::MAX_KEY < key.len() {
        return false;
    }
    spans::are_printable(key)
}

pub fn value_fits(val: &[u8]) -> bool
    ensures { result ≡ value_fits val.now }
{
    val.len() <= model::MAX_VALUE
}
