// FNV-1a, 64 bits: one number for many bytes.
#![tactic(auto)]

ghost use Rattle.std.specs.Prelude.{◌≡◌};
ghost use Rattle.console_fnv.specs.Fnv.{hash_of};

const BASIS: u64 = 0xCBF2_9CE4_8422_2325;

const PRIME: u64 = 0x0000_0100_0000_01B3;

pub fn hash(s: &[u8]) -> u64
    ensures { result ≡ hash_of s.now }
{
    let mut h = BASIS;
    let mut i = 0;
    while i < s.len() {
        h = arithmetic::wrapping_mul(h ^ arithmetic::wide(s[i]), PRIME);
        i += 1;
    }
    h
}
