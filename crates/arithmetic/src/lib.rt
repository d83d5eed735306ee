// Arithmetic on 64-bit numbers that the language does not have; a byte as such a number.
#![tactic(auto)]

ghost use Rattle.std.specs.Prelude.{◌≡◌, ◌-◌, ◌*◌, ◌%◌, min, max};
ghost use Rattle.arithmetic.specs.Modulus.{modulus};

const HALF: u64 = 4294967296;

// a * b modulo 2 to the 64, by halves: the product of the upper halves falls away.
pub fn wrapping_mul(a: u64, b: u64) -> u64
    ensures { result ≡ (a * b) % modulus }
{
    let a0 = a % HALF;
    let a1 = a / HALF;
    let b0 = b % HALF;
    let b1 = b / HALF;
    let low = a0 * b0;
    let x = a1 * b0;
    let y = a0 * b1;
    let middle = (x % HALF + y % HALF) % HALF;
    std::num::wrapping_add_u64(middle * HALF, low)
}

// The difference, 0 where there is none.
pub fn minus(a: u64, b: u64) -> u64
    ensures { result ≡ a - b }
{
    if a < b {
        return 0;
    }
    a - b
}

pub fn lesser(a: u64, b: u64) -> u64
    ensures { result ≡ min a b }
{
    if a < b {
        return a;
    }
    b
}

pub fn greater(a: u64, b: u64) -> u64
    ensures { result ≡ max a b }
{
    if a < b {
        return b;
    }
    a
}

pub fn wide(byte: u8) -> u64
    ensures { result ≡ byte }
{
    byte as u64
}
