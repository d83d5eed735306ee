// Decimal numbers in text.
#![tactic(auto)]

ghost use Rattle.std.specs.Prelude.{◌≡◌};
ghost use Rattle.text_decimals.specs.Decimals.{parsed, with_digit};

const LARGEST: u64 = 18446744073709551615;

// What a text says: a number, or none that a u64 holds.
#[derive(Clone, Copy)]
pub enum Parsed {
    Number(u64),
    Bad,
}

// The number that n's digits and one byte more say.
fn with_digit(n: u64, byte: u8) -> Parsed
    ensures { result ≡ with_digit n byte }
{
    if byte < b'0' {
        return Parsed::Bad;
    }
    if b'9' < byte {
        return Parsed::Bad;
    }
    let digit = arithmetic::wide(byte - b'0');
    if (LARGEST - digit) / 10 < n {
        return Parsed::Bad;
    }
    Parsed::Number(10 * n + digit)
}

// The number that the whole text says.
pub fn parse(text: &[u8]) -> Parsed
    ensures { result ≡ parsed text.now }
{
    if text.len() == 0 {
        return Parsed::Bad;
    }
    let mut n: u64 = 0;
    let mut i = 0;
    while i < text.len() {
        let Parsed::Number(next) = with_digit(n, text[i]) else {
            return Parsed::Bad;
        };
        n = next;
        i += 1;
    }
    Parsed::Number(n)
}
