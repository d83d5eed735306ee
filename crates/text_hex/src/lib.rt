// Bytes as hex, written in lower case and read in either; `-` stands for no bytes.
#![tactic(auto)]

ghost use Rattle.std.specs.Prelude.{◌≡◌, ◌+◌, ◌*◌, ◌/◌, ◌<◌, ◌≤◌, length, Some};
ghost use Rattle.std.proofs.lemmas.List.Edits.{sets};
ghost use Rattle.model.specs.State.{given};
ghost use Rattle.text_words.specs.Words.{Appended};
ghost use Rattle.text_hex.specs.Hex as specs;
ghost use Rattle.text_hex.specs.Hex.{said, pairs, digits, text_of, Decoding};

const DASH: u8 = 45;

// How many bytes a text says; Bad, if it says none, or more than the output can hold.
#[derive(Drop)]
pub enum Decoded {
    Count(usize),
    Bad,
}

// The value of a digit, 16 for any other byte.
fn nibble(c: u8) -> u8
    ensures { result ≡ specs.nibble c }
{
    match c {
        48..=57 => c - 48,
        65..=70 => c - 55,
        97..=102 => c - 87,
        _ => 16,
    }
}

// Does the text say bytes? A dash does, and so do pairs of digits, one at least.
fn is_said(text: &[u8]) -> bool
    ensures { said text.now ≡ given result (pairs text.now) }
{
    if text.len() == 1 {
        return text[0] == DASH;
    }
    let mut good = 0 < text.len();
    let mut i = 0;
    while 1 < text.len() - i {
        good = good & (nibble(text[i]) < 16) & (nibble(text[i + 1]) < 16);
        i += 2;
    }
    good & (text.len() - i == 0)
}

// The byte that two digits say.
fn pair(a: u8, b: u8) -> u8
    requires { (specs.nibble a < 16) × (specs.nibble b < 16) }
    ensures { result ≡ specs.nibble a * 16 + specs.nibble b }
{
    nibble(a) * 16 + nibble(b)
}

// Puts the bytes that pairs of digits say into the output at `at`.
fn decode_pairs(text: &[u8], out: &mut [u8], at: usize)
    requires { (said text.now ≡ Some (pairs text.now)) × (at + length text.now / 2 ≤ length out.old) }
    ensures { out.new ≡ sets out.old at (pairs text.now) }
{
    let mut i = 0;
    let mut n = at;
    while 1 < text.len() - i {
        out[n] = pair(text[i], text[i + 1]);
        i += 2;
        n += 1;
    }
}

// Puts the bytes that the text says into the output at `at`; the output stays as it is where the text is bad.
pub fn decode(text: &[u8], out: &mut [u8], at: usize) -> Decoded
    ensures { Decoding text.now out.old out.new at result }
{
    if !is_said(text) {
        return Decoded::Bad;
    }
    if out.len() < at {
        return Decoded::Bad;
    }
    let n = text.len() / 2;
    if out.len() - at < n {
        return Decoded::Bad;
    }
    decode_pairs(text, out, at);
    Decoded::Count(n)
}

fn glyph(d: u8) -> u8
    requires { d < 16 }
    ensures { result ≡ specs.glyph d }
{
    if d < 10 { 48 + d } else { 87 + d }
}

// Puts two digits for each byte into the text at `at`.
fn encode_pairs(bytes: &[u8], text: &mut [u8], at: usize)
    requires { at + 2 * length bytes.now ≤ length text.old }
    ensures { text.new ≡ sets text.old at (digits bytes.now) }
{
    let mut i = 0;
    let mut j = at;
    while i < bytes.len() {
        text[j] = glyph(bytes[i] / 16);
        text[j + 1] = glyph(bytes[i] % 16);
        i += 1;
        j += 2;
    }
}

// Puts the bytes as hex into the text at `at`, and answers where it ends; a text with no room for it stays as it is.
pub fn encode(bytes: &[u8], text: &mut [u8], at: usize) -> usize
    ensures { Appended text.old text.new at result (text_of bytes.now) }
{
    let n = bytes.len();
    if n == 0 {
        return text_words::append(b"-", text, at);
    }
    if text.len() < at {
        return at;
    }
    if (text.len() - at) / 2 < n {
        return at;
    }
    encode_pairs(bytes, text, at);
    at + 2 * n
}
