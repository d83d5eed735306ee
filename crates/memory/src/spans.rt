// Spans of a memory: lent, copied, cleared, moved, tested for zeros and for printable bytes.
ghost use Rattle.std.specs.Prelude.{◌≡◌, ◌+◌, ◌-◌, ◌≤◌, length};
ghost use Rattle.std.proofs.lemmas.List.Edits.{sets};
ghost use Rattle.model.specs.Bytes.{part};
ghost use Rattle.model.specs.Sound.{are_printable};
ghost use Rattle.memory.specs.Spans.{zeros, all_zero, padded};

// Where bytes stand in a memory.
#[derive(Clone, Copy)]
pub struct Span {
    pub at: usize,
    pub len: usize,
}

// The n bytes from `at`.
pub fn piece(m: &[u8], at: usize, n: usize) -> &[u8]
    requires { at + n ≤ length m.now }
    ensures { result.now ≡ part m.now at n }
{
    &m[at..at + n]
}

// No early return: a loop that has one is not vectorised.
pub fn all_zero(s: &[u8]) -> bool
    ensures { result ≡ all_zero s.now }
{
    let mut zero = true;
    for b in s {
        zero &= *b == 0;
    }
    zero
}

// A flag here too: nearly every key that is tested is printable to its last byte.
pub fn are_printable(s: &[u8]) -> bool
    ensures { result ≡ are_printable s.now }
{
    let mut printable = true;
    for b in s {
        printable &= compare::is_within(model::FIRST_PRINTABLE, model::LAST_PRINTABLE, *b as u64);
    }
    printable
}

pub fn copy_in(src: &[u8], dst: &mut [u8], at: usize)
    requires { at + length src.now ≤ length dst.old }
    ensures { dst.new ≡ sets dst.old at src.now }
{
    for i in 0..src.len() {
        dst[at + i] = src[i];
    }
}

pub fn clear(m: &mut [u8], at: usize, n: usize)
    requires { at + n ≤ length m.old }
    ensures { m.new ≡ sets m.old at (zeros n) }
{
    for i in 0..n {
        m[at + i] = 0;
    }
}

// Copies src in, with zeros after it up to `width`.
pub fn pad_in(src: &[u8], dst: &mut [u8], at: usize, width: usize)
    requires { (length src.now ≤ width) × (at + width ≤ length dst.old) }
    ensures { dst.new ≡ sets dst.old at (padded width src.now) }
{
    let n = src.len();
    copy_in(src, dst, at);
    clear(dst, at + n, width - n);
}

// Moves the bytes from `at` to `end` up by `width`.
pub fn open_gap(m: &mut [u8], at: usize, end: usize, width: usize)
    requires { (at ≤ end) × (end + width ≤ length m.old) }
    ensures { m.new ≡ sets m.old (at + width) (part m.old at (end - at)) }
{
    for i in (at..end).rev() {
        m[i + width] = m[i];
    }
}

// Moves the bytes from `at + width` to `end` down by `width`.
pub fn close_gap(m: &mut [u8], at: usize, end: usize, width: usize)
    requires { (at + width ≤ end) × (end ≤ length m.old) }
    ensures { m.new ≡ sets m.old at
        (part m.old (at + width) (end - (at + width))) }
{
    let from = at + width;
    for j in 0..end - from {
        m[at + j] = m[from + j];
    }
}
