// Text as a person types it: words parted by spaces and tabs, letters in either case.
#![tactic(auto)]

ghost use Rattle.std.specs.Prelude.{◌≡◌, ◌≤◌, length};
ghost use Rattle.text_typed.specs.Typed as specs;
ghost use Rattle.text_typed.specs.Typed.{Run, Cut, says};

const TAB: u8 = 9;

const RETURN: u8 = 13;

fn is_blank(c: u8) -> bool
    ensures { result ≡ specs.is_blank c }
{
    (c == b' ') | (c == TAB)
}

// Is the byte a blank, or is it none?
fn is_kind(c: u8, blank: bool) -> bool
    ensures { result ≡ specs.is_kind blank c }
{
    if blank {
        return is_blank(c);
    }
    !is_blank(c)
}

// How many bytes of one kind stand in front.
fn run(s: &[u8], blank: bool) -> usize
    ensures { Run blank s.now result }
{
    let mut i = 0;
    while i < s.len() {
        if !is_kind(s[i], blank) {
            return i;
        }
        i += 1;
    }
    i
}

// The text without the blanks in front.
fn from_word(s: &[u8]) -> &[u8]
    ensures { result.now ≡ specs.from_word s.now }
{
    let n = run(s, true);
    &s[n..]
}

// The first word of a text that begins with one.
pub fn first(s: &[u8]) -> &[u8]
    ensures { result.now ≡ specs.first s.now }
{
    let n = run(s, false);
    &s[..n]
}

// The words after it.
pub fn rest(s: &[u8]) -> &[u8]
    ensures { result.now ≡ specs.rest s.now }
{
    let n = run(s, false);
    from_word(&s[n..])
}

// Where the text ends, but for a carriage return.
fn line_end(s: &[u8]) -> usize
    ensures { Cut (specs.line_end s.now) s.now result }
{
    let n = s.len();
    if n == 0 {
        return 0;
    }
    if s[n - 1] == RETURN {
        return n - 1;
    }
    n
}

// Where the last word of the first n bytes ends.
fn word_end(s: &[u8], n: usize) -> usize
    requires { n ≤ length s.now }
    ensures { Cut (specs.word_end s.now n) s.now result }
{
    let mut end = n;
    while 0 < end {
        if !is_blank(s[end - 1]) {
            return end;
        }
        end -= 1;
    }
    end
}

// The words of a line, with nothing before and behind them.
pub fn words(s: &[u8]) -> &[u8]
    ensures { result.now ≡ specs.words s.now }
{
    let end = word_end(s, line_end(s));
    from_word(&s[..end])
}

fn lower(c: u8) -> u8
    ensures { result ≡ specs.lower c }
{
    match c {
        b'A'..=b'Z' => c + 32,
        _ => c,
    }
}

// Is the word, which has no upper-case letter, what was typed?
pub fn is(typed: &[u8], word: &[u8]) -> bool
    ensures { result ≡ says typed.now word.now }
{
    if typed.len() != word.len() {
        return false;
    }
    let mut i = 0;
    while i < word.len() {
        if lower(typed[i]) != word[i] {
            return false;
        }
        i += 1;
    }
    true
}
