// Text as bytes: what stands before and after a mark, and bytes put at the end of a text.
#![tactic(auto)]

ghost use Rattle.std.specs.Prelude.{◌≡◌};
ghost use Rattle.text_words.specs.Words.{before, after, space, UpTo, Appended};

use memory::spans;

const SPACE: u8 = 32;

// How many bytes stand before the first mark; all, if there is none.
pub fn find(s: &[u8], mark: u8) -> usize
    ensures { UpTo mark s.now result }
{
    let mut i = 0;
    while i < s.len() {
        if s[i] == mark {
            return i;
        }
        i += 1;
    }
    i
}

// The first word: what stands before the first space.
pub fn first(s: &[u8]) -> &[u8]
    ensures { result.now ≡ before space s.now }
{
    let n = find(s, SPACE);
    &s[..n]
}

// What stands after the first space; nothing, if there is none.
pub fn rest(s: &[u8]) -> &[u8]
    ensures { result.now ≡ after space s.now }
{
    let n = find(s, SPACE);
    if n < s.len() {
        return &s[n + 1..];
    }
    &s[..0]
}

// Puts src into the text at `at`, and answers where it ends; a text with no room for it stays as it is.
pub fn append(src: &[u8], text: &mut [u8], at: usize) -> usize
    ensures { Appended text.old text.new at result src.now }
{
    if text.len() < at {
        return at;
    }
    if text.len() - at < src.len() {
        return at;
    }
    spans::copy_in(src, text, at);
    at + src.len()
}
