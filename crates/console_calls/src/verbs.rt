// The first word of a line. A verb is its word's place among the language's words.
pub const MAKE: usize = 0;

pub const LOAD: usize = 1;

pub const BEGIN: usize = 2;

pub const READ: usize = 3;

pub const BYTES: usize = 4;

pub const PUT: usize = 5;

pub const DELETE: usize = 6;

pub const COMMIT: usize = 7;

pub const ABORT: usize = 8;

pub const NEWEST: usize = 9;

pub const SWEEP: usize = 10;

pub const COUNTS: usize = 11;

pub const DUMP: usize = 12;

pub const SUM: usize = 13;

pub const PEEK: usize = 14;

pub const POKE: usize = 15;

pub const READAT: usize = 16;

pub const SWEEP2: usize = 17;

pub const COMMITJ: usize = 18;

pub const REPLAY: usize = 19;

pub const BATCH: usize = 20;

pub const DESKS: usize = 21;

pub const HELP: usize = 22;

pub const NOTHING: usize = 23;

// Which word of the table it is, counted from 0; as many as there are, if it is none.
fn place_in(table: &[u8], word: &[u8]) -> usize {
    let mut at = 0;
    let mut place = 0;
    while at < table.len() {
        let n = text_words::find(&table[at..], b' ');
        let end = at + n;
        if text_typed::is(word, &table[at..end]) {
            return place;
        }
        at = end + 1;
        place += 1;
    }
    place
}

// The language's words, in the order of the constants.
fn place_of(word: &[u8]) -> usize {
    place_in(
        b"make load begin read bytes put delete commit abort newest sweep counts dump sum peek poke readat sweep2 \
          commitj replay batch desks help",
        word,
    )
}

pub fn verb_of(line: &[u8]) -> usize {
    place_of(text_typed::first(line))
}
