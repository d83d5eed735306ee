// Keys and payloads: in cells of a memory, and one key after another. Clashes in an output.
#![tactic(auto)]

pub mod clashes;
pub mod keys;
pub mod rows;

ghost use Rattle.std.specs.Prelude.{◌≡◌, true, ◌+◌, ◌≤◌, length, drop};
ghost use Rattle.std.proofs.lemmas.List.Edits.{sets};
ghost use Rattle.model.specs.Sizes.{max_key, max_value};
ghost use Rattle.model.specs.Bytes.{part};
ghost use Rattle.model.specs.State.{deletion, content};
ghost use Rattle.model.specs.Dump.{dump_payload};
ghost use Rattle.memory.specs.Spans.{all_zero};
ghost use Rattle.cells.specs.Cells.{key_width, key_bytes, key_from, is_key_cell, payload_width, payload_bytes, value_length, payload_from, is_payload_cell};
ghost use Rattle.cells.specs.Values.{value_in};

use memory::spans::Span;
use memory::{numbers, spans};

// The widths of specs/Cells.antt, for code.
pub const KEY_PLACE: usize = 1;

pub const KEY_WIDTH: usize = KEY_PLACE + model::MAX_KEY;

pub const LENGTH_PLACE: usize = model::TAG_WIDTH;

pub const VALUE_PLACE: usize = LENGTH_PLACE + model::COUNT_WIDTH;

pub const PAYLOAD_WIDTH: usize = VALUE_PLACE + model::MAX_VALUE;

pub const CLASH_WIDTH: usize = model::NUMBER_WIDTH + KEY_WIDTH;

pub fn write_key(m: &mut [u8], at: usize, key: &[u8])
    requires { (length key.now ≤ max_key) × (at + key_width ≤ length m.old) }
    ensures { m.new ≡ sets m.old at (key_bytes key.now) }
{
    m[at] = key.len() as u8;
    spans::pad_in(key, m, at + KEY_PLACE, model::MAX_KEY);
}

pub fn write_value(m: &mut [u8], at: usize, val: &[u8])
    requires { (length val.now ≤ max_value) × (at + payload_width ≤ length m.old) }
    ensures { m.new ≡ sets m.old at (payload_bytes (content val.now)) }
{
    m[at] = 1;
    numbers::write32(m, at + LENGTH_PLACE, val.len() as u64);
    spans::pad_in(val, m, at + VALUE_PLACE, model::MAX_VALUE);
}

pub fn write_deletion(m: &mut [u8], at: usize)
    requires { at + payload_width ≤ length m.old }
    ensures { m.new ≡ sets m.old at (payload_bytes deletion) }
{
    spans::clear(m, at, PAYLOAD_WIDTH);
}

// The n bytes from `at`.
fn cell(m: &[u8], at: usize, n: usize) -> &[u8]
    requires { at + n ≤ length m.now }
    ensures { (result.now ≡ part m.now at n) × (length result.now ≡ n) }
{
    spans::piece(m, at, n)
}

// Zeros from `at` to the end.
fn zero_from(c: &[u8], at: usize) -> bool
    requires { at ≤ length c.now }
    ensures { result ≡ all_zero (drop at c.now) }
{
    spans::all_zero(&c[at..])
}

pub fn is_key_cell(m: &[u8], at: usize) -> bool
    requires { at + key_width ≤ length m.now }
    ensures { result ≡ is_key_cell (part m.now at key_width) }
{
    let c = cell(m, at, KEY_WIDTH);
    let n = c[0] as usize;
    n <= model::MAX_KEY && zero_from(c, KEY_PLACE + n)
}

// The length that a payload's cell says its value has.
fn value_length(c: &[u8]) -> u32
    requires { length c.now ≡ payload_width }
    ensures { result ≡ value_length c.now }
{
    numbers::read32(c, LENGTH_PLACE)
}

pub fn is_payload_cell(m: &[u8], at: usize) -> bool
    requires { at + payload_width ≤ length m.now }
    ensures { result ≡ is_payload_cell (part m.now at payload_width) }
{
    let c = cell(m, at, PAYLOAD_WIDTH);
    match c[0] {
        0 => zero_from(c, model::TAG_WIDTH),
        1 => {
            let n = value_length(c) as usize;
            n <= model::MAX_VALUE && zero_from(c, VALUE_PLACE + n)
        }
        _ => false,
    }
}

// The key in the cell at `at`.
pub fn key_in(m: &[u8], at: usize) -> &[u8]
    requires { (at + key_width ≤ length m.now) × (is_key_cell (part m.now at key_width) ≡ true) }
    ensures { result.now ≡ key_from (part m.now at key_width) }
{
    let c = cell(m, at, KEY_WIDTH);
    spans::piece(c, KEY_PLACE, c[0] as usize)
}

// Where the value of the payload in the cell at `at` stands, if that is no deletion.
pub fn value_in(m: &[u8], at: usize) -> Option<Span>
    requires { (at + payload_width ≤ length m.now) × (is_payload_cell (part m.now at payload_width) ≡ true) }
    ensures { result ≡ value_in at (part m.now at payload_width) }
{
    let c = cell(m, at, PAYLOAD_WIDTH);
    if c[0] == 0 {
        return None;
    }
    Some(Span {
        at: at + VALUE_PLACE,
        len: value_length(c) as usize,
    })
}

// The length of the dump's record of the payload in the cell at `at`.
pub fn record_length(m: &[u8], at: usize) -> usize
    requires { (at + payload_width ≤ length m.now) × (is_payload_cell (part m.now at payload_width) ≡ true) }
    ensures { result ≡ length (dump_payload (payload_from (part m.now at payload_width))) }
{
    let c = cell(m, at, PAYLOAD_WIDTH);
    if c[0] == 0 {
        return model::TAG_WIDTH;
    }
    VALUE_PLACE + value_length(c) as usize
}
