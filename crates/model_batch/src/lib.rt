// The limit and the widths of a batch and its answers, for code.
#![tactic(auto)]

// The most records of a batch.
pub const MAX_ITEMS: usize = 4096;

// Bytes of a place.
pub const PLACE_WIDTH: usize = 2;

// Bytes of a refusal's number in an answer, and of its flag.
pub const CODE_WIDTH: usize = 1;

// Bytes of an answer's head: two numbers, the refusal, the flag.
pub const HEAD_WIDTH: usize = 2 * model::NUMBER_WIDTH + 2 * CODE_WIDTH;

// Where a read's detail has the value's length, and the value.
pub const LENGTH_PLACE: usize = 0;

pub const VALUE_PLACE: usize = LENGTH_PLACE + model::COUNT_WIDTH;

// Bytes of a read's detail.
pub const VALUE_WIDTH: usize = VALUE_PLACE + model::MAX_VALUE;

// Bytes of a clash, as `cells` has it: the number, the key's length in one byte, the key.
const CLASH_WIDTH: usize = model::NUMBER_WIDTH + 1 + model::MAX_KEY;

// Bytes of a commit's detail: its clashes.
pub const CLASHES_WIDTH: usize = model::MAX_WRITES * CLASH_WIDTH;
