// Where the fields of a record in the journal stand (docs/RULES.md, 11.1).
#![tactic(auto)]

// In a record: behind its mark come the length of its body and the body.
pub const LENGTH_PLACE: usize = model::MARK_WIDTH;

pub const BODY_PLACE: usize = LENGTH_PLACE + model::COUNT_WIDTH;

// In a body: the number, the count of its writes and the writes.
pub const NUMBER_IN_BODY: usize = 0;

pub const COUNT_IN_BODY: usize = NUMBER_IN_BODY + model::NUMBER_WIDTH;

pub const WRITES_IN_BODY: usize = COUNT_IN_BODY + model::COUNT_WIDTH;

// The same in a record.
pub const NUMBER_PLACE: usize = BODY_PLACE + NUMBER_IN_BODY;

pub const COUNT_PLACE: usize = BODY_PLACE + COUNT_IN_BODY;

pub const WRITES_PLACE: usize = BODY_PLACE + WRITES_IN_BODY;
