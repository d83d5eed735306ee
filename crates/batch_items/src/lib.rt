// The records of a batch, read where they stand: nothing is copied.
#![tactic(auto)]

pub mod batch;
pub mod items;
pub mod kinds;
pub mod operands;

// A transaction, by its start or by the place of its begin in the batch.
#[derive(Clone, Copy)]
pub enum Who {
    Start(u64),
    Place(usize),
}

// Where bytes stand in the batch.
#[derive(Clone, Copy)]
pub struct Span {
    pub at: usize,
    pub len: usize,
}

#[derive(Clone, Copy)]
pub enum Item {
    Begin,
    Read(Who, Span),
    Put(Who, Span, Span),
    Delete(Who, Span),
    Commit(Who),
    Abort(Who),
    Sweep(u64),
}

// What is wrong with a record.
#[derive(Clone, Copy)]
pub enum Fault {
    Malformed,
    // of a reserved kind
    Reserved,
}

#[derive(Clone, Copy)]
pub enum Decoded {
    // and where it ends
    Item(Item, usize),
    Wrong(Fault),
}

#[derive(Clone, Copy)]
pub enum Checked {
    // how many, and the bytes of their answers
    Items(usize, usize),
    // with the offset of the first that is wrong
    Wrong(Fault, usize),
}
