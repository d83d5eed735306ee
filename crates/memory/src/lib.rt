// What stands in a byte memory and is moved there: numbers, spans of bytes, byte strings in order.
#![tactic(auto)]

pub mod numbers;
pub mod order;
pub mod spans;

// Which row of a table, if any.
#[derive(Drop)]
pub enum Which {
    At(usize),
    Nothing,
}
