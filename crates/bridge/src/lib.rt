// The model's calls on two memories, as every contract says them, and the tests that the calls share.
#![tactic(auto)]

pub mod arguments;
pub mod memories;
