// Hall memory changed a step at a time: rows stored and moved in their tables.
#![tactic(auto)]

pub mod keys;
pub mod versions;
