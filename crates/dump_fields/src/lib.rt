// The fields of a dump: a step for each.
#![tactic(auto)]

pub mod machine;
