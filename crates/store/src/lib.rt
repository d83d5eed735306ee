// The public calls, each of which tests what it is lent. Their answers are the types of crate `answers`.
#![tactic(auto)]

pub use call_abort::abort;
pub use call_ask::past::{as_of, as_of_bytes};
pub use call_ask::{newest, newest_bytes};
pub use call_begin::begin;
pub use call_commit::{commit, commit_to};
pub use call_count::counts;
pub use call_dump::dump;
pub use call_load::load;
pub use call_make::make;
pub use call_read::{read, read_bytes};
pub use call_replay::replay;
pub use call_sweep::{sweep, thin};
pub use call_write::{delete, put};
