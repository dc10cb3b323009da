//! The records of runs: each is kept in the cache under the key of what was run, and found again by it.
#![tactic(auto)]

mod canonical;
mod digits;
mod key;
mod paths;
mod search;
mod store;

pub use key::key_of;
pub use search::find;
pub use store::keep;
