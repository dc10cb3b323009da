//! What is remembered of runs and of added data: `dvc.lock`, track files and single entries, both ways.
//!
//! A text is read in two steps: its node is looked through for the first refusal, and what a good node says is copied out of it.
#![tactic(auto)]

mod book;
mod cases;
mod entry;
mod fault;
mod mapping;
mod nodes;
mod order;
mod paths;
mod print;
mod read;
mod refused;
mod refusing;
mod value;

pub use book::LockBook;
pub use cases::worked_cases;
pub use entry::{Entry, PathEntries, PathEntry, Track};
pub use fault::LockFault;
pub use print::{print_entry, print_key, print_lock, print_track};
pub use read::{read_entry, read_lock, read_track};
