//! The traits of the outside over real files, `/bin/sh -c` and the program's own two streams.
//!
//! What a file holds, what a command does and in which order the disk keeps what was written can't be
//! proved, since no clause of std speaks of it: so these worlds tell nothing, and the tests of `world_suite`
//! stand in. What is proved is safety, that each failure is counted once and nothing else is, what is made
//! of each answer of std, and that what is listed are names in order.
#![tactic(auto)]

mod commands;
mod failures;
mod files;
mod findings;
mod folder;
mod lanes;
mod listing;
mod making;
mod names;
mod programs;
mod reading;
mod sink;
mod world;

pub use sink::RealSink;
pub use world::RealWorld;
