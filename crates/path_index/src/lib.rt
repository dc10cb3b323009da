//! Which of many paths overlap one.
#![tactic(auto)]

mod index;
mod inside;
mod least;
mod run;
mod set;
mod table;

pub use index::PathIndex;
