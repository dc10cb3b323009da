//! The graph of stages: which stage is above which, in what order they have their turns, and why they have none.
//!
//! What stages and track files say is looked through for the first refusal, check by check; then what a good one says is read.
#![tactic(auto)]

mod cases;
mod clash;
mod cycle;
mod edges;
mod graph;
mod kept;
mod output;
mod owner;
mod path;
mod text;
mod track;

pub use cases::worked_cases;
pub use graph::Graph;
pub use path::{folder_of, path_from};
pub use track::{TrackFile, Tracks};
