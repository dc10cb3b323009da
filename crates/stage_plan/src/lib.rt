//! The plan of a workspace, what targets choose of it, and what is to be done for a choice; or the first of its refusals.
#![tactic(auto)]

mod by_text;
mod choose;
mod owners;
mod plan;
mod planned;
mod sources;
mod targets;
mod tracks;
mod turns;

pub use choose::Chosen;
pub use plan::{Plan, schema_answer};
pub use sources::Sources;
pub use turns::Turns;
