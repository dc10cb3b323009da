//! The turns of a plan: its track files are recorded, and then the stages that were chosen have their turns.
#![tactic(auto)]

mod stage;
mod turns;

pub use stage::run_stage;
pub use turns::repro;
