//! What running every stage anew gives, what is due where something is remembered, and the laws of both.
#![tactic(auto)]

mod law;
mod stage;

pub use law::{choice_law, headline_law, sound_law, stop_law};
pub use stage::{Choice, Dep, Flags, Out, Stage, Stages, Tracked};
