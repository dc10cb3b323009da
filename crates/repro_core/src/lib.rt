//! The turns of stages: that of one stage, and those of all of them in order.
#![tactic(auto)]

mod answer;
mod choose;
mod folders;
mod job;
mod lines;
mod look;
mod paths;
mod prepared;
mod put;
mod record;
mod road;
mod run;
mod see;
mod store;
mod summary;
mod tracked;
mod turn;
mod turns;
mod work;

pub use answer::params_answer;
pub use summary::Summary;
pub use turn::take_turn;
pub use turns::take_turns;
