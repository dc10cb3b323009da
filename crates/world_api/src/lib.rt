//! The traits of the outside: what the tool asks of files, of programs and of an output, and what it may rest on.
//!
//! A world tells what it holds, or tells nothing; clauses on content hold where it tells.
#![tactic(auto)]

mod files;
mod ground;
mod job;
mod layout;
mod shell;
mod sink;

pub use files::{Files, Kind, ListFault, ReadFiles};
pub use ground::Ground;
pub use job::{Exit, Job};
pub use layout::{dvc_path, lane_path, lock_path, tmp_path, yaml_path};
pub use shell::{Shell, World};
pub use sink::Sink;
