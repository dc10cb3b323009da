//! A world in memory, which tells all that it holds; a sink in memory; and a rule that answers a few commands.
#![tactic(auto)]

mod change;
mod file_map;
mod files;
mod folder;
mod lanes;
mod law;
mod paths;
mod pipe;
mod rule;
mod shell;
mod sink;
mod sorted;
mod tree;
mod value;
mod world;

pub use file_map::FileMap;
pub use law::book_law;
pub use pipe::Pipe;
pub use rule::{Given, Made, Rule};
pub use sink::MemSink;
pub use tree::Tree;
pub use value::{PathValue, PathValues, Value};
pub use world::{Jobs, SimWorld};
