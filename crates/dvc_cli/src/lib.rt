//! The words of a command line, the workspace that they speak of, and the top call `dvc`.
#![tactic(auto)]

mod book;
mod command;
mod law;
mod message;
mod room;
mod root;
mod sources;
mod vars;
mod words;
mod workspace;

pub use command::{Done, dvc};
pub use law::{life_law, told_book_law};
pub use message::tell;
