//! The nodes of a YAML text.
#![tactic(auto)]

mod block;
mod document;
mod flow;
mod law;
mod pairing;
mod part;

pub use document::parse;
pub use law::grammar_law;
