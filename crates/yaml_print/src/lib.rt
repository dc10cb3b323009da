//! A node as a YAML text.
#![tactic(auto)]

mod node;
mod scalar_text;

pub use node::print;
