//! Paths, texts, lists of them and faults: the words that every crate of the tool shares.
#![tactic(auto)]

mod compare;
mod data;
mod fault;
mod fault_text;
mod limits;
mod list;
mod memory;
mod name;
mod node;
mod path;
mod text;
mod writer;

pub use data::{Key, KeyValues, Names, ParamFile, ParamFiles, Rels};
pub use fault::{Fault, FaultKind};
pub use fault_text::{FaultText, Part};
pub use limits::What;
pub use list::{Numbers, Plural, Texts};
pub use memory::{Failed, NoMemory, Plain};
pub use name::Name;
pub use node::{Node, Nodes, Pair, PairList, YamlFault};
pub use path::{MAX_PATH, PathFault, Rel, is_at_or_below, is_same, lies_in, overlaps};
pub use text::{Bytes, Text};
pub use writer::Writer;
