//! YAML both ways: the node of a text, and a text that is read back as the same node.
#![tactic(auto)]

mod reading;

pub use dvc_base::{Node, Nodes, Pair, PairList, YamlFault};
pub use reading::parse;
pub use yaml_nodes::grammar_law;
pub use yaml_print::print;
