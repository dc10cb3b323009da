// What is seen of a stage: what stands at its paths, by name.
use dvc_base::{NoMemory, ParamFiles, Plain, Plural, Text, Texts};
use file_hash::Named;
use std::alloc::Global;

/// A path as a stage names it, with the name of what stands there; none where nothing does.
#[derive(Drop)]
pub struct SeenPath {
    pub path: Text,
    pub named: Option<Named>,
}

/// A list of paths with what is seen there.
pub type SeenPaths = Plural<SeenPath>;

/// What is seen of a stage: its commands, what stands at its dependencies and outputs, and the canonical values of its parameters.
/// Its lists are in the order of their texts' bytes.
#[derive(Drop)]
pub struct Seen {
    pub commands: Texts,
    pub deps: SeenPaths,
    pub params: ParamFiles,
    pub outs: SeenPaths,
}
