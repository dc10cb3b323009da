// A stage as its turn sees it, and what the turn may choose.
use dvc_base::{Plural, Rel, Text, Texts};

/// A dependency of a stage.
#[derive(Drop)]
pub struct Dep {
    /// The text that names it from the stage's folder.
    pub text: Text,
    pub path: Rel,
    /// Whether it lies inside an output of a stage that may run.
    pub inside: bool,
}

/// An output of a stage.
#[derive(Drop)]
pub struct Out {
    /// The text that names it from the stage's folder.
    pub text: Text,
    pub path: Rel,
    /// Whether it goes into the cache.
    pub cached: bool,
}

/// A file of parameters, and which of its keys a stage tracks.
#[derive(Drop)]
pub struct Tracked {
    /// The text that names the file from the stage's folder.
    pub text: Text,
    pub path: Rel,
    pub keys: Texts,
    /// Whether each key of the file is tracked.
    pub all: bool,
}

/// A stage whose turn may come: commands that make outputs from dependencies and parameters. Its lists stand both as they are
/// written and in the order of their texts' bytes, so that no turn has to sort them.
#[derive(Drop)]
pub struct Stage {
    pub name: Text,
    pub commands: Texts,
    /// The folder in which the commands run, and from which texts name paths.
    pub dir: Rel,
    /// The dependencies as they are written.
    pub looks: Plural<Dep>,
    /// The dependencies in order.
    pub deps: Plural<Dep>,
    pub params: Plural<Tracked>,
    /// The outputs as they are written.
    pub outs: Plural<Out>,
    /// The outputs in order.
    pub made: Plural<Out>,
    /// Whether it always counts as changed.
    pub always: bool,
}

/// Stages in the order in which they have their turns.
pub type Stages = Plural<Stage>;

/// What is asked of turns beside the stages.
#[derive(Clone, Copy, Debug, PartialEq, Eq)]
pub struct Flags {
    /// Each stage is run.
    pub force: bool,
    /// Outputs may come back from the cache.
    pub run_cache: bool,
}

/// What a turn does for its stage.
#[derive(Clone, Copy, Debug, PartialEq, Eq)]
pub enum Choice {
    /// Nothing but to put what is missing into the cache: what is remembered of the stage is what stands there.
    Skip,
    /// The outputs come back from the cache.
    Restore,
    /// The outputs are cleared and the commands run.
    Run,
}
