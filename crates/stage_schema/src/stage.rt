// What a stage of `dvc.yaml` says.
ghost use Rattle.std.specs.Prelude.{◌≡◌, []};
ghost use Rattle.stage_schema.specs.Stages.{stage_with};

use dvc_base::{NoMemory, Plain, Plural, Rel, Text, Texts};
use std::alloc::Global;

/// A path that a stage writes.
#[derive(Drop)]
pub struct Out {
    pub path: Text,
    /// Whether its value is kept in the cache.
    pub cached: bool,
}

/// A list of outputs.
pub type Outs = Plural<Out>;

/// A parameter file with the keys of it that a stage tracks.
#[derive(Drop)]
pub struct ParamWant {
    pub file: Text,
    pub keys: Texts,
    /// Whether each top-level key of the file is tracked. Then no key is named.
    pub all: bool,
}

/// A list of parameter files.
pub type ParamWants = Plural<ParamWant>;

/// A stage: commands that make outputs from dependencies and parameters.
#[derive(Drop)]
pub struct Stage {
    pub name: Text,
    /// The name that a template has as written; the empty text for a stage that no template made.
    pub group: Text,
    pub commands: Texts,
    /// The folder in which the commands run, and from which the texts below are read as paths.
    pub dir: Rel,
    pub deps: Texts,
    pub params: ParamWants,
    pub outs: Outs,
    /// Whether it is never run.
    pub frozen: bool,
    /// Whether it is run each time.
    pub always: bool,
}

/// Stages in the order in which they are written.
pub type Stages = Plural<Stage>;

impl Plain for Out {
    fn copy(&self, alloc: Global) -> Result<Out, NoMemory> {
        Ok(Out {
            path: self.path.copy(alloc)?,
            cached: self.cached,
        })
    }
}

impl Plain for ParamWant {
    fn copy(&self, alloc: Global) -> Result<ParamWant, NoMemory> {
        Ok(ParamWant {
            file: self.file.copy(alloc)?,
            keys: self.keys.copy(alloc)?,
            all: self.all,
        })
    }
}

impl Stage {
    /// A stage of these names that says nothing else: it runs in the root.
    pub(crate) fn named(alloc: Global, name: Text, group: Text) -> Stage
        ensures exact { result ≡ stage_with name group [] }
    {
        Stage {
            name,
            group,
            commands: Texts::new(alloc),
            dir: Rel::root(alloc),
            deps: Texts::new(alloc),
            params: ParamWants::new(alloc),
            outs: Outs::new(alloc),
            frozen: false,
            always: false,
        }
    }
}
