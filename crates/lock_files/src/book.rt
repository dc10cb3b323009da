// The lock book: the entries of stages, in order, each found by its stage's name.
ghost use Rattle.std.specs.Prelude.{◌≡◌, ◌≤◌, [], length, OnOk, OnErr, IfOk, MatchOption, Some, slice_get, option_copied};
ghost use Rattle.lock_files.specs.Book.{entry_of, set};

use crate::Entry;
use dvc_base::NoMemory;
use indexmap::IndexMap;
use std::alloc::Global;
use std::marker::Model;

/// The entries of stages in order. No two stages have one name.
#[derive(Drop)]
pub struct LockBook {
    stages: IndexMap<String, Entry>,
}

impl Model for LockBook {
    ghost use Rattle.std.specs.Prelude.{map, string_bytes};
    ghost use Rattle.lock_files.specs.Book.{Lock};
    ghost use Rattle.std.specs.Coded.{codes};
    ghost use Rattle.dvc_base.specs.contracts.node.Pair as pair;

    ghost Value = { Lock };

    ghost coded = { Prim.hlevel (codes, pair.the_row.coded) };

    ghost view = { λ b. map (λ e. (string_bytes e.0, e.1)) b.stages.entries };
}

impl LockBook {
    /// The empty book, which takes no memory.
    pub fn new(alloc: Global) -> LockBook
        ensures empty { result ≡ [] }
    {
        LockBook {
            stages: IndexMap::new(alloc),
        }
    }

    /// How many stages have an entry.
    pub fn len(&self) -> usize
        ensures count { result ≡ length self.now }
    {
        self.stages.len()
    }

    /// What is remembered of a stage.
    pub fn get(&self, stage: &str) -> Option<&Entry>
        ensures by_name { option_copied result ≡ entry_of self.now stage.now }
    {
        self.stages.get(stage)
    }

    /// The stage at a place, with what is remembered of it.
    pub fn at(&self, place: usize) -> Option<(&str, &Entry)>
        ensures by_place { MatchOption result
            (length self.now ≤ place)
            (λ stage. slice_get self.now place ≡ Some (stage.0.now, stage.1.now)) }
    {
        let (stage, entry) = self.stages.get_index(place)?;
        Some((stage.as_str(), entry))
    }

    /// Remembers an entry: that of a present stage keeps its place, a new one goes last.
    pub fn set(&mut self, alloc: Global, stage: &str, entry: Entry) -> Result<(), NoMemory>
        ensures ok { OnOk result (self.new ≡ set self.old stage.now entry) }
        ensures err { OnErr result (self.new ≡ self.old) }
    {
        let stage = String::from_str(alloc, stage)?;
        self.stages.insert(stage, entry)?;
        Ok(())
    }
}
