// A world in memory: a tree, the jobs that were run, and the log of changes from which its history is told.
ghost use Rattle.std.specs.Prelude.{◌≡◌, ◌≢◌, [], Some, None, OnOk, IfOk, MatchResult, IsErr, Ok};
ghost use Rattle.std.specs.Coded.{Coded-set};
ghost use Rattle.world_api.specs.History.{HasCause};
ghost use Rattle.world_api.specs.Outside.{tree_of, jobs_of};
ghost use Rattle.sim_world.specs.Answer.{effect_of};
ghost use Rattle.sim_world.specs.Applied.{tree_after, jobs_after};
ghost use Rattle.sim_world.specs.Call.{Makes, IsSame, Counted, IsEdited};
ghost use Rattle.sim_world.specs.Change.{opened, edited, changed, grown, met_at};
ghost use Rattle.sim_world.specs.Stands.{AreTrees, AreTrees-prop};
ghost use Rattle.sim_world.specs.TreeCode.{tree_code};

use crate::change::{Change, record_change};
use crate::{Rule, Tree, Value};
use dvc_base::{Failed, NoMemory, Plain, Plural, Rel};
use std::alloc::Global;
use std::marker::PhantomData;
use world_api::{Ground, Job};

/// A list of jobs.
pub type Jobs = Plural<Job>;

/// A world that holds its files in memory and answers commands by a rule. It tells everything.
#[derive(Drop)]
pub struct SimWorld<R: Rule> {
    alloc: Global,
    opening: Tree,
    log: Vec<Change>,
    tree: Tree,
    jobs: Jobs,
    failed: u64,
    starved: u64,
    rule: PhantomData<R>,
    ghost trees: { AreTrees opening log.items } by { AreTrees-prop opening log.items },
    ghost tree_is: { tree ≡ tree_after opening log.items } by { Coded-set tree_code _ _ },
    ghost jobs_are: { jobs ≡ jobs_after [] log.items } by { Coded-set jobs-code _ _ },
}

impl<R: Rule> Ground for SimWorld<R> {
    ghost use Rattle.std.specs.Prelude.{true, []};
    ghost use Rattle.sim_world.specs.Answer.{effect_of};
    ghost use Rattle.sim_world.specs.Change.{history_of};

    ghost tells = { true };

    ghost faults = { λ w. record { origin = []; count = w.failed } };

    ghost history = { λ w. history_of (effect_of R.effect) w.opening w.log.items };
}

impl<R: Rule> SimWorld<R> {
    ghost use Rattle.sim_world.specs.World.{history_in, counts_in};

    /// A world that holds the tree: nothing is loose, no job has run, nothing has failed.
    pub fn new(alloc: Global, tree: Tree) -> Result<SimWorld<R>, NoMemory>
        ensures told { IfOk result (λ world. history_in world
            ≡ record { present = opened (effect_of R.effect) tree; past = []; under = [] }) }
        ensures count { IfOk result (λ world. counts_in world ≡ record { failed = 0; starved = 0 }) }
    {
        tree.check();
        let opening = tree.copy(alloc)?;
        Ok(SimWorld {
            alloc,
            opening,
            log: Vec::new(alloc),
            tree,
            jobs: Jobs::new(alloc),
            failed: 0,
            starved: 0,
            rule: PhantomData,
        })
    }

    /// Puts the value at the path, in place of what stands there. A file gets the folders above it, in place of a file
    /// there. It is one moment, and what it wrote isn't loose.
    pub fn edit(&mut self, at: &Rel, value: &Value) -> Result<(), NoMemory>
        requires { at.now ≢ [] }
        ensures made { Makes result (grown (edited at.now value.now)) IsSame
            (history_in self.old) (history_in self.new) }
        ensures edited { OnOk result (IsEdited at.now value.now
            (history_in self.old).present (history_in self.new).present) }
        ensures count { counts_in self.new ≡ counts_in self.old }
    {
        value.check();
        let at = at.copy(self.alloc)?;
        let value = value.copy(self.alloc)?;
        self.make(Change::Edited { at, value })
    }

    /// Adds the value at the path to the contents that were met: its bytes, and of a folder its listing's text. The tree
    /// stays as it is. It is one moment.
    pub fn meet(&mut self, at: &Rel) -> Result<(), NoMemory>
        ensures made { Makes result (grown (met_at at.now)) IsSame
            (history_in self.old) (history_in self.new) }
        ensures count { counts_in self.new ≡ counts_in self.old }
    {
        let at = at.copy(self.alloc)?;
        self.make(Change::Met { at })
    }

    /// What stands there now.
    pub fn tree(&self) -> &Tree
        ensures told { result.now ≡ tree_of (history_in self.now) }
    {
        &self.tree
    }

    /// The jobs that were run so far.
    pub fn jobs(&self) -> &Jobs
        ensures told { result.now ≡ jobs_of (history_in self.now) }
    {
        &self.jobs
    }

    /// How many growths found no memory in a trait's call.
    pub fn starved(&self) -> u64
        ensures told { result ≡ (counts_in self.now).starved }
    {
        self.starved
    }

    pub(crate) fn alloc(&self) -> Global {
        self.alloc
    }

    // Makes the change, or does nothing at all.
    pub(crate) fn make(&mut self, change: Change) -> Result<(), NoMemory>
        ensures made { Makes result (grown (changed change)) IsSame
            (history_in self.old) (history_in self.new) }
        ensures count { counts_in self.new ≡ counts_in self.old }
    {
        record_change(
            self.alloc,
            &mut self.log,
            &mut self.tree,
            &mut self.jobs,
            change,
        )
    }

    // Counts a refusal of memory.
    pub(crate) fn counted<T>(&mut self, answer: Result<T, NoMemory>) -> Result<T, Failed>
        ensures answer { MatchResult answer (λ value. result ≡ Ok value) (λ _. IsErr result) }
        ensures same { history_in self.new ≡ history_in self.old }
        ensures count { Counted result (counts_in self.old) (counts_in self.new) }
    {
        match answer {
            Ok(value) => Ok(value),
            Err(_) => {
                self.failed = self.failed.saturating_add(1);
                self.starved = self.starved.saturating_add(1);
                Err(Failed)
            }
        }
    }
}
