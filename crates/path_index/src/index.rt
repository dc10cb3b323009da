// Paths that are asked which of them overlap one.
ghost use Rattle.std.specs.Prelude.{◌≡◌, ◌<◌, ℕ, length, IfOk, IfSome, OnOk};
ghost use Rattle.std.specs.List.{find};
ghost use Rattle.std.specs.Option.{option_copied};
ghost use Rattle.dvc_base.specs.Path.{overlap};
ghost use Rattle.path_index.specs.Overlap.{first_overlap, overlapping};
ghost use Rattle.path_index.specs.Table.{is_in, is_at};

use crate::least::{earlier, least};
use crate::set::{add, listed};
use crate::table::table_of;
use dvc_base::{NoMemory, Rel, Rels};
use std::alloc::Global;
use std::collections::BTreeSet;
use std::marker::Model;

/// Paths that can be asked which of them overlap one.
#[derive(Drop)]
pub struct PathIndex {
    pub(crate) paths: Rels,
    // The places of the paths, in the order of the paths' components: those that begin alike stand side by side.
    pub(crate) order: Vec<usize>,
}

impl Model for PathIndex {
    ghost use Rattle.std.specs.Prelude.{List};
    ghost use Rattle.dvc_base.specs.Path.{Path};
    ghost use Rattle.path_index.specs.Table.{IsTable};

    ghost Value = { List Path };

    ghost view = { λ index. index.paths };

    ghost invariant = { λ index. IsTable index.paths index.order.items };
}

impl PathIndex {
    /// The index of these paths.
    pub fn of(alloc: Global, paths: Rels) -> Result<PathIndex, NoMemory>
        ensures same { IfOk result (λ index. index ≡ paths) }
    {
        let order = table_of(alloc, paths.as_slice())?;
        Ok(PathIndex { paths, order })
    }

    /// The paths, in the order in which they were given.
    pub fn paths(&self) -> &[Rel]
        ensures same { result.now ≡ self.now }
    {
        self.paths.as_slice()
    }

    /// The place of the first path that overlaps this one.
    pub fn first_overlap(&self, path: &Rel) -> Option<usize>
        ensures exact { result ≡ first_overlap self.now path.now }
        ensures within { IfSome result (λ place. place < length self.now) }
    {
        let parts = path.parts();
        let below = least(self.run(parts, parts.len()));
        earlier(self.first_around(path), below)
    }

    /// The first path that overlaps this one.
    pub fn first(&self, path: &Rel) -> Option<&Rel>
        ensures exact { option_copied result ≡ find (λ q. overlap q path.now) self.now }
    {
        let place = self.first_overlap(path)?;
        self.paths().get(place)
    }

    /// The places of all paths that overlap this one.
    pub fn overlapping(&self, alloc: Global, path: &Rel) -> Result<Vec<usize>, NoMemory>
        ensures exact { IfOk result (λ places. places.items ≡ overlapping self.now path.now) }
    {
        let found = self.found(alloc, path)?;
        listed(alloc, &found)
    }

    fn found(&self, alloc: Global, path: &Rel) -> Result<BTreeSet<usize>, NoMemory>
        ensures exact { IfOk result (λ found. (n : ℕ) → is_in found.keys n ≡ is_at (λ q. overlap q path.now) self.now n) }
    {
        let parts = path.parts();
        let mut found = BTreeSet::new(alloc);
        add(&mut found, self.run(parts, parts.len()))?;
        for depth in 0..parts.len() {
            add(&mut found, self.run(&parts[..depth], depth + 1))?;
        }
        Ok(found)
    }
}
