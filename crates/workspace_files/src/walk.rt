// The walk over a workspace: what stands there is met, folder by folder, and nothing is read.
ghost use Rattle.std.specs.Prelude.{◌≡◌, ◌≤◌, [], ◌∷◌, ◌++◌, false, IsTrue, IfOk, IfErr, IfSome, IsErrOf, OnOk, MatchResult};
ghost use Rattle.std.specs.FinMap.{entries};
ghost use Rattle.dvc_base.specs.Normal.{IsName};
ghost use Rattle.dvc_base.specs.Limits.{limit_of};
ghost use Rattle.dvc_base.specs.declared.limits.What.TheVariants as w;
ghost use Rattle.file_hash.specs.Walk.{below};
ghost use Rattle.world_api.specs.Tree.{item_at, names_in};
ghost use Rattle.world_api.specs.Calls.{AreNames};
ghost use Rattle.world_api.specs.Writes.{IsFolderAt};
ghost use Rattle.world_api.specs.Outside.{tree_of, IsUntouched};
ghost use Rattle.world_api.specs.History.{IsCaused};
ghost use Rattle.workspace_files.specs.Walk.{is_left_out};
ghost use Rattle.workspace_files.specs.Met.{Walks, IsRefusal, IsFree, IsMet, IsVisit, IsVisitFault, IsInner, IsLongFault, IsCounted, IsCountFault, IsAdded, IsAddFault, nothing_met};
ghost use Rattle.workspace_files.specs.declared.walk.WalkFault.TheVariants.{Failed as Blamed};

use crate::name::{is_ignore_path, is_left_out, is_track_path};
use dvc_base::{NoMemory, PathFault, Rel, Rels, Text, Texts, What};
use std::alloc::Global;
use world_api::{Kind, ListFault, ReadFiles};

/// What a walk has met so far.
#[derive(Drop)]
pub struct Met {
    /// The files of rules, in the order of the walk.
    pub ignores: Rels,
    /// The track files, in the order of the walk.
    pub tracks: Rels,
    /// How many paths were seen.
    pub seen: u64,
}

/// Why a walk was given up.
#[derive(Clone, Copy, Debug, PartialEq, Eq)]
pub enum WalkFault {
    /// A path is longer than the tool takes.
    LongPath,
    /// There are more paths than the tool takes.
    ManyPaths,
    /// A call to the files failed.
    Failed,
    /// Memory ran out.
    NoMemory,
}

impl From<NoMemory> for WalkFault {
    ghost use Rattle.workspace_files.specs.declared.walk.WalkFault.TheVariants.{NoMemory as Memory};

    ghost from_gives = { λ _ fault. fault ≡ Memory };

    fn from(_: NoMemory) -> WalkFault {
        WalkFault::NoMemory
    }
}

/// Walks over the whole workspace.
pub fn walk_all<F: ReadFiles>(alloc: Global, files: &mut F) -> Result<Met, WalkFault>
    ensures walked { IsTrue F.tells → IfOk result (Walks (entries (tree_of (F.history files.old))) nothing_met) }
    ensures refused { IsTrue F.tells → IfErr result (IsRefusal (entries (tree_of (F.history files.old))) nothing_met) }
    ensures good { IfOk result IsMet }
    ensures unchanged { IsUntouched F.tells (F.history files.old) (F.history files.new) }
    ensures cause { IsCaused (F.faults files.old) (F.faults files.new) (IsErrOf result Blamed) }
{
    let mut met = Met {
        ignores: Rels::new(alloc),
        tracks: Rels::new(alloc),
        seen: 0,
    };
    walk(alloc, files, &Rel::root(alloc), &mut met)?;
    Ok(met)
}

// Meets what lies below a folder. Calls stand in one another no deeper than components in a path.
fn walk<F: ReadFiles>(
    alloc: Global,
    files: &mut F,
    at: &Rel,
    met: &mut Met,
) -> Result<(), WalkFault>
    requires folder { IsTrue F.tells → IsFolderAt (tree_of (F.history files.old)) at.now }
    requires met { IsMet met.old }
    ensures walked { IsTrue F.tells → OnOk result
        (Walks (below at.now (entries (tree_of (F.history files.old)))) met.old met.new) }
    ensures refused { IsTrue F.tells → IfErr result
        (IsRefusal (below at.now (entries (tree_of (F.history files.old)))) met.old) }
    ensures good { OnOk result (IsMet met.new) }
    ensures unchanged { IsUntouched F.tells (F.history files.old) (F.history files.new) }
    ensures cause { IsCaused (F.faults files.old) (F.faults files.new) (IsErrOf result Blamed) }
{
    let names = names_at(alloc, files, at)?;
    for name in names.as_slice() {
        match visit(alloc, files, at, name, met)? {
            Some(inner) => walk(alloc, files, &inner, met)?,
            None => {}
        }
    }
    Ok(())
}

// The names in a folder.
fn names_at<F: ReadFiles>(alloc: Global, files: &mut F, at: &Rel) -> Result<Texts, WalkFault>
    requires folder { IsTrue F.tells → IsFolderAt (tree_of (F.history files.old)) at.now }
    ensures told { IsTrue F.tells → IfOk result (λ names.
        names ≡ names_in (tree_of (F.history files.old)) at.now) }
    ensures good { IfOk result AreNames }
    ensures free { IfErr result IsFree }
    ensures unchanged { IsUntouched F.tells (F.history files.old) (F.history files.new) }
    ensures cause { IsCaused (F.faults files.old) (F.faults files.new) (IsErrOf result Blamed) }
{
    match files.list(alloc, at) {
        Ok(names) => Ok(names),
        Err(ListFault::Failed) => Err(WalkFault::Failed),
        Err(ListFault::NoMemory) => Err(WalkFault::NoMemory),
    }
}

// Meets what stands at a name in a folder. A folder that isn't left out is answered.
fn visit<F: ReadFiles>(
    alloc: Global,
    files: &mut F,
    at: &Rel,
    name: &Text,
    met: &mut Met,
) -> Result<Option<Rel>, WalkFault>
    requires name { IsName name.now }
    requires met { IsMet met.old }
    ensures visited { IsTrue F.tells → IfOk result (IsVisit (at.now ++ name.now ∷ [])
        (item_at (tree_of (F.history files.old)) (at.now ++ name.now ∷ [])) met.old met.new) }
    ensures refused { IsTrue F.tells → IfErr result (IsVisitFault (at.now ++ name.now ∷ [])
        (item_at (tree_of (F.history files.old)) (at.now ++ name.now ∷ [])) met.old) }
    ensures inner { IfOk result (λ next. IfSome next (IsInner (at.now ++ name.now ∷ []))) }
    ensures good { OnOk result (IsMet met.new) }
    ensures unchanged { IsUntouched F.tells (F.history files.old) (F.history files.new) }
    ensures cause { IsCaused (F.faults files.old) (F.faults files.new) (IsErrOf result Blamed) }
{
    let path = member(alloc, at, name)?;
    if is_left_out(&path) {
        return Ok(None);
    }
    match files.kind(&path) {
        Ok(Kind::Missing) => Ok(None),
        Ok(Kind::File { .. }) => {
            add_file(met, path)?;
            Ok(None)
        }
        Ok(Kind::Folder) => {
            count(met)?;
            Ok(Some(path))
        }
        Err(_) => Err(WalkFault::Failed),
    }
}

// The path of a name in a folder.
fn member(alloc: Global, at: &Rel, name: &Text) -> Result<Rel, WalkFault>
    requires name { IsName name.now }
    ensures exact { MatchResult result (λ path. path ≡ at.now ++ name.now ∷ []) (IsLongFault (at.now ++ name.now ∷ [])) }
{
    match at.join(alloc, name.as_str()) {
        Ok(path) => Ok(path),
        Err(PathFault::TooLong) => Err(WalkFault::LongPath),
        Err(_) => Err(WalkFault::NoMemory),
    }
}

// Counts a path, where the limit isn't passed by it.
fn count(met: &mut Met) -> Result<(), WalkFault>
    requires within { met.old.seen ≤ limit_of w.Paths }
    ensures counted { OnOk result (IsCounted met.old met.new) }
    ensures refused { IfErr result (IsCountFault met.old) }
{
    if met.seen >= What::Paths.limit() {
        return Err(WalkFault::ManyPaths);
    }
    met.seen += 1;
    Ok(())
}

// Adds a file at a path, where it is one that is looked for.
fn add_file(met: &mut Met, path: Rel) -> Result<(), WalkFault>
    requires met { IsMet met.old }
    requires seen { is_left_out path ≡ false }
    ensures added { OnOk result (IsAdded path met.old met.new) }
    ensures refused { IfErr result (IsAddFault met.old) }
    ensures good { OnOk result (IsMet met.new) }
{
    count(met)?;
    if is_ignore_path(&path) {
        met.ignores.push(path)?;
    } else if is_track_path(&path) {
        met.tracks.push(path)?;
    }
    Ok(())
}
