// The files of a folder, with their sizes: they are found before any of them is read.
ghost use Rattle.std.specs.Prelude.{◌≡◌, [], ◌∷◌, ◌++◌, length, IsTrue, IfOk, IfErr, IsErrOf, OnOk, MatchResult};
ghost use Rattle.dvc_base.specs.Path.{Path, path_text};
ghost use Rattle.dvc_base.specs.Normal.{IsName, IsNormal};
ghost use Rattle.world_api.specs.Tree.{item_at, names_in};
ghost use Rattle.std.specs.FinMap.{entries};
ghost use Rattle.world_api.specs.Calls.{AreNames};
ghost use Rattle.world_api.specs.Writes.{IsFolderAt};
ghost use Rattle.world_api.specs.Outside.{tree_of, IsUntouched};
ghost use Rattle.world_api.specs.History.{IsCaused};
ghost use Rattle.file_hash.specs.Walk.{below, Walks, Finds, IsRefusal, IsWalkFault, IsSeen, IsSeenAt, IsLook, IsLong, IsAdded, IsAddFault, nothing_met};
ghost use Rattle.file_hash.specs.declared.fault.HashFault.TheVariants.{Failed as Blamed};

use crate::HashFault;
use dvc_base::{PathFault, Plural, Rel, Text, Texts, What};
use std::alloc::Global;
use world_api::{Kind, ListFault, ReadFiles};

/// A file of a folder: its path from there, and the size that it was told to have.
#[derive(Drop)]
pub struct Found {
    pub path: Rel,
    pub size: u64,
}

/// What a walk has met so far: the files, and how many bytes they have together.
#[derive(Drop)]
pub struct Met {
    pub found: Plural<Found>,
    pub size: u64,
}

// What stands at a path of the walk.
#[derive(Drop)]
enum Seen {
    Nothing,
    File { path: Rel, size: u64 },
    Folder { path: Rel },
}

/// The files below the folder at a path.
pub fn find_files<F: ReadFiles>(alloc: Global, files: &mut F, at: &Rel) -> Result<Met, HashFault>
    requires folder { IsTrue F.tells → IsFolderAt (tree_of (F.history files.old)) at.now }
    ensures walked { IsTrue F.tells → IfOk result
        (Walks at.now (below at.now (entries (tree_of (F.history files.old)))) nothing_met) }
    ensures refused { IsTrue F.tells → IfErr result
        (IsRefusal nothing_met (below at.now (entries (tree_of (F.history files.old))))) }
    ensures found { IfOk result (Finds [] nothing_met) }
    ensures kinds { IfErr result IsWalkFault }
    ensures unchanged { IsUntouched F.tells (F.history files.old) (F.history files.new) }
    ensures cause { IsCaused (F.faults files.old) (F.faults files.new) (IsErrOf result Blamed) }
{
    let mut met = Met {
        found: Plural::new(alloc),
        size: 0,
    };
    walk(alloc, files, at, &Rel::root(alloc), &mut met)?;
    Ok(met)
}

// Adds the files below a folder, whose path from the one that is walked is `inner`.
fn walk<F: ReadFiles>(
    alloc: Global,
    files: &mut F,
    at: &Rel,
    inner: &Rel,
    met: &mut Met,
) -> Result<(), HashFault>
    requires folder { IsTrue F.tells → IsFolderAt (tree_of (F.history files.old)) (at.now ++ inner.now) }
    ensures walked { IsTrue F.tells → OnOk result
        (Walks at.now (below (at.now ++ inner.now) (entries (tree_of (F.history files.old)))) met.old met.new) }
    ensures refused { IsTrue F.tells → IfErr result
        (IsRefusal met.old (below (at.now ++ inner.now) (entries (tree_of (F.history files.old))))) }
    ensures found { OnOk result (Finds inner.now met.old met.new) }
    ensures kinds { IfErr result IsWalkFault }
    ensures unchanged { IsUntouched F.tells (F.history files.old) (F.history files.new) }
    ensures cause { IsCaused (F.faults files.old) (F.faults files.new) (IsErrOf result Blamed) }
{
    let names = names_at(alloc, files, at, inner)?;
    for name in names.as_slice() {
        match look(alloc, files, at, inner, name)? {
            Seen::Nothing => {}
            Seen::File { path, size } => add(met, path, size)?,
            Seen::Folder { path } => walk(alloc, files, at, &path, met)?,
        }
    }
    Ok(())
}

// The names in a folder.
fn names_at<F: ReadFiles>(
    alloc: Global,
    files: &mut F,
    at: &Rel,
    inner: &Rel,
) -> Result<Texts, HashFault>
    requires folder { IsTrue F.tells → IsFolderAt (tree_of (F.history files.old)) (at.now ++ inner.now) }
    ensures told { IsTrue F.tells → IfOk result (λ names.
        names ≡ names_in (tree_of (F.history files.old)) (at.now ++ inner.now)) }
    ensures good { IfOk result AreNames }
    ensures kinds { IfErr result (IsLook (at.now ++ inner.now)) }
    ensures unchanged { IsUntouched F.tells (F.history files.old) (F.history files.new) }
    ensures cause { IsCaused (F.faults files.old) (F.faults files.new) (IsErrOf result Blamed) }
{
    let _ = inner.parts();
    let here = follow(alloc, at, inner.text())?;
    match files.list(alloc, &here) {
        Ok(names) => Ok(names),
        Err(ListFault::Failed) => Err(HashFault::Failed),
        Err(ListFault::NoMemory) => Err(HashFault::NoMemory),
    }
}

// What stands below a name in a folder.
fn look<F: ReadFiles>(
    alloc: Global,
    files: &mut F,
    at: &Rel,
    inner: &Rel,
    name: &Text,
) -> Result<Seen, HashFault>
    requires name { IsName name.now }
    ensures told { IsTrue F.tells → IfOk result
        (IsSeen (item_at (tree_of (F.history files.old)) (at.now ++ (inner.now ++ name.now ∷ [])))) }
    ensures seen { IfOk result (IsSeenAt (inner.now ++ name.now ∷ [])) }
    ensures kinds { IfErr result (IsLook (at.now ++ (inner.now ++ name.now ∷ []))) }
    ensures unchanged { IsUntouched F.tells (F.history files.old) (F.history files.new) }
    ensures cause { IsCaused (F.faults files.old) (F.faults files.new) (IsErrOf result Blamed) }
{
    let path = follow(alloc, inner, name.as_str())?;
    let _ = path.parts();
    let whole = follow(alloc, at, path.text())?;
    match files.kind(&whole) {
        Ok(Kind::Missing) => Ok(Seen::Nothing),
        Ok(Kind::File { size }) => Ok(Seen::File { path, size }),
        Ok(Kind::Folder) => Ok(Seen::Folder { path }),
        Err(_) => Err(HashFault::Failed),
    }
}

// The path that the text of another one leads to from this one. Such a text leads to no other refusal.
pub fn follow(alloc: Global, from: &Rel, text: &str) -> Result<Rel, HashFault>
    ensures exact { (q : Path) → IsNormal q → text.now ≡ path_text q → MatchResult result
        (λ path. path ≡ from.now ++ q) (IsLong (from.now ++ q)) }
{
    match from.join(alloc, text) {
        Ok(path) => Ok(path),
        Err(PathFault::TooLong) => Err(HashFault::TooLarge {
            what: What::Path,
            limit: What::Path.limit(),
        }),
        Err(_) => Err(HashFault::NoMemory),
    }
}

// Adds a file, where no limit is passed by it.
fn add(met: &mut Met, path: Rel, size: u64) -> Result<(), HashFault>
    ensures added { OnOk result (IsAdded met.old path size met.new) }
    ensures refused { IfErr result (IsAddFault met.old size) }
{
    let limit = What::FileSize.limit();
    if met.size.saturating_add(size) > limit {
        return Err(HashFault::TooLarge {
            what: What::FileSize,
            limit,
        });
    }
    let limit = What::Members.limit();
    if met.found.as_slice().len() as u64 >= limit {
        return Err(HashFault::TooLarge {
            what: What::Members,
            limit,
        });
    }
    met.found.push(Found { path, size })?;
    met.size += size;
    Ok(())
}
