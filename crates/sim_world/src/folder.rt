// What a folder of the tree holds: the names in it, and its files as a value.
ghost use Rattle.std.specs.Prelude.{◌≡◌, ◌++◌, None, IfOk, OnOk};
ghost use Rattle.std.specs.FinMap.{entries, from_entries};
ghost use Rattle.world_api.specs.Tree.{file, item_at, name_below, names_in, member_of, members_of, value_at};
ghost use Rattle.world_api.specs.Writes.{IsFolderAt};
ghost use Rattle.sim_world.specs.Answer.{plain_value};
ghost use Rattle.sim_world.specs.Folder.{with_entries};
ghost use Rattle.sim_world.specs.Item.{bytes_of};
ghost use Rattle.sim_world.specs.Sorted.{pairs_of};

use crate::paths::path_within;
use crate::sorted::{Member, Sorted};
use crate::tree::Node;
use crate::{FileMap, Tree, Value};
use dvc_base::{Bytes, NoMemory, Plain, Rel, Texts, is_at_or_below};
use std::alloc::Global;

// The names of what stands directly in the folder, in the order of their bytes.
pub(crate) fn names_in(alloc: Global, tree: &Tree, at: &Rel) -> Result<Texts, NoMemory>
    ensures told { IfOk result (λ names. names ≡ names_in tree.now at.now) }
{
    let mut names = Texts::new(alloc);
    for member in tree.members() {
        push_name(alloc, &mut names, at, &member.path)?;
    }
    Ok(names)
}

// Adds the name of the path, if it lies directly in the folder.
fn push_name(alloc: Global, names: &mut Texts, at: &Rel, path: &Rel) -> Result<(), NoMemory>
    ensures pushed { OnOk result (names.new ≡ names.old ++ name_below at.now path.now) }
{
    let above = at.parts().len();
    let parts = path.parts();
    if parts.len() != above + 1 || !is_at_or_below(path, at) {
        return Ok(());
    }
    names.push(parts[above].copy(alloc)?)
}

// The value at the path.
pub(crate) fn value_of(alloc: Global, tree: &Tree, at: &Rel) -> Result<Value, NoMemory>
    ensures told { IfOk result (λ value. value ≡ plain_value (value_at tree.now at.now)) }
{
    match tree.file(at) {
        Some(bytes) => Ok(Value::File(Bytes::of(alloc, bytes)?)),
        None => folder_value(alloc, tree, at),
    }
}

// The value at a path where no file stands.
fn folder_value(alloc: Global, tree: &Tree, at: &Rel) -> Result<Value, NoMemory>
    requires { bytes_of (item_at tree.now at.now) ≡ None }
    ensures told { IfOk result (λ value. value ≡ plain_value (value_at tree.now at.now)) }
{
    if !tree.is_folder(at) {
        return Ok(Value::Nothing);
    }
    Ok(Value::Files(files_below(alloc, tree, at)?))
}

fn files_below(alloc: Global, tree: &Tree, at: &Rel) -> Result<FileMap, NoMemory>
    requires { IsFolderAt tree.now at.now }
    ensures told { IfOk result (λ map. map ≡ from_entries (members_of at.now (entries tree.now))) }
{
    tree.check();
    let files = collect(alloc, tree.members(), at)?;
    Ok(FileMap::of(files))
}

fn collect(alloc: Global, members: &[Member<Node>], at: &Rel) -> Result<Sorted<Bytes>, NoMemory>
    ensures told { IfOk result (λ files. files ≡ from_entries (members_of at.now (pairs_of members.now))) }
{
    let mut files = Sorted::new(alloc);
    let mut rest = members.len();
    while rest > 0 {
        rest -= 1;
        add_member(alloc, &mut files, at, &members[rest])?;
    }
    Ok(files)
}

// Adds what stands there, if it is a file at or below the path.
fn add_member(
    alloc: Global,
    files: &mut Sorted<Bytes>,
    at: &Rel,
    member: &Member<Node>,
) -> Result<(), NoMemory>
    ensures added { OnOk result (files.new ≡ with_entries (member_of at.now member.now.path member.now.value) files.old) }
{
    match member.value.bytes() {
        None => Ok(()),
        Some(bytes) => add_file(alloc, files, at, &member.path, bytes),
    }
}

fn add_file(
    alloc: Global,
    files: &mut Sorted<Bytes>,
    at: &Rel,
    path: &Rel,
    bytes: &[u8],
) -> Result<(), NoMemory>
    ensures added { OnOk result (files.new ≡ with_entries (member_of at.now path.now (file bytes.now)) files.old) }
{
    if !is_at_or_below(path, at) {
        return Ok(());
    }
    let rest = path_within(alloc, at, path)?;
    files.put(rest, Bytes::of(alloc, bytes)?)
}
