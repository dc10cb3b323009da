// A tree of files and folders, in memory.
ghost use Rattle.std.specs.Prelude.{◌≡◌, ◌≢◌, ◌≤◌, ◌++◌, [], length, IfOk, OnOk, OnErr, option_copied};
ghost use Rattle.std.specs.FinMap.{insert, empty, entries};
ghost use Rattle.world_api.specs.Tree.{IsRelPath, IsTree, Item, item_at, folder, file};
ghost use Rattle.world_api.specs.Calls.{kind_of, parent};
ghost use Rattle.sim_world.specs.Edits.{is_root, is_folder, is_nothing, has_place, without, with_folders, put_member, put_files, edited_tree, left_tree, made_tree, published_tree, put_value, place};
ghost use Rattle.sim_world.specs.Good.{AreFit, IsFit};
ghost use Rattle.sim_world.specs.Item.{item_bytes, bytes_of};
ghost use Rattle.sim_world.specs.Sorted.{pairs_of};

use crate::paths::{check_path, is_root, join_below, parent_of};
use crate::sorted::{Member, Sorted};
use crate::{FileMap, Value};
use dvc_base::{Bytes, NoMemory, Plain, Rel};
use std::alloc::Global;
use std::marker::Model;
use world_api::Kind;

// What stands at one path: a folder where there are no bytes.
#[derive(Drop)]
pub(crate) struct Node {
    bytes: Option<Bytes>,
}

impl Model for Node {
    ghost use Rattle.world_api.specs.Tree.{Item};
    ghost use Rattle.sim_world.specs.Item.{item_from, item_code};

    ghost Value = { Item };

    ghost coded = { item_code };

    ghost view = { λ n. item_from n.bytes };
}

impl Node {
    fn folder() -> Node
        ensures told { result ≡ folder }
    {
        Node { bytes: None }
    }

    fn file(bytes: Bytes) -> Node
        ensures told { result ≡ file bytes }
    {
        Node { bytes: Some(bytes) }
    }

    // The bytes of the file, if it is one.
    pub(crate) fn bytes(&self) -> Option<&[u8]>
        ensures told { option_copied result ≡ item_bytes self.now }
    {
        match &self.bytes {
            None => None,
            Some(bytes) => Some(bytes.as_slice()),
        }
    }
}

impl Plain for Node {
    fn copy(&self, alloc: Global) -> Result<Node, NoMemory> {
        match &self.bytes {
            None => Ok(Node::folder()),
            Some(bytes) => Ok(Node::file(bytes.copy(alloc)?)),
        }
    }
}

/// Files and folders below a root, which is always there.
#[derive(Drop)]
pub struct Tree {
    nodes: Sorted<Node>,
}

impl Model for Tree {
    ghost use Rattle.world_api.specs.Tree.{Tree as Told, IsTree};
    ghost use Rattle.sim_world.specs.TreeCode.{tree_code};

    ghost Value = { Told };

    ghost coded = { tree_code };

    ghost view = { λ t. t.nodes };

    ghost invariant = { λ t. IsTree t.nodes };
}

impl Tree {
    /// The root alone. It takes no memory.
    pub fn new(alloc: Global) -> Tree
        ensures empty { result ≡ empty }
    {
        Tree {
            nodes: Sorted::new(alloc),
        }
    }

    /// What stands at the path.
    pub fn kind(&self, at: &Rel) -> Kind
        ensures told { result ≡ kind_of (item_at self.now at.now) }
    {
        if is_root(at) {
            return Kind::Folder;
        }
        kind_of(self.nodes.get(at))
    }

    /// The bytes of the file at the path, if a file stands there.
    pub fn file(&self, at: &Rel) -> Option<&[u8]>
        ensures told { option_copied result ≡ bytes_of (item_at self.now at.now) }
    {
        if is_root(at) {
            return None;
        }
        match self.nodes.get(at) {
            None => None,
            Some(node) => node.bytes(),
        }
    }

    pub(crate) fn is_folder(&self, at: &Rel) -> bool
        ensures told { result ≡ is_folder (item_at self.now at.now) }
    {
        if is_root(at) {
            return true;
        }
        match self.nodes.get(at) {
            None => false,
            Some(node) => node.bytes().is_none(),
        }
    }

    // All that stands there, in the order of the paths.
    pub(crate) fn members(&self) -> &[Member<Node>]
        ensures all { pairs_of result.now ≡ entries self.now }
    {
        self.nodes.as_slice()
    }

    // Each tree is one: the root isn't listed, and the parent of each member is a folder.
    pub(crate) fn check(&self)
        ensures tree { IsTree self.now }
    {
        let _ = &self.nodes;
    }

    // Takes away what stands at or below the path.
    pub(crate) fn clear(&mut self, at: &Rel)
        ensures cleared { self.new ≡ without at.now self.old }
    {
        self.nodes.remove_below(at);
    }

    // Puts the value at the path in place of what stands there, with the folders above it.
    pub(crate) fn edit(&mut self, alloc: Global, at: &Rel, value: &Value) -> Result<(), NoMemory>
        ensures ok { OnOk result (self.new ≡ edited_tree at.now value.now self.old) }
        ensures err { OnErr result (self.new ≡ self.old) }
    {
        if is_root(at) {
            return Ok(());
        }
        value.check();
        // The change is made to a copy, so that a refusal leaves the tree as it was.
        let mut nodes = self.nodes.copy(alloc)?;
        nodes.remove_below(at);
        put_value(alloc, &mut nodes, at, value)?;
        self.nodes = nodes;
        Ok(())
    }

    // Puts the value at the path in place of what stands there, if the folder above it stands.
    pub(crate) fn leave(&mut self, alloc: Global, at: &Rel, value: &Value) -> Result<(), NoMemory>
        ensures ok { OnOk result (self.new ≡ left_tree at.now value.now self.old) }
        ensures err { OnErr result (self.new ≡ self.old) }
    {
        if !self.has_place(alloc, at)? {
            return Ok(());
        }
        check_path(at);
        value.check();
        let mut nodes = self.nodes.copy(alloc)?;
        nodes.remove_below(at);
        place(alloc, &mut nodes, at, value)?;
        self.nodes = nodes;
        Ok(())
    }

    // Puts a folder at the path in place of a file there, if the folder above it stands.
    pub(crate) fn make(&mut self, alloc: Global, at: &Rel) -> Result<(), NoMemory>
        ensures ok { OnOk result (self.new ≡ made_tree at.now self.old) }
        ensures err { OnErr result (self.new ≡ self.old) }
    {
        if !self.has_place(alloc, at)? {
            return Ok(());
        }
        check_path(at);
        put_folder(alloc, &mut self.nodes, at)
    }

    // Moves the value to the path, in place of what stands there, and takes away what stands where it came from.
    pub(crate) fn publish(
        &mut self,
        alloc: Global,
        from: &Rel,
        at: &Rel,
        value: &Value,
    ) -> Result<(), NoMemory>
        ensures ok { OnOk result (self.new ≡ published_tree from.now at.now value.now self.old) }
        ensures err { OnErr result (self.new ≡ self.old) }
    {
        self.leave(alloc, at, value)?;
        self.clear(from);
        Ok(())
    }

    fn has_place(&self, alloc: Global, at: &Rel) -> Result<bool, NoMemory>
        ensures told { IfOk result (λ has. has ≡ has_place self.now at.now) }
    {
        if is_root(at) {
            return Ok(false);
        }
        let above = parent_of(alloc, at)?;
        Ok(self.is_folder(&above))
    }
}

impl Plain for Tree {
    fn copy(&self, alloc: Global) -> Result<Tree, NoMemory> {
        let nodes = self.nodes.copy(alloc)?;
        Ok(Tree { nodes })
    }
}

fn kind_of(node: Option<&Node>) -> Kind
    ensures told { result ≡ kind_of (option_copied node.entry) }
{
    match node {
        None => Kind::Missing,
        Some(node) => match node.bytes() {
            None => Kind::Folder,
            Some(bytes) => Kind::File {
                size: bytes.len() as u64,
            },
        },
    }
}

// Makes a folder of the path and of those above it, so many of them in all.
fn put_folders(
    alloc: Global,
    nodes: &mut Sorted<Node>,
    at: &Rel,
    count: usize,
) -> Result<(), NoMemory>
    requires { count ≤ length at.now }
    ensures ok { OnOk result (nodes.new ≡ with_folders count at.now nodes.old) }
{
    if count == 0 {
        return Ok(());
    }
    let above = parent_of(alloc, at)?;
    put_folders(alloc, nodes, &above, count - 1)?;
    put_folder(alloc, nodes, at)
}

fn put_folder(alloc: Global, nodes: &mut Sorted<Node>, at: &Rel) -> Result<(), NoMemory>
    ensures ok { OnOk result (nodes.new ≡ insert nodes.old at.now folder) }
    ensures err { OnErr result (nodes.new ≡ nodes.old) }
{
    let path = at.copy(alloc)?;
    nodes.put(path, Node::folder())
}

fn put_file(
    alloc: Global,
    nodes: &mut Sorted<Node>,
    at: &Rel,
    bytes: &Bytes,
) -> Result<(), NoMemory>
    ensures ok { OnOk result (nodes.new ≡ insert nodes.old at.now (file bytes.now)) }
{
    let path = at.copy(alloc)?;
    let bytes = bytes.copy(alloc)?;
    nodes.put(path, Node::file(bytes))
}

// Puts a file below the path, and the folders between the two.
fn put_member(
    alloc: Global,
    nodes: &mut Sorted<Node>,
    at: &Rel,
    member: &Member<Bytes>,
) -> Result<(), NoMemory>
    requires { member.now.path ≢ [] }
    ensures ok { OnOk result (nodes.new ≡ put_member at.now member.now.path member.now.value nodes.old) }
    ensures fits { OnOk result (IsRelPath (at.now ++ member.now.path)) }
{
    let path = join_below(alloc, at, &member.path)?;
    let above = parent_of(alloc, &path)?;
    put_folders(alloc, nodes, &above, member.path.parts().len() - 1)?;
    put_file(alloc, nodes, &path, &member.value)
}

fn put_files(
    alloc: Global,
    nodes: &mut Sorted<Node>,
    at: &Rel,
    map: &FileMap,
) -> Result<(), NoMemory>
    ensures ok { OnOk result (nodes.new ≡ put_files at.now (entries map.now) nodes.old) }
    ensures fits { OnOk result (AreFit at.now (entries map.now)) }
{
    map.check();
    for member in map.members() {
        put_member(alloc, nodes, at, member)?;
    }
    Ok(())
}

fn put_value(
    alloc: Global,
    nodes: &mut Sorted<Node>,
    at: &Rel,
    value: &Value,
) -> Result<(), NoMemory>
    requires { at.now ≢ [] }
    ensures ok { OnOk result (nodes.new ≡ put_value at.now value.now nodes.old) }
    ensures fits { OnOk result (IsFit at.now value.now) }
{
    if is_nothing(value) {
        return Ok(());
    }
    let above = parent_of(alloc, at)?;
    put_folders(alloc, nodes, &above, above.parts().len())?;
    place(alloc, nodes, at, value)
}

fn is_nothing(value: &Value) -> bool
    ensures told { result ≡ is_nothing value.now }
{
    match value {
        Value::Nothing => true,
        Value::File(_) => false,
        Value::Files(_) => false,
    }
}

fn place(alloc: Global, nodes: &mut Sorted<Node>, at: &Rel, value: &Value) -> Result<(), NoMemory>
    ensures ok { OnOk result (nodes.new ≡ place at.now value.now nodes.old) }
    ensures fits { OnOk result (IsFit at.now value.now) }
{
    match value {
        Value::Nothing => Ok(()),
        Value::File(bytes) => put_file(alloc, nodes, at, bytes),
        Value::Files(map) => {
            put_folder(alloc, nodes, at)?;
            put_files(alloc, nodes, at, map)
        }
    }
}
