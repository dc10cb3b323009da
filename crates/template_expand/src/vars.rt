// The variables that a stage sees.
ghost use Rattle.std.specs.Prelude.{◌≡◌, IfOk, option_copied};
ghost use Rattle.std.specs.List.{list_any};
ghost use Rattle.dvc_base.specs.Path.{is_one};
ghost use Rattle.dvc_base.specs.declared.node.Node.{out-Node};
ghost use Rattle.stage_schema.specs.Node.{pairs_of};
ghost use Rattle.template_vars.specs.Item.{file_in, keys_in};
ghost use Rattle.template_expand.specs.Answer.{IsAnswer, Leaves, then_by};
ghost use Rattle.template_expand.specs.Vars as spec;

use crate::fault::fault_of;
use crate::files::VarFile;
use dvc_base::{NoMemory, Node, Pair, PairList, Plain, Rel, Rels, Text, is_same};
use stage_schema::{ExpandFault, is_url, items_at, outside, pairs_of};
use std::alloc::Global;
use template_vars::{Variables, chosen, wanted_of};

/// Variables, and the files that were taken whole for them.
#[derive(Drop)]
pub struct Vars {
    pub variables: Variables,
    pub whole: Rels,
}

impl Plain for Vars {
    fn copy(&self, alloc: Global) -> Result<Vars, NoMemory> {
        Ok(Vars {
            variables: self.variables.copy(alloc)?,
            whole: self.whole.copy(alloc)?,
        })
    }
}

/// The variables of the whole file: those of `params.yaml`, and each item of its `vars` merged in order.
pub(crate) fn top_vars(alloc: Global, files: &[VarFile], root: &Node) -> Result<Vars, ExpandFault>
    ensures answer { IsAnswer result (spec.top_vars files.now (out-Node root.now)) }
{
    let mut vars = first_vars(alloc, files)?;
    add_items(
        alloc,
        files,
        "vars",
        &mut vars,
        items_at(pairs_of(root), "vars"),
    )?;
    Ok(vars)
}

/// A copy of the variables, with further items merged in order. `left_out` is the key at which a path that is none of the
/// workspace's is refused.
pub(crate) fn with_items(
    alloc: Global,
    files: &[VarFile],
    left_out: &str,
    vars: &Vars,
    items: &[Node],
) -> Result<Vars, ExpandFault>
    ensures answer { IsAnswer result (spec.with_items files.now left_out.now vars.now items.now) }
{
    let mut made = vars.copy(alloc)?;
    add_items(alloc, files, left_out, &mut made, items)?;
    Ok(made)
}

/// The path of the workspace that the text of an item names.
pub(crate) fn path_in(alloc: Global, left_out: &str, text: &str) -> Result<Rel, ExpandFault>
    ensures answer { IsAnswer result (spec.path_in left_out.now text.now) }
{
    if is_url(text) {
        return Err(ExpandFault::Unsupported {
            key: Text::of(alloc, left_out)?,
        });
    }
    match Rel::root(alloc).join(alloc, text) {
        Ok(path) => Ok(path),
        Err(why) => Err(outside(alloc, text, why)),
    }
}

/// The file that is taken without being named.
pub(crate) fn params_path(alloc: Global) -> Result<Rel, NoMemory>
    ensures named { IfOk result (λ path. path ≡ spec.params_path) }
{
    Rel::root(alloc)
        .join(alloc, "params.yaml")
        .map_err(|_| NoMemory)
}

// ---- the first variables

// Those of `params.yaml`; none where it is missing.
fn first_vars(alloc: Global, files: &[VarFile]) -> Result<Vars, NoMemory>
    ensures exact { IfOk result (λ vars. vars ≡ spec.first_vars files.now) }
{
    let path = params_path(alloc)?;
    match node_of(files, &path) {
        Some(root) => whole_vars(alloc, root, path),
        None => Ok(Vars {
            variables: Variables::new(alloc),
            whole: Rels::new(alloc),
        }),
    }
}

// Those of a file that is taken whole.
fn whole_vars(alloc: Global, root: &Node, path: Rel) -> Result<Vars, NoMemory>
    ensures exact { IfOk result (λ vars. vars ≡ spec.whole_vars root.now path) }
{
    let mut whole = Rels::new(alloc);
    whole.push(path)?;
    Ok(Vars {
        variables: Variables::of_pairs(copied_pairs(alloc, root)?),
        whole,
    })
}

fn copied_pairs(alloc: Global, root: &Node) -> Result<PairList, NoMemory>
    ensures same { IfOk result (λ made. made ≡ pairs_of (out-Node root.now)) }
{
    match root {
        Node::Pairs(pairs) => pairs.copy(alloc),
        _ => Ok(PairList::new(alloc)),
    }
}

// What a file holds; none where it is missing.
fn node_of<'a>(files: &'a [VarFile], path: &Rel) -> Option<&'a Node>
    ensures exact { option_copied result ≡ spec.node_of files.now path.now }
{
    let mut rest = files;
    while let [file, more @ ..] = rest {
        if is_same(&file.file, path) {
            return file.node.as_ref();
        }
        rest = more;
    }
    None
}

// ---- items

fn add_items(
    alloc: Global,
    files: &[VarFile],
    left_out: &str,
    vars: &mut Vars,
    items: &[Node],
) -> Result<(), ExpandFault>
    ensures answer { Leaves result vars.new (spec.with_items files.now left_out.now vars.old items.now) }
{
    for item in items {
        add_item(alloc, files, left_out, vars, item)?;
    }
    Ok(())
}

// A text names a file; any other item is a mapping of the variables themselves.
fn add_item(
    alloc: Global,
    files: &[VarFile],
    left_out: &str,
    vars: &mut Vars,
    item: &Node,
) -> Result<(), ExpandFault>
    ensures answer { Leaves result vars.new (spec.with_item files.now left_out.now vars.old item.now) }
{
    match item {
        Node::Text(text) => add_text(alloc, files, left_out, vars, text.as_str()),
        _ => add_pairs(alloc, &Rel::root(alloc), vars, pairs_of(item)),
    }
}

fn add_text(
    alloc: Global,
    files: &[VarFile],
    left_out: &str,
    vars: &mut Vars,
    text: &str,
) -> Result<(), ExpandFault>
    ensures answer { Leaves result vars.new
        (then_by (spec.with_file files.now vars.old (keys_in text.now)) (spec.path_in left_out.now (file_in text.now))) }
{
    let wanted = wanted_of(text);
    let path = path_in(alloc, left_out, wanted.file)?;
    add_file(alloc, files, vars, wanted.keys, &path)
}

// A file that was taken whole is passed over.
fn add_file(
    alloc: Global,
    files: &[VarFile],
    vars: &mut Vars,
    keys: Option<&str>,
    path: &Rel,
) -> Result<(), ExpandFault>
    ensures answer { Leaves result vars.new
        (spec.with_file files.now vars.old (option_copied keys.entry) path.now) }
{
    if is_among(path, vars.whole.as_slice()) {
        return Ok(());
    }
    match node_of(files, path) {
        Some(root) => add_root(alloc, vars, keys, path, pairs_of(root)),
        None => Err(ExpandFault::NoFile {
            file: path.copy(alloc)?,
        }),
    }
}

fn is_among(path: &Rel, paths: &[Rel]) -> bool
    ensures exact { result ≡ list_any (is_one path.now) paths.now }
{
    paths.iter().any(|other| is_same(path, other))
}

// The pairs of a file, or those of its keys that are chosen.
fn add_root(
    alloc: Global,
    vars: &mut Vars,
    keys: Option<&str>,
    path: &Rel,
    pairs: &[Pair],
) -> Result<(), ExpandFault>
    ensures answer { Leaves result vars.new
        (spec.with_root path.now vars.old (option_copied keys.entry) pairs.now) }
{
    match keys {
        Some(keys) => add_chosen(alloc, vars, keys, path, pairs),
        None => add_whole(alloc, vars, path, pairs),
    }
}

fn add_chosen(
    alloc: Global,
    vars: &mut Vars,
    keys: &str,
    path: &Rel,
    pairs: &[Pair],
) -> Result<(), ExpandFault>
    ensures answer { Leaves result vars.new (spec.with_root path.now vars.old (Some keys.now) pairs.now) }
{
    match chosen(alloc, keys, pairs) {
        Ok(pairs) => add_pairs(alloc, path, vars, pairs.as_slice()),
        Err(why) => Err(fault_of(alloc, path, why)),
    }
}

fn add_whole(alloc: Global, vars: &mut Vars, path: &Rel, pairs: &[Pair]) -> Result<(), ExpandFault>
    ensures answer { Leaves result vars.new (spec.with_root path.now vars.old None pairs.now) }
{
    add_pairs(alloc, path, vars, pairs)?;
    vars.whole.push(path.copy(alloc)?)?;
    Ok(())
}

fn add_pairs(alloc: Global, file: &Rel, vars: &mut Vars, pairs: &[Pair]) -> Result<(), ExpandFault>
    ensures answer { Leaves result vars.new (spec.with_pairs file.now vars.old pairs.now) }
{
    match vars.variables.merge(alloc, pairs) {
        Ok(()) => Ok(()),
        Err(why) => Err(fault_of(alloc, file, why)),
    }
}
