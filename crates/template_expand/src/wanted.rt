// The files of variables that a `dvc.yaml` names.
ghost use Rattle.std.specs.Prelude.{◌≡◌, ◌∷◌, ◌++◌, [], map, codes, IfOk, OnOk};
ghost use Rattle.std.specs.List.{flat_map};
ghost use Rattle.dvc_base.specs.declared.node.Node.{out-Node};
ghost use Rattle.template_vars.specs.Item.{file_in};
ghost use Rattle.template_expand.specs.Answer.{IsAnswer, Leaves, then_by, folded_by};
ghost use Rattle.template_expand.specs.Vars.{path_in};
ghost use Rattle.template_expand.specs.Wanted as spec;
ghost use Rattle.template_expand.specs.Wanted.{AreTexts};

use crate::vars::{params_path, path_in};
use dvc_base::{NoMemory, Node, Pair, Plain, Rel, Rels};
use indexmap::IndexSet;
use stage_schema::{ExpandFault, check_wanted, items_at, pairs_at, pairs_of};
use std::alloc::Global;
use template_vars::wanted_of;

/// `params.yaml`, and then each file that is named in `vars`: those of the file itself, and those of its stages, each once at
/// its first place.
///
/// It refuses what it can't go without: a root, `vars` or `stages` of another kind, a template in the top-level `vars`, and a
/// file in these that is no path of the workspace.
pub fn wanted_files(alloc: Global, root: &Node) -> Result<Rels, ExpandFault>
    ensures answer { IsAnswer result (spec.wanted root.now) }
{
    check_wanted(alloc, root)?;
    wanted_in(alloc, pairs_of(root))
}

fn wanted_in(alloc: Global, pairs: &[Pair]) -> Result<Rels, ExpandFault>
    ensures answer { IsAnswer result (spec.wanted_of pairs.now) }
{
    let named = named_in(alloc, pairs)?;
    Ok(each_once(alloc, named.as_slice())?)
}

// All files that are named, in order.
fn named_in(alloc: Global, pairs: &[Pair]) -> Result<Rels, ExpandFault>
    ensures answer { IsAnswer result (spec.named_in pairs.now) }
{
    let mut paths = Rels::new(alloc);
    paths.push(params_path(alloc)?)?;
    push_top(alloc, &mut paths, items_at(pairs, "vars"))?;
    push_stages(alloc, &mut paths, pairs_at(pairs, "stages"))?;
    Ok(paths)
}

// ---- the top-level `vars`

fn push_top(alloc: Global, paths: &mut Rels, items: &[Node]) -> Result<(), ExpandFault>
    ensures answer { Leaves result paths.new (folded_by spec.with_top paths.old items.now) }
{
    for item in items {
        push_top_item(alloc, paths, item)?;
    }
    Ok(())
}

fn push_top_item(alloc: Global, paths: &mut Rels, item: &Node) -> Result<(), ExpandFault>
    ensures answer { Leaves result paths.new (spec.with_top paths.old item.now) }
{
    match item {
        Node::Text(text) => push_top_path(alloc, paths, text.as_str()),
        _ => Ok(()),
    }
}

fn push_top_path(alloc: Global, paths: &mut Rels, text: &str) -> Result<(), ExpandFault>
    ensures answer { Leaves result paths.new
        (then_by (λ path. Ok (paths.old ++ path ∷ [])) (path_in (codes "vars") (file_in text.now))) }
{
    let wanted = wanted_of(text);
    let path = path_in(alloc, "vars", wanted.file)?;
    paths.push(path)?;
    Ok(())
}

// ---- those of stages

fn push_stages(alloc: Global, paths: &mut Rels, stages: &[Pair]) -> Result<(), NoMemory>
    ensures ok { OnOk result (paths.new ≡ paths.old ++ flat_map spec.stage_paths stages.now) }
{
    for stage in stages {
        push_stage(alloc, paths, pairs_of(&stage.value))?;
    }
    Ok(())
}

// A stage's own, and those of its `do`.
fn push_stage(alloc: Global, paths: &mut Rels, pairs: &[Pair]) -> Result<(), NoMemory>
    ensures ok { OnOk result (paths.new ≡ paths.old ++ spec.body_paths pairs.now) }
{
    push_items(alloc, paths, items_at(pairs, "vars"))?;
    push_items(alloc, paths, items_at(pairs_at(pairs, "do"), "vars"))
}

fn push_items(alloc: Global, paths: &mut Rels, items: &[Node]) -> Result<(), NoMemory>
    ensures ok { OnOk result (paths.new ≡ paths.old ++ flat_map spec.item_paths items.now) }
{
    for item in items {
        push_item(alloc, paths, item)?;
    }
    Ok(())
}

fn push_item(alloc: Global, paths: &mut Rels, item: &Node) -> Result<(), NoMemory>
    ensures ok { OnOk result (paths.new ≡ paths.old ++ spec.item_paths item.now) }
{
    match item {
        Node::Text(text) => {
            let wanted = wanted_of(text.as_str());
            push_path(alloc, paths, wanted.file)
        }
        _ => Ok(()),
    }
}

// What is no path of the workspace is refused in its stage's turn.
fn push_path(alloc: Global, paths: &mut Rels, text: &str) -> Result<(), NoMemory>
    ensures ok { OnOk result (paths.new ≡ paths.old ++ spec.paths_in (path_in [] text.now)) }
{
    match path_in(alloc, "", text) {
        Ok(path) => paths.push(path),
        Err(ExpandFault::NoMemory) => Err(NoMemory),
        Err(_) => Ok(()),
    }
}

// ---- each once

fn each_once(alloc: Global, paths: &[Rel]) -> Result<Rels, NoMemory>
    ensures exact { IfOk result (λ once. once ≡ spec.each_once paths.now) }
{
    let mut once = Rels::new(alloc);
    push_each_once(alloc, &mut once, paths)?;
    Ok(once)
}

fn push_each_once(alloc: Global, once: &mut Rels, paths: &[Rel]) -> Result<(), NoMemory>
    requires { once.old ≡ [] }
    ensures ok { OnOk result (once.new ≡ spec.each_once paths.now) }
{
    let mut texts = IndexSet::new(alloc);
    for path in paths {
        push_once(alloc, &mut texts, once, path)?;
    }
    Ok(())
}

// The set finds whether the path stands there already, by its text.
fn push_once<'a>(
    alloc: Global,
    texts: &mut IndexSet<&'a str>,
    once: &mut Rels,
    path: &'a Rel,
) -> Result<(), NoMemory>
    requires texts { AreTexts (map (λ text. text.now) texts.old.keys) once.old }
    ensures texts { OnOk result (AreTexts (map (λ text. text.now) texts.new.keys) once.new) }
    ensures ok { OnOk result (once.new ≡ spec.with_path once.old path.now) }
{
    // A path is in normal form, so its text tells it.
    let _ = path.parts();
    if !texts.insert(path.text())? {
        return Ok(());
    }
    once.push(path.copy(alloc)?)
}
