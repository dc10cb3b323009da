// What a stage says in which nothing is refused.
ghost use Rattle.std.specs.Prelude.{◌≡◌, ◌∷◌, [], codes, map, fold, IfOk, OnOk};
ghost use Rattle.dvc_base.specs.declared.node.Node.{out-Node};
ghost use Rattle.dvc_base.specs.Join.{join};
ghost use Rattle.stage_schema.specs.Node.{value_at};
ghost use Rattle.stage_schema.specs.Params.{each_once, texts_of};
ghost use Rattle.stage_schema.specs.Stages.{commands_of, dir_in, dir_of, stage_with};

use crate::Stage;
use crate::node::{is_true_at, items_at, items_of, text_of, value_at};
use crate::outs::push_outs;
use crate::wants::{add_texts, wants_of};
use dvc_base::{NoMemory, Node, Pair, PathFault, Rel, Text, Texts};
use indexmap::IndexSet;
use std::alloc::Global;

/// The stage of these names that the pairs say. Their texts are as they stand in the end.
pub fn stage_with(alloc: Global, name: Text, group: Text, pairs: &[Pair]) -> Result<Stage, NoMemory>
    ensures exact { IfOk result (λ stage. stage ≡ stage_with name group pairs.now) }
{
    let mut stage = Stage::named(alloc, name, group);
    fill(alloc, &mut stage, pairs)?;
    Ok(stage)
}

// What the pairs say goes into the stage, which has nothing but its names.
fn fill(alloc: Global, stage: &mut Stage, pairs: &[Pair]) -> Result<(), NoMemory>
    requires named { stage.old ≡ stage_with stage.old.name stage.old.group [] }
    ensures exact { OnOk result (stage.new ≡ stage_with stage.old.name stage.old.group pairs.now) }
{
    stage.commands = commands_at(alloc, pairs)?;
    stage.dir = dir_at(alloc, pairs)?;
    stage.deps = each_once(alloc, items_at(pairs, "deps"))?;
    stage.params = wants_of(alloc, items_at(pairs, "params"))?;
    push_outs(alloc, &mut stage.outs, pairs)?;
    stage.frozen = is_true_at(pairs, "frozen");
    stage.always = is_true_at(pairs, "always_changed");
    Ok(())
}

fn commands_at(alloc: Global, pairs: &[Pair]) -> Result<Texts, NoMemory>
    ensures exact { IfOk result (λ commands. commands ≡ commands_of (value_at (codes "cmd") pairs.now)) }
{
    match value_at(pairs, "cmd") {
        Some(Node::Text(command)) => Texts::of(alloc, &[command.as_str()]),
        Some(node) => texts_of(alloc, items_of(node)),
        None => Ok(Texts::new(alloc)),
    }
}

fn texts_of(alloc: Global, items: &[Node]) -> Result<Texts, NoMemory>
    ensures exact { IfOk result (λ texts. texts ≡ texts_of items.now) }
{
    let mut texts = Texts::new(alloc);
    for item in items {
        texts.push(Text::of(alloc, text_of(item))?)?;
    }
    Ok(texts)
}

// The folder, which is read from the root.
fn dir_at(alloc: Global, pairs: &[Pair]) -> Result<Rel, NoMemory>
    ensures exact { IfOk result (λ dir. dir ≡ dir_of (value_at (codes "wdir") pairs.now)) }
{
    match value_at(pairs, "wdir") {
        Some(Node::Text(text)) => dir_of(alloc, text.as_str()),
        _ => Ok(Rel::root(alloc)),
    }
}

fn dir_of(alloc: Global, text: &str) -> Result<Rel, NoMemory>
    ensures exact { IfOk result (λ dir. dir ≡ dir_in (join [] text.now)) }
{
    match Rel::root(alloc).join(alloc, text) {
        Ok(dir) => Ok(dir),
        Err(PathFault::NoMemory) => Err(NoMemory),
        Err(_) => Ok(Rel::root(alloc)),
    }
}

// Each text once, at its first place.
fn each_once(alloc: Global, items: &[Node]) -> Result<Texts, NoMemory>
    ensures exact { IfOk result (λ texts. texts ≡ each_once (texts_of items.now)) }
{
    let mut texts = IndexSet::new(alloc);
    add_texts(&mut texts, items)?;
    Texts::of(alloc, texts.as_slice())
}
