// The outputs of a stage: whether they are in form, and what they say.
ghost use Rattle.std.specs.Prelude.{◌≡◌, ◌++◌, ◌∷◌, [], map, OnOk};
ghost use Rattle.std.specs.List.{flat_map};
ghost use Rattle.dvc_base.specs.declared.node.Node.{out-Node};
ghost use Rattle.stage_schema.specs.Node.{key_of, value_of};
ghost use Rattle.stage_schema.specs.Refusal.{Checks};
ghost use Rattle.stage_schema.specs.Schema.{outs_fault, out_fault, options_fault, is_left_out, option_fault};
ghost use Rattle.stage_schema.specs.Stages.{out_with, outs_in, outs_at};

use crate::fault::{schema_at, unsupported_at};
use crate::node::{
    is_bool, is_false, is_false_at, is_list, is_mapping, is_true, items_of, pairs_of,
};
use crate::value::is_outs_key;
use crate::{ExpandFault, Out, Outs};
use dvc_base::{NoMemory, Node, Pair, Text};
use std::alloc::Global;

/// A list of outputs.
pub fn check_outs(
    alloc: Global,
    name: &str,
    at: &str,
    key: &str,
    value: &Node,
) -> Result<(), ExpandFault>
    ensures checked { Checks result (outs_fault name.now at.now key.now (out-Node value.now)) }
{
    if !is_list(value) {
        return Err(schema_at(alloc, &[at, key]));
    }
    let items = items_of(value);
    for item in items {
        check_out(alloc, name, at, key, item)?;
    }
    Ok(())
}

// A path, or a mapping of one path to its options.
fn check_out(
    alloc: Global,
    name: &str,
    at: &str,
    key: &str,
    value: &Node,
) -> Result<(), ExpandFault>
    ensures checked { Checks result (out_fault name.now at.now key.now (out-Node value.now)) }
{
    match value {
        Node::Text(_) => Ok(()),
        Node::Pairs(pairs) => match pairs.as_slice() {
            [pair] => check_options(alloc, name, at, key, pair),
            _ => Err(schema_at(alloc, &[at, key])),
        },
        _ => Err(schema_at(alloc, &[at, key])),
    }
}

fn check_options(
    alloc: Global,
    name: &str,
    at: &str,
    key: &str,
    pair: &Pair,
) -> Result<(), ExpandFault>
    ensures checked { Checks result (options_fault name.now at.now key.now pair.now) }
{
    let path = pair.key.as_str();
    if !is_mapping(&pair.value) {
        return Err(schema_at(alloc, &[at, key, path]));
    }
    let options = pairs_of(&pair.value);
    for option in options {
        check_option(alloc, name, at, key, path, option)?;
    }
    Ok(())
}

fn check_option(
    alloc: Global,
    name: &str,
    at: &str,
    key: &str,
    path: &str,
    option: &Pair,
) -> Result<(), ExpandFault>
    ensures checked { Checks result (option_fault name.now at.now key.now path.now option.now) }
{
    let word = option.key.as_str();
    if word == "cache" {
        if is_bool(&option.value) {
            Ok(())
        } else {
            Err(schema_at(alloc, &[at, key, path, word]))
        }
    } else if is_left_out(option) {
        Err(unsupported_at(alloc, &["stages", name, word]))
    } else {
        Ok(())
    }
}

// Whether an option asks for what the tool leaves out.
fn is_left_out(option: &Pair) -> bool
    ensures exact { result ≡ is_left_out (key_of option.now) (value_of option.now) }
{
    let word = option.key.as_str();
    if word == "persist" {
        is_true(&option.value)
    } else if word == "push" {
        is_false(&option.value)
    } else {
        word == "remote"
    }
}

/// The outputs of a stage, in the order of the keys and of their lists.
pub fn push_outs(alloc: Global, outs: &mut Outs, pairs: &[Pair]) -> Result<(), NoMemory>
    ensures ok { OnOk result (outs.new ≡ outs.old ++ flat_map outs_at pairs.now) }
{
    for pair in pairs {
        push_outs_at(alloc, outs, pair)?;
    }
    Ok(())
}

fn push_outs_at(alloc: Global, outs: &mut Outs, pair: &Pair) -> Result<(), NoMemory>
    ensures ok { OnOk result (outs.new ≡ outs.old ++ outs_at pair.now) }
{
    if is_outs_key(pair.key.as_str()) {
        push_items(alloc, outs, items_of(&pair.value))
    } else {
        Ok(())
    }
}

pub fn push_items(alloc: Global, outs: &mut Outs, items: &[Node]) -> Result<(), NoMemory>
    ensures ok { OnOk result (outs.new ≡ outs.old ++ flat_map (λ item. outs_in (out-Node item)) items.now) }
{
    for item in items {
        push_item(alloc, outs, item)?;
    }
    Ok(())
}

fn push_item(alloc: Global, outs: &mut Outs, item: &Node) -> Result<(), NoMemory>
    ensures ok { OnOk result (outs.new ≡ outs.old ++ outs_in (out-Node item.now)) }
{
    match item {
        Node::Text(path) => push_out(alloc, outs, path.as_str(), true),
        _ => push_pairs(alloc, outs, pairs_of(item)),
    }
}

fn push_pairs(alloc: Global, outs: &mut Outs, pairs: &[Pair]) -> Result<(), NoMemory>
    ensures ok { OnOk result (outs.new ≡ outs.old ++ map out_with pairs.now) }
{
    for pair in pairs {
        let cached = !is_false_at(pairs_of(&pair.value), "cache");
        push_out(alloc, outs, pair.key.as_str(), cached)?;
    }
    Ok(())
}

fn push_out(alloc: Global, outs: &mut Outs, path: &str, cached: bool) -> Result<(), NoMemory>
    ensures ok { OnOk result (outs.new ≡ outs.old ++ record { path = path.now; cached = cached } ∷ []) }
{
    let path = Text::of(alloc, path)?;
    outs.push(Out { path, cached })
}
