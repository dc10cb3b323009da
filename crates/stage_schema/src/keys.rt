// The name and the keys of a written stage.
ghost use Rattle.std.specs.Prelude.{◌≡◌};
ghost use Rattle.std.specs.List.{list_any};
ghost use Rattle.std.specs.Option.{option_or};
ghost use Rattle.stage_schema.specs.Refusal.{Checks, first_in};
ghost use Rattle.stage_schema.specs.Schema.{value_fault, stage_at, is_separator, is_stage_name, command_missing, plain_value_fault, plain_fault, keys_fault, named_fault, stage_fault};

use crate::ExpandFault;
use crate::each::{check_each, check_matrix};
use crate::fault::{schema_at, stage_place};
use crate::node::has_key;
use crate::value::check_value;
use dvc_base::{Node, Pair};
use std::alloc::Global;

/// A written stage.
pub fn check_stage(alloc: Global, stage: &Pair) -> Result<(), ExpandFault>
    ensures checked { Checks result (stage_fault stage.now) }
{
    let name = stage.key.as_str();
    match &stage.value {
        Node::Pairs(pairs) => check_named(alloc, name, pairs.as_slice()),
        _ => Err(schema_at(alloc, &["stages", name])),
    }
}

fn check_named(alloc: Global, name: &str, pairs: &[Pair]) -> Result<(), ExpandFault>
    ensures checked { Checks result (named_fault name.now pairs.now) }
{
    if is_stage_name(name) {
        check_keys(alloc, name, pairs)
    } else {
        Err(schema_at(alloc, &["stages", name]))
    }
}

fn is_stage_name(name: &str) -> bool
    ensures exact { result ≡ is_stage_name name.now }
{
    !name.is_empty() && !has_separator(name.as_bytes())
}

fn has_separator(name: &[u8]) -> bool
    ensures exact { result ≡ list_any is_separator name.now }
{
    name.iter().any(|byte| is_separator(*byte))
}

// What stands in no name of a stage.
fn is_separator(byte: u8) -> bool
    ensures exact { result ≡ is_separator byte }
{
    matches!(byte, b'@' | b':' | b'/' | b'\n')
}

fn check_keys(alloc: Global, name: &str, pairs: &[Pair]) -> Result<(), ExpandFault>
    ensures checked { Checks result (keys_fault name.now pairs.now) }
{
    if has_key(pairs, "foreach") {
        check_each(alloc, name, pairs)
    } else {
        check_plain(alloc, name, pairs)
    }
}

// A stage that stands for itself, or for one of each choice of a matrix.
fn check_plain(alloc: Global, name: &str, pairs: &[Pair]) -> Result<(), ExpandFault>
    ensures checked { Checks result (plain_fault name.now pairs.now) }
{
    let place = stage_place(alloc, name)?;
    check_plain_at(alloc, name, place.as_str(), pairs)
}

fn check_plain_at(alloc: Global, name: &str, at: &str, pairs: &[Pair]) -> Result<(), ExpandFault>
    requires placed { at.now ≡ stage_at name.now }
    ensures checked { Checks result (plain_fault name.now pairs.now) }
{
    for pair in pairs {
        check_plain_value(alloc, name, at, pair)?;
    }
    check_command(alloc, at, pairs)
}

fn check_plain_value(alloc: Global, name: &str, at: &str, pair: &Pair) -> Result<(), ExpandFault>
    requires placed { at.now ≡ stage_at name.now }
    ensures checked { Checks result (plain_value_fault name.now pair.now) }
{
    if pair.key.as_str() == "matrix" {
        check_matrix(alloc, name, &pair.value)
    } else {
        check_value(alloc, name, at, pair)
    }
}

/// The keys that stand at a place, and the command that may not be missing among them.
pub fn check_body(alloc: Global, name: &str, at: &str, pairs: &[Pair]) -> Result<(), ExpandFault>
    ensures checked { Checks result
        (option_or (first_in (value_fault name.now at.now) pairs.now) (command_missing at.now pairs.now)) }
{
    for pair in pairs {
        check_value(alloc, name, at, pair)?;
    }
    check_command(alloc, at, pairs)
}

fn check_command(alloc: Global, at: &str, pairs: &[Pair]) -> Result<(), ExpandFault>
    ensures checked { Checks result (command_missing at.now pairs.now) }
{
    if has_key(pairs, "cmd") {
        Ok(())
    } else {
        Err(schema_at(alloc, &[at, "cmd"]))
    }
}
