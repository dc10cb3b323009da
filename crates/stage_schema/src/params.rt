// The parameters of a stage: whether they are in form, and what they ask for.
ghost use Rattle.dvc_base.specs.declared.node.Node.{out-Node};
ghost use Rattle.stage_schema.specs.Refusal.{Checks, first_in};
ghost use Rattle.stage_schema.specs.Schema.{params_fault, param_fault, param_file_fault};

use crate::ExpandFault;
use crate::fault::schema_at;
use crate::node::{is_list, items_of};
use crate::value::are_texts;
use dvc_base::{Node, Pair};
use std::alloc::Global;

/// A list of keys and of mappings of files.
pub fn check_params(alloc: Global, at: &str, key: &str, value: &Node) -> Result<(), ExpandFault>
    ensures checked { Checks result (params_fault at.now key.now (out-Node value.now)) }
{
    if !is_list(value) {
        return Err(schema_at(alloc, &[at, key]));
    }
    let items = items_of(value);
    for item in items {
        check_param(alloc, at, key, item)?;
    }
    Ok(())
}

// A key of `params.yaml`, or a mapping of files.
fn check_param(alloc: Global, at: &str, key: &str, value: &Node) -> Result<(), ExpandFault>
    ensures checked { Checks result (param_fault at.now key.now (out-Node value.now)) }
{
    match value {
        Node::Text(_) => Ok(()),
        Node::Pairs(files) => check_files(alloc, at, key, files.as_slice()),
        _ => Err(schema_at(alloc, &[at, key])),
    }
}

fn check_files(alloc: Global, at: &str, key: &str, files: &[Pair]) -> Result<(), ExpandFault>
    ensures checked { Checks result (first_in (param_file_fault at.now key.now) files.now) }
{
    for file in files {
        check_file(alloc, at, key, file)?;
    }
    Ok(())
}

// A file with a list of its keys, or with Null for the whole file.
fn check_file(alloc: Global, at: &str, key: &str, file: &Pair) -> Result<(), ExpandFault>
    ensures checked { Checks result (param_file_fault at.now key.now file.now) }
{
    if are_texts(&file.value) {
        Ok(())
    } else {
        Err(schema_at(alloc, &[at, key, file.key.as_str()]))
    }
}
