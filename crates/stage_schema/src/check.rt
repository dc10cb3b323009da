// What is refused of the own keys of a `dvc.yaml`.
ghost use Rattle.std.specs.Prelude.{◌≡◌};
ghost use Rattle.dvc_base.specs.declared.node.Node.{out-Node};
ghost use Rattle.stage_schema.specs.Refusal.{Checks, first_in};
ghost use Rattle.stage_schema.specs.Schema.{is_top_note_key, top_fault, root_fault};
ghost use Rattle.stage_schema.specs.Wanted.{wanted_top_fault, wanted_fault};

use crate::ExpandFault;
use crate::fault::schema_at;
use crate::node::is_mapping;
use crate::vars::check_vars;
use dvc_base::{Node, Pair};
use std::alloc::Global;

/// The keys of a whole file.
pub fn check_root(alloc: Global, root: &Node) -> Result<(), ExpandFault>
    ensures checked { Checks result (root_fault (out-Node root.now)) }
{
    match root {
        Node::Null => Ok(()),
        Node::Pairs(pairs) => check_top(alloc, pairs.as_slice()),
        _ => Err(schema_at(alloc, &[])),
    }
}

/// What has to be in form before the files of variables are read: the root, `vars`, and what stands at `stages`.
pub fn check_wanted(alloc: Global, root: &Node) -> Result<(), ExpandFault>
    ensures checked { Checks result (wanted_fault (out-Node root.now)) }
{
    match root {
        Node::Null => Ok(()),
        Node::Pairs(pairs) => check_wanted_top(alloc, pairs.as_slice()),
        _ => Err(schema_at(alloc, &[])),
    }
}

fn check_wanted_top(alloc: Global, pairs: &[Pair]) -> Result<(), ExpandFault>
    ensures checked { Checks result (first_in wanted_top_fault pairs.now) }
{
    for pair in pairs {
        check_wanted_key(alloc, pair)?;
    }
    Ok(())
}

fn check_wanted_key(alloc: Global, pair: &Pair) -> Result<(), ExpandFault>
    ensures checked { Checks result (wanted_top_fault pair.now) }
{
    let key = pair.key.as_str();
    if key == "vars" || key == "stages" {
        check_top_key(alloc, pair)
    } else {
        Ok(())
    }
}

fn check_top(alloc: Global, pairs: &[Pair]) -> Result<(), ExpandFault>
    ensures checked { Checks result (first_in top_fault pairs.now) }
{
    for pair in pairs {
        check_top_key(alloc, pair)?;
    }
    Ok(())
}

fn check_top_key(alloc: Global, pair: &Pair) -> Result<(), ExpandFault>
    ensures checked { Checks result (top_fault pair.now) }
{
    let key = pair.key.as_str();
    if key == "vars" {
        check_vars(alloc, &[key], &[key], &pair.value)
    } else if (key == "stages" && is_mapping(&pair.value)) || is_top_note_key(key) {
        Ok(())
    } else {
        Err(schema_at(alloc, &[key]))
    }
}

// Whether what stands at the key of the file is passed over.
fn is_top_note_key(key: &str) -> bool
    ensures exact { result ≡ is_top_note_key key.now }
{
    key == "artifacts" || key == "plots" || key == "metrics" || key == "params"
}
