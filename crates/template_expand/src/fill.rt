// The texts of a stage, with variables put into them.
ghost use Rattle.std.specs.Prelude.{◌≡◌};
ghost use Rattle.dvc_base.specs.declared.node.Node.{out-Node};
ghost use Rattle.template_expand.specs.Answer.{IsAnswer, all_by};
ghost use Rattle.template_expand.specs.Fill as spec;

use crate::fault::fault_of;
use dvc_base::{Node, Nodes, Pair, PairList, Plain, Rel, Text};
use stage_schema::{ExpandFault, is_outs_key};
use std::alloc::Global;
use template_vars::{Scope, resolve};

/// The pairs of a stage with variables put into the texts that may have them; all else is as it was.
pub(crate) fn fill_pairs(
    alloc: Global,
    scope: &Scope<'_>,
    pairs: &[Pair],
) -> Result<PairList, ExpandFault>
    ensures answer { IsAnswer result (spec.filled_pairs scope.now pairs.now) }
{
    let mut made = PairList::new(alloc);
    for pair in pairs {
        made.push(fill_pair(alloc, scope, pair)?)?;
    }
    Ok(made)
}

fn fill_pair(alloc: Global, scope: &Scope<'_>, pair: &Pair) -> Result<Pair, ExpandFault>
    ensures answer { IsAnswer result (spec.filled_pair scope.now pair.now) }
{
    if !is_filled_key(pair.key.as_str()) {
        return Ok(pair.copy(alloc)?);
    }
    let key = pair.key.copy(alloc)?;
    let value = fill_value(alloc, scope, &pair.value)?;
    Ok(Pair { key, value })
}

// Whether variables may stand in the texts of the key.
fn is_filled_key(key: &str) -> bool
    ensures exact { result ≡ spec.is_filled_key key.now }
{
    is_outs_key(key) || key == "cmd" || key == "wdir" || key == "deps" || key == "params"
}

// A text, or a list of items.
fn fill_value(alloc: Global, scope: &Scope<'_>, value: &Node) -> Result<Node, ExpandFault>
    ensures answer { IsAnswer result (spec.filled_value scope.now value.now) }
{
    match value {
        Node::Items(items) => Ok(Node::Items(fill_items(alloc, scope, items.as_slice())?)),
        _ => fill_node(alloc, scope, value),
    }
}

fn fill_items(alloc: Global, scope: &Scope<'_>, items: &[Node]) -> Result<Nodes, ExpandFault>
    ensures answer { IsAnswer result (all_by (spec.filled_item scope.now) items.now) }
{
    let mut made = Nodes::new(alloc);
    for item in items {
        made.push(fill_item(alloc, scope, item)?)?;
    }
    Ok(made)
}

// A text, or a mapping of paths.
fn fill_item(alloc: Global, scope: &Scope<'_>, item: &Node) -> Result<Node, ExpandFault>
    ensures answer { IsAnswer result (spec.filled_item scope.now item.now) }
{
    match item {
        Node::Pairs(paths) => Ok(Node::Pairs(fill_paths(alloc, scope, paths.as_slice())?)),
        _ => fill_node(alloc, scope, item),
    }
}

fn fill_paths(alloc: Global, scope: &Scope<'_>, paths: &[Pair]) -> Result<PairList, ExpandFault>
    ensures answer { IsAnswer result (all_by (spec.filled_path scope.now) paths.now) }
{
    let mut made = PairList::new(alloc);
    for path in paths {
        made.push(fill_path(alloc, scope, path)?)?;
    }
    Ok(made)
}

// A path with its options, or a file with its keys.
fn fill_path(alloc: Global, scope: &Scope<'_>, path: &Pair) -> Result<Pair, ExpandFault>
    ensures answer { IsAnswer result (spec.filled_path scope.now path.now) }
{
    let key = fill_text(alloc, scope, path.key.as_str())?;
    let value = fill_list(alloc, scope, &path.value)?;
    Ok(Pair { key, value })
}

// The keys of a file. The options of an output are no list.
fn fill_list(alloc: Global, scope: &Scope<'_>, value: &Node) -> Result<Node, ExpandFault>
    ensures answer { IsAnswer result (spec.filled_list scope.now (out-Node value.now) value.now) }
{
    match value {
        Node::Items(keys) => Ok(Node::Items(fill_keys(alloc, scope, keys.as_slice())?)),
        _ => Ok(value.copy(alloc)?),
    }
}

fn fill_keys(alloc: Global, scope: &Scope<'_>, keys: &[Node]) -> Result<Nodes, ExpandFault>
    ensures answer { IsAnswer result (all_by (spec.filled_node scope.now) keys.now) }
{
    let mut made = Nodes::new(alloc);
    for key in keys {
        made.push(fill_node(alloc, scope, key)?)?;
    }
    Ok(made)
}

// A text; any other node stays as it is.
fn fill_node(alloc: Global, scope: &Scope<'_>, node: &Node) -> Result<Node, ExpandFault>
    ensures answer { IsAnswer result (spec.filled_node scope.now node.now) }
{
    match node {
        Node::Text(text) => Ok(Node::Text(fill_text(alloc, scope, text.as_str())?)),
        _ => Ok(node.copy(alloc)?),
    }
}

fn fill_text(alloc: Global, scope: &Scope<'_>, text: &str) -> Result<Text, ExpandFault>
    ensures answer { IsAnswer result (spec.filled_text scope.now text.now) }
{
    match resolve(alloc, scope, text) {
        Ok(text) => Ok(text),
        Err(why) => Err(fault_of(alloc, &Rel::root(alloc), why)),
    }
}
