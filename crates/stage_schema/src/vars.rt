// The variables of a file and of a stage: whether they are in form, before they are merged.
ghost use Rattle.std.specs.Prelude.{◌≡◌, ◌||◌, map};
ghost use Rattle.std.specs.List.{list_any};
ghost use Rattle.dvc_base.specs.declared.node.Node.{out-Node};
ghost use Rattle.dvc_base.specs.declared.node.Pair.{out-Pair};
ghost use Rattle.stage_schema.specs.Node.{key_of};
ghost use Rattle.stage_schema.specs.Refusal.{Checks, dotted};
ghost use Rattle.stage_schema.specs.Schema.{is_template, is_template_of, has_template, vars_item_fault, vars_fault, stage_vars_fault};

use crate::ExpandFault;
use crate::fault::{schema_at, unsupported_at};
use crate::node::{has_part, is_list, items_of, text_of};
use dvc_base::{Node, Pair};
use std::alloc::Global;

// How many collections are entered, one inside another.
const MAX_DEPTH: usize = 64;

/// The `vars` of a stage.
pub fn check_stage_vars(
    alloc: Global,
    name: &str,
    at: &str,
    value: &Node,
) -> Result<(), ExpandFault>
    ensures checked { Checks result (stage_vars_fault name.now at.now (out-Node value.now)) }
{
    check_vars(alloc, &[at, "vars"], &["stages", name, "vars"], value)
}

/// A list of files and of mappings of variables. `key` is where the schema refuses one, and `left_out` where a template is
/// refused.
pub fn check_vars(
    alloc: Global,
    key: &[&str],
    left_out: &[&str],
    value: &Node,
) -> Result<(), ExpandFault>
    ensures checked { Checks result (vars_fault
        (dotted (map (λ part. part.now) key.now)) (dotted (map (λ part. part.now) left_out.now)) (out-Node value.now)) }
{
    if !is_list(value) {
        return Err(schema_at(alloc, key));
    }
    let items = items_of(value);
    for item in items {
        check_item(alloc, key, left_out, item)?;
    }
    Ok(())
}

// A file, or a mapping of variables.
fn check_item(
    alloc: Global,
    key: &[&str],
    left_out: &[&str],
    item: &Node,
) -> Result<(), ExpandFault>
    ensures checked { Checks result (vars_item_fault
        (dotted (map (λ part. part.now) key.now)) (dotted (map (λ part. part.now) left_out.now)) item.now) }
{
    if !matches!(item, Node::Text(_) | Node::Pairs(_)) {
        Err(schema_at(alloc, key))
    } else if has_template(MAX_DEPTH, item) {
        Err(unsupported_at(alloc, left_out))
    } else {
        Ok(())
    }
}

// ---- templates

// Whether a template stands in a text, at most so many collections down.
#[cycle(template)]
#[tactic(auto, using(crate::proofs::TemplateLemmas::template_none, crate::proofs::TemplateLemmas::template_deep))]
fn has_template(depth: usize, node: &Node) -> bool
    ensures exact { result ≡ has_template depth node.now }
{
    if depth == 0 {
        is_template(text_of(node))
    } else {
        has_inside(depth - 1, node)
    }
}

#[cycle(template)]
fn has_inside(depth: usize, node: &Node) -> bool
    ensures exact { result ≡ is_template_of (has_template depth) (out-Node node.now) }
{
    match node {
        Node::Text(text) => is_template(text.as_str()),
        Node::Items(items) => any_item(depth, items.as_slice()),
        Node::Pairs(pairs) => any_pair(depth, pairs.as_slice()),
        _ => false,
    }
}

#[cycle(template)]
fn any_item(depth: usize, items: &[Node]) -> bool
    ensures exact { result ≡ list_any (has_template depth) items.now }
{
    for item in items {
        if has_template(depth, item) {
            return true;
        }
    }
    false
}

#[cycle(template)]
fn any_pair(depth: usize, pairs: &[Pair]) -> bool
    ensures exact { result ≡ list_any (λ p. is_template (key_of p) || has_template depth (out-Pair p).value) pairs.now }
{
    for pair in pairs {
        if is_template(pair.key.as_str()) || has_template(depth, &pair.value) {
            return true;
        }
    }
    false
}

fn is_template(text: &str) -> bool
    ensures exact { result ≡ is_template text.now }
{
    has_part(text.as_bytes(), b"${")
}
