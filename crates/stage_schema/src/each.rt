// Stages that are written once and made many times: `foreach` with its `do`, and `matrix`.
ghost use Rattle.std.specs.Prelude.{◌≡◌, ◌==◌, ◌+◌, length};
ghost use Rattle.std.specs.List.{position_or_len};
ghost use Rattle.dvc_base.specs.declared.node.Node.{out-Node};
ghost use Rattle.stage_schema.specs.Refusal.{Checks};
ghost use Rattle.stage_schema.specs.Schema.{is_whole_key, is_axis, is_source, axis_fault, matrix_fault, do_fault, each_value_fault, each_fault};

use crate::ExpandFault;
use crate::fault::{do_place, schema_at};
use crate::keys::check_body;
use crate::node::{begins, has_key};
use dvc_base::{Node, Pair};
use std::alloc::Global;

// ---- `foreach`

/// The keys of a stage with `foreach`, beside which only `do` may stand.
pub fn check_each(alloc: Global, name: &str, pairs: &[Pair]) -> Result<(), ExpandFault>
    ensures checked { Checks result (each_fault name.now pairs.now) }
{
    for pair in pairs {
        check_each_value(alloc, name, pair)?;
    }
    if has_key(pairs, "do") {
        Ok(())
    } else {
        Err(schema_at(alloc, &["stages", name, "do"]))
    }
}

fn check_each_value(alloc: Global, name: &str, pair: &Pair) -> Result<(), ExpandFault>
    ensures checked { Checks result (each_value_fault name.now pair.now) }
{
    let key = pair.key.as_str();
    if key == "do" {
        check_do(alloc, name, &pair.value)
    } else if key == "foreach" && is_source(&pair.value) {
        Ok(())
    } else {
        Err(schema_at(alloc, &["stages", name, key]))
    }
}

// The stage that is made of each item.
fn check_do(alloc: Global, name: &str, value: &Node) -> Result<(), ExpandFault>
    ensures checked { Checks result (do_fault name.now (out-Node value.now)) }
{
    match value {
        Node::Pairs(pairs) => {
            let place = do_place(alloc, name)?;
            check_body(alloc, name, place.as_str(), pairs.as_slice())
        }
        _ => Err(schema_at(alloc, &["stages", name, "do"])),
    }
}

// ---- `matrix`

/// The axes of a matrix.
pub fn check_matrix(alloc: Global, name: &str, value: &Node) -> Result<(), ExpandFault>
    ensures checked { Checks result (matrix_fault name.now (out-Node value.now)) }
{
    let Node::Pairs(pairs) = value else {
        return Err(schema_at(alloc, &["stages", name, "matrix"]));
    };
    let axes = pairs.as_slice();
    for axis in axes {
        check_axis(alloc, name, axis)?;
    }
    Ok(())
}

fn check_axis(alloc: Global, name: &str, axis: &Pair) -> Result<(), ExpandFault>
    ensures checked { Checks result (axis_fault name.now axis.now) }
{
    if is_axis(&axis.value) {
        Ok(())
    } else {
        Err(schema_at(alloc, &["stages", name, "matrix", axis.key.as_str()]))
    }
}

// ---- what may be gone through

// Whether it is a list, a mapping, or a key that leads to one.
fn is_source(value: &Node) -> bool
    ensures exact { result ≡ is_source (out-Node value.now) }
{
    match value {
        Node::Pairs(_) => true,
        _ => is_axis(value),
    }
}

// Whether it is a list, or a key that leads to one.
fn is_axis(value: &Node) -> bool
    ensures exact { result ≡ is_axis (out-Node value.now) }
{
    match value {
        Node::Items(_) => true,
        Node::Text(text) => is_whole_key(text.as_str()),
        _ => false,
    }
}

fn is_whole_key(text: &str) -> bool
    ensures exact { result ≡ is_whole_key text.now }
{
    let bytes = text.as_bytes();
    begins(bytes, b"${") && is_closed_last(bytes)
}

// Whether the first `}` ends the text.
fn is_closed_last(text: &[u8]) -> bool
    ensures exact { result ≡ (position_or_len (λ b. b == 125) text.now + 1 == length text.now) }
{
    let mut rest = text;
    while let [byte, behind @ ..] = rest {
        if *byte == b'}' {
            return behind.is_empty();
        }
        rest = behind;
    }
    false
}
