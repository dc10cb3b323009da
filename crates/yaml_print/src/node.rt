// Nodes in block style.
ghost use Rattle.std.specs.Prelude.{◌≡◌, ◌<◌, ◌≤◌, ◌+◌, ◌*◌, ◌^◌, ◌++◌, ◌∷◌, [], Ok, IfOk, IfSome, OnOk, replicate};
ghost use Rattle.std.specs.Str.{IsUtf8};
ghost use Rattle.dvc_base.specs.declared.node.Node.{out-Node};
ghost use Rattle.yaml_text.specs.Characters.{line_feed, space};
ghost use Rattle.yaml_nodes.specs.Part.{key_of};
ghost use Rattle.yaml_nodes.specs.Document.{parse};
ghost use Rattle.yaml_print.specs.Print as spec;
ghost use Rattle.yaml_print.specs.Print.{value_of};
ghost use Rattle.yaml_print.specs.Sound.{Each, Inside, IsSound, IsFlat, IsSpelt, IsPrintable, AreTexts};

use crate::scalar_text::write_text;
use dvc_base::{Bytes, NoMemory, Node, Pair};
use std::alloc::Global;

// How many collections may stand in one another.
const MAX_DEPTH: usize = 64;

fn push_bytes(out: &mut Vec<u8>, bytes: &[u8]) -> Result<(), NoMemory>
    ensures { OnOk result (out.new.items ≡ out.old.items ++ bytes.now) }
{
    out.extend_from_slice(bytes)?;
    Ok(())
}

fn indent(out: &mut Vec<u8>, column: usize) -> Result<(), NoMemory>
    ensures { OnOk result (out.new.items ≡ out.old.items ++ replicate column space) }
{
    for _ in 0..column {
        out.push(b' ')?;
    }
    Ok(())
}

// A text as it is, which its type keeps in UTF-8.
fn push_text(out: &mut Vec<u8>, text: &str) -> Result<(), NoMemory>
    ensures exact { OnOk result (out.new.items ≡ out.old.items ++ text.now) }
    ensures spelt { IsUtf8 text.now }
{
    push_bytes(out, text.as_bytes())
}

// A scalar, `[]` or `{}`.
fn inline(alloc: Global, out: &mut Vec<u8>, node: &Node) -> Result<(), NoMemory>
    ensures exact { OnOk result (out.new.items ≡ out.old.items ++ spec.inline_text (out-Node node.now)) }
    ensures spelt { IsFlat (out-Node node.now) → IsSpelt (out-Node node.now) }
{
    match node {
        Node::Null => push_bytes(out, b"null"),
        Node::Bool(true) => push_bytes(out, b"true"),
        Node::Bool(false) => push_bytes(out, b"false"),
        Node::Whole { text, .. } => push_text(out, text.as_str()),
        Node::Decimal { text } => push_text(out, text.as_str()),
        Node::Text(text) => write_text(alloc, out, text.as_str()),
        Node::Items(_) => push_bytes(out, b"[]"),
        Node::Pairs(_) => push_bytes(out, b"{}"),
    }
}

// What stands on one line, with its end.
fn line(alloc: Global, out: &mut Vec<u8>, node: &Node) -> Result<(), NoMemory>
    ensures exact { OnOk result (out.new.items ≡ out.old.items ++ (spec.inline_text (out-Node node.now) ++ line_feed ∷ [])) }
    ensures spelt { IsFlat (out-Node node.now) → IsSpelt (out-Node node.now) }
{
    inline(alloc, out, node)?;
    push_bytes(out, b"\n")
}

// How much deeper than its key a value stands on the lines below; beside its key it has none.
fn extra_columns(node: &Node) -> Option<usize>
    ensures value { result ≡ spec.extra_columns (out-Node node.now) }
    ensures little { IfSome result (λ more. more ≤ 2) }
{
    match node {
        Node::Items(items) if items.as_slice().len() > 0 => Some(0),
        Node::Pairs(pairs) if pairs.as_slice().len() > 0 => Some(2),
        _ => None,
    }
}

#[cycle(node)]
fn node_at(
    alloc: Global,
    out: &mut Vec<u8>,
    depth: usize,
    column: usize,
    node: &Node,
) -> Result<(), NoMemory>
    requires room { column + 2 * depth < 2 ^ 63 }
    requires sound { IsSound depth node.now }
    ensures exact { OnOk result (out.new.items ≡ out.old.items ++ spec.node_text depth column node.now) }
    ensures spelt { OnOk result (AreTexts depth node.now) }
{
    if depth == 0 {
        line(alloc, out, node)
    } else {
        layer(alloc, out, depth - 1, column, node)
    }
}

// A node in which at most `depth` + 1 collections stand in one another.
#[cycle(node)]
fn layer(
    alloc: Global,
    out: &mut Vec<u8>,
    depth: usize,
    column: usize,
    node: &Node,
) -> Result<(), NoMemory>
    requires room { column + 2 * depth + 2 < 2 ^ 63 }
    requires sound { Inside (IsSound depth) (out-Node node.now) }
    ensures exact { OnOk result (out.new.items ≡ out.old.items ++ spec.layer_text (spec.node_text depth) column (out-Node node.now)) }
    ensures spelt { OnOk result (IsSpelt (out-Node node.now) × Inside (AreTexts depth) (out-Node node.now)) }
{
    match node {
        Node::Items(items) => match items.as_slice() {
            [] => line(alloc, out, node),
            [first, rest @ ..] => items_at(alloc, out, depth, column, first, rest),
        },
        Node::Pairs(pairs) => match pairs.as_slice() {
            [] => line(alloc, out, node),
            [first, rest @ ..] => pairs_at(alloc, out, depth, column, first, rest),
        },
        _ => line(alloc, out, node),
    }
}

#[cycle(node)]
fn items_at(
    alloc: Global,
    out: &mut Vec<u8>,
    depth: usize,
    column: usize,
    first: &Node,
    mut rest: &[Node],
) -> Result<(), NoMemory>
    requires room { column + 2 * depth + 2 < 2 ^ 63 }
    requires sound_first { IsSound depth first.now }
    requires sound { Each (IsSound depth) rest.now }
    ensures exact { OnOk result (out.new.items ≡ out.old.items ++ (spec.item_text (spec.node_text depth) column first.now ++ spec.rows column (spec.item_text (spec.node_text depth) column) rest.entry.now)) }
    ensures spelt { OnOk result (AreTexts depth first.now × Each (AreTexts depth) rest.entry.now) }
{
    item(alloc, out, depth, column, first)?;
    while let [next, more @ ..] = rest {
        indent(out, column)?;
        item(alloc, out, depth, column, next)?;
        rest = more;
    }
    Ok(())
}

#[cycle(node)]
fn item(
    alloc: Global,
    out: &mut Vec<u8>,
    depth: usize,
    column: usize,
    node: &Node,
) -> Result<(), NoMemory>
    requires room { column + 2 * depth + 2 < 2 ^ 63 }
    requires sound { IsSound depth node.now }
    ensures exact { OnOk result (out.new.items ≡ out.old.items ++ spec.item_text (spec.node_text depth) column node.now) }
    ensures spelt { OnOk result (AreTexts depth node.now) }
{
    push_bytes(out, b"- ")?;
    node_at(alloc, out, depth, column + 2, node)
}

#[cycle(node)]
fn pairs_at(
    alloc: Global,
    out: &mut Vec<u8>,
    depth: usize,
    column: usize,
    first: &Pair,
    mut rest: &[Pair],
) -> Result<(), NoMemory>
    requires room { column + 2 * depth + 2 < 2 ^ 63 }
    requires sound_first { IsSound depth (value_of first.now) }
    requires sound { Each (λ p. IsSound depth (value_of p)) rest.now }
    ensures exact { OnOk result (out.new.items ≡ out.old.items ++ (spec.pair_text (spec.node_text depth) column first.now ++ spec.rows column (spec.pair_text (spec.node_text depth) column) rest.entry.now)) }
    ensures spelt_first { OnOk result (IsUtf8 (key_of first.now) × AreTexts depth (value_of first.now)) }
    ensures spelt_keys { OnOk result (Each (λ p. IsUtf8 (key_of p)) rest.entry.now) }
    ensures spelt { OnOk result (Each (λ p. AreTexts depth (value_of p)) rest.entry.now) }
{
    pair(alloc, out, depth, column, first)?;
    while let [next, more @ ..] = rest {
        indent(out, column)?;
        pair(alloc, out, depth, column, next)?;
        rest = more;
    }
    Ok(())
}

#[cycle(node)]
fn pair(
    alloc: Global,
    out: &mut Vec<u8>,
    depth: usize,
    column: usize,
    pair: &Pair,
) -> Result<(), NoMemory>
    requires room { column + 2 * depth + 2 < 2 ^ 63 }
    requires sound { IsSound depth (value_of pair.now) }
    ensures exact { OnOk result (out.new.items ≡ out.old.items ++ spec.pair_text (spec.node_text depth) column pair.now) }
    ensures spelt { OnOk result (IsUtf8 (key_of pair.now) × AreTexts depth (value_of pair.now)) }
{
    write_text(alloc, out, pair.key.as_str())?;
    push_bytes(out, b":")?;
    value(alloc, out, depth, column, &pair.value)
}

// A value, behind the colon.
#[cycle(node)]
fn value(
    alloc: Global,
    out: &mut Vec<u8>,
    depth: usize,
    column: usize,
    node: &Node,
) -> Result<(), NoMemory>
    requires room { column + 2 * depth + 2 < 2 ^ 63 }
    requires sound { IsSound depth node.now }
    ensures exact { OnOk result (out.new.items ≡ out.old.items ++ spec.value_text (spec.node_text depth) column node.now) }
    ensures spelt { OnOk result (AreTexts depth node.now) }
{
    match extra_columns(node) {
        None => {
            push_bytes(out, b" ")?;
            node_at(alloc, out, depth, column, node)
        }
        Some(more) => {
            push_bytes(out, b"\n")?;
            indent(out, column + more)?;
            node_at(alloc, out, depth, column + more, node)
        }
    }
}

/// The text of a node, which is read back as the same node.
#[tactic(auto, unfolding(crate::specs::Print::print_text), using(crate::proofs::DocumentRead::read_back))]
pub fn print(alloc: Global, node: &Node) -> Result<Bytes, NoMemory>
    requires { IsPrintable node.now }
    ensures exact { IfOk result (λ bytes. bytes ≡ spec.print_text node.now) }
    ensures read_back { IfOk result (λ bytes. parse bytes ≡ Ok node.now) }
{
    let mut out = Vec::new(alloc);
    node_at(alloc, &mut out, MAX_DEPTH, 0, node)?;
    Ok(Bytes::from_vec(out))
}
