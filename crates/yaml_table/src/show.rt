// A node or a fault in short: `t(..)`, `w(..)` and `d(..)` are a text, a whole number and a decimal as written.
use dvc_base::NoMemory;
use std::alloc::Global;
use yaml_profile::{Node, Pair, YamlFault};

/// Adds a node in short.
#[cycle(show)]
pub(crate) fn show(out: &mut Vec<u8>, node: &Node) -> Result<(), NoMemory> {
    match node {
        Node::Null => push(out, "null"),
        Node::Bool(true) => push(out, "true"),
        Node::Bool(false) => push(out, "false"),
        Node::Whole { text, .. } => push_between(out, "w(", text.as_str(), ")"),
        Node::Decimal { text } => push_between(out, "d(", text.as_str(), ")"),
        Node::Text(text) => push_between(out, "t(", text.as_str(), ")"),
        Node::Items(items) => show_items(out, items.as_slice()),
        Node::Pairs(pairs) => show_pairs(out, pairs.as_slice()),
    }
}

#[cycle(show)]
fn show_items(out: &mut Vec<u8>, items: &[Node]) -> Result<(), NoMemory> {
    push(out, "[")?;
    for at in 0..items.len() {
        push_comma(out, at)?;
        show(out, &items[at])?;
    }
    push(out, "]")
}

#[cycle(show)]
fn show_pairs(out: &mut Vec<u8>, pairs: &[Pair]) -> Result<(), NoMemory> {
    push(out, "{")?;
    for at in 0..pairs.len() {
        push_comma(out, at)?;
        show_pair(out, &pairs[at])?;
    }
    push(out, "}")
}

#[cycle(show)]
fn show_pair(out: &mut Vec<u8>, pair: &Pair) -> Result<(), NoMemory> {
    push_between(out, "", pair.key.as_str(), ": ")?;
    show(out, &pair.value)
}

// What parts an element from the one before it.
fn push_comma(out: &mut Vec<u8>, at: usize) -> Result<(), NoMemory> {
    if at > 0 { push(out, ", ") } else { Ok(()) }
}

/// Adds a fault and its line.
pub(crate) fn show_fault(
    alloc: Global,
    out: &mut Vec<u8>,
    fault: YamlFault,
) -> Result<(), NoMemory> {
    let (name, line) = match fault {
        YamlFault::Syntax { line } => ("syntax", line),
        YamlFault::Duplicate { line } => ("duplicate", line),
        YamlFault::TooDeep { line } => ("too deep", line),
        YamlFault::TooWide { line } => ("too wide", line),
        YamlFault::NoMemory => return Err(NoMemory),
    };
    let text = format!(in alloc; "{name} {line}")?;
    push(out, text.as_str())
}

/// Adds a text.
pub(crate) fn push(out: &mut Vec<u8>, text: &str) -> Result<(), NoMemory> {
    out.extend_from_slice(text.as_bytes())?;
    Ok(())
}

fn push_between(out: &mut Vec<u8>, before: &str, text: &str, after: &str) -> Result<(), NoMemory> {
    push(out, before)?;
    push(out, text)?;
    push(out, after)
}
