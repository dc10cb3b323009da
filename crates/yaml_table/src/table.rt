// The rows of the table, each with what its text stands for.
ghost use Rattle.std.specs.Prelude.{◌^◌, ◌≤◌, IfOk};
ghost use Rattle.yaml_print.specs.Sound.{IsPrintable};

use crate::escape::{push_escaped, unescape};
use crate::show::{push, show, show_fault};
use dvc_base::NoMemory;
use std::alloc::Global;
use yaml_profile::{Node, YamlFault, parse, print};

// The longest text that is read here.
const MAX_LEN: usize = 1 << 24;

/// The table, with an outcome behind each row.
pub(crate) fn outcomes(alloc: Global, table: &[u8]) -> Result<Vec<u8>, NoMemory> {
    let mut out = Vec::new(alloc);
    let lines = table.strip_suffix(b"\n".as_slice()).unwrap_or(table);
    for line in lines.split(|byte| *byte == b'\n') {
        push_line(alloc, &mut out, line)?;
    }
    Ok(out)
}

fn push_line(alloc: Global, out: &mut Vec<u8>, line: &[u8]) -> Result<(), NoMemory> {
    out.extend_from_slice(line)?;
    match line {
        [b'=', row @ ..] => push_node(alloc, out, row)?,
        [b'>', row @ ..] => push_printed(alloc, out, row)?,
        _ => {}
    }
    push(out, "\n")
}

// The bytes that stand in a row behind its sign and a space.
fn text_of(alloc: Global, row: &[u8]) -> Result<Vec<u8>, NoMemory> {
    match row {
        [b' ', text @ ..] => unescape(alloc, text),
        _ => unescape(alloc, row),
    }
}

// Adds the node or the fault of a row's text.
fn push_node(alloc: Global, out: &mut Vec<u8>, row: &[u8]) -> Result<(), NoMemory> {
    let text = text_of(alloc, row)?;
    push_both_ways(alloc, out, text.as_slice())
}

fn push_both_ways(alloc: Global, out: &mut Vec<u8>, text: &[u8]) -> Result<(), NoMemory> {
    let before = outcome(alloc, text)?;
    push_outcome(out, before.as_slice())?;
    push_again(alloc, out, text, before.as_slice())
}

// Adds what is printed for a row's text, or its fault.
fn push_printed(alloc: Global, out: &mut Vec<u8>, row: &[u8]) -> Result<(), NoMemory> {
    let text = text_of(alloc, row)?;
    match read(alloc, text.as_slice()) {
        Ok(node) => {
            let bytes = print(alloc, &node)?;
            push_outcome(out, bytes.as_slice())
        }
        Err(_) => push_both_ways(alloc, out, text.as_slice()),
    }
}

fn push_outcome(out: &mut Vec<u8>, outcome: &[u8]) -> Result<(), NoMemory> {
    push(out, " => ")?;
    push_escaped(out, outcome)
}

// Adds what the printed text stands for, where that differs from what the text stood for before it was printed.
fn push_again(
    alloc: Global,
    out: &mut Vec<u8>,
    text: &[u8],
    before: &[u8],
) -> Result<(), NoMemory> {
    match read(alloc, text) {
        Ok(node) => {
            let bytes = print(alloc, &node)?;
            push_difference(alloc, out, bytes.as_slice(), before)
        }
        Err(_) => Ok(()),
    }
}

fn push_difference(
    alloc: Global,
    out: &mut Vec<u8>,
    bytes: &[u8],
    before: &[u8],
) -> Result<(), NoMemory> {
    let after = outcome(alloc, bytes)?;
    if after.as_slice() == before {
        return Ok(());
    }
    push(out, ", printed as ")?;
    push_escaped(out, after.as_slice())
}

// A text's node or its fault, in short.
fn outcome(alloc: Global, text: &[u8]) -> Result<Vec<u8>, NoMemory> {
    let mut out = Vec::new(alloc);
    match read(alloc, text) {
        Ok(node) => show(&mut out, &node)?,
        Err(fault) => show_fault(alloc, &mut out, fault)?,
    }
    Ok(out)
}

// The node of a text, for which there is memory up to a length that no row has.
#[tactic(auto, using(yaml_nodes::proofs::DocumentLemmas::lines_le))]
fn read(alloc: Global, text: &[u8]) -> Result<Node, YamlFault>
    ensures { IfOk result IsPrintable }
{
    if text.len() > MAX_LEN {
        return Err(YamlFault::NoMemory);
    }
    parse(alloc, text)
}
