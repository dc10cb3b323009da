// The rows of the table, each with what its text says.
ghost use Rattle.std.specs.Prelude.{◌^◌, ◌≤◌};

use crate::show::{show_fault, show_stages};
use dvc_base::{NoMemory, Node, Writer, YamlFault};
use std::alloc::Global;
use template_expand::{ExpandFault, Stages, expand, wanted_files};
use yaml_profile::parse;

/// The longest text that is read here.
const MAX_LEN: usize = 1 << 24;

/// A text of several lines, as far as they have come.
#[derive(Drop)]
struct Row {
    text: Option<Writer>,
}

/// The table, with an outcome behind each text.
pub(crate) fn outcomes(alloc: Global, table: &[u8]) -> Result<Writer, NoMemory> {
    let mut out = Writer::new(alloc);
    let mut row = Row { text: None };
    let lines = table.strip_suffix(b"\n".as_slice()).unwrap_or(table);
    for line in lines.split(|byte| *byte == b'\n') {
        put_line(alloc, &mut out, &mut row, line)?;
    }
    end(alloc, &mut out, &row)?;
    Ok(out)
}

fn put_line(alloc: Global, out: &mut Writer, row: &mut Row, line: &[u8]) -> Result<(), NoMemory> {
    if let [b'=', b' ', ..] = line {
        end(alloc, out, row)?;
        row.text = Some(Writer::new(alloc));
        return out.put_all(&[line, b"\n"]);
    }
    match &mut row.text {
        Some(text) => put_piece(out, text, line),
        None => put_whole(alloc, out, line),
    }
}

/// Puts a line of a text of several lines.
fn put_piece(out: &mut Writer, text: &mut Writer, line: &[u8]) -> Result<(), NoMemory> {
    text.put_all(&[line, b"\n"])?;
    out.put_all(&[line, b"\n"])
}

/// Puts a line that is a text of its own, or stays as it is.
fn put_whole(alloc: Global, out: &mut Writer, line: &[u8]) -> Result<(), NoMemory> {
    out.put(line)?;
    match line {
        [] | [b'#', ..] => {}
        _ => put_outcome(alloc, out, b" => ", line)?,
    }
    out.put(b"\n")
}

/// Puts the outcome of a text whose lines have all come.
fn end(alloc: Global, out: &mut Writer, row: &Row) -> Result<(), NoMemory> {
    match &row.text {
        Some(text) => {
            put_outcome(alloc, out, b"=> ", text.as_slice())?;
            out.put(b"\n")
        }
        None => Ok(()),
    }
}

fn put_outcome(alloc: Global, out: &mut Writer, sign: &[u8], text: &[u8]) -> Result<(), NoMemory> {
    out.put(sign)?;
    match read(alloc, text) {
        Ok(root) => put_expansion(alloc, out, &root),
        Err(_) => out.put(b"no node"),
    }
}

fn put_expansion(alloc: Global, out: &mut Writer, root: &Node) -> Result<(), NoMemory> {
    match stages_of(alloc, root) {
        Ok(stages) => show_stages(out, stages.as_slice()),
        Err(fault) => show_fault(out, &fault),
    }
}

/// The stages of a node where no file of variables is there. What can't be gone without is refused first, as `dvc` does before
/// it reads these files.
fn stages_of(alloc: Global, root: &Node) -> Result<Stages, ExpandFault> {
    wanted_files(alloc, root)?;
    expand(alloc, root, &[])
}

/// The node of a text, for which there is memory up to a length that no row has.
#[tactic(auto, using(yaml_nodes::proofs::DocumentLemmas::lines_le))]
fn read(alloc: Global, text: &[u8]) -> Result<Node, YamlFault> {
    if text.len() > MAX_LEN {
        return Err(YamlFault::NoMemory);
    }
    parse(alloc, text)
}
