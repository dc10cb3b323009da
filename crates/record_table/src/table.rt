// The texts of the table, each with its outcome behind it.
use crate::again::Record;
use crate::show::put_outcome;
use dvc_base::{NoMemory, Writer};
use std::alloc::Global;

/// A text of the table, as far as its lines have come.
#[derive(Drop)]
struct Row {
    record: Option<Record>,
    text: Writer,
}

/// The table, with an outcome behind each text.
pub(crate) fn outcomes(alloc: Global, table: &[u8]) -> Result<Writer, NoMemory> {
    let mut out = Writer::new(alloc);
    let mut row = Row {
        record: None,
        text: Writer::new(alloc),
    };
    let lines = table.strip_suffix(b"\n".as_slice()).unwrap_or(table);
    for line in lines.split(|byte| *byte == b'\n') {
        put_line(alloc, &mut out, &mut row, line)?;
    }
    end(alloc, &mut out, &row)?;
    Ok(out)
}

fn put_line(alloc: Global, out: &mut Writer, row: &mut Row, line: &[u8]) -> Result<(), NoMemory> {
    match line {
        [b'=', b' ', head @ ..] => {
            end(alloc, out, row)?;
            row.record = record_of(head);
            row.text = Writer::new(alloc);
        }
        _ => row.text.put_all(&[line, b"\n"])?,
    }
    out.put_all(&[line, b"\n"])
}

// What a text is read as, by the line that begins it.
fn record_of(head: &[u8]) -> Option<Record> {
    if head.starts_with(b"lock") {
        Some(Record::Lock)
    } else if head.starts_with(b"track") {
        Some(Record::Track)
    } else if head.starts_with(b"entry") {
        Some(Record::Entry)
    } else {
        None
    }
}

// Puts the outcome of a text whose lines have all come.
fn end(alloc: Global, out: &mut Writer, row: &Row) -> Result<(), NoMemory> {
    match row.record {
        Some(record) => put_outcome(alloc, out, record, row.text.as_slice()),
        None => Ok(()),
    }
}
