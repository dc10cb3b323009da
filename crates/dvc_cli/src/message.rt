// The line on the error output that tells a fault.
ghost use Rattle.std.specs.Prelude.{◌++◌, IsTrue, codes};
ghost use Rattle.std.specs.List.{flat_map};
ghost use Rattle.dvc_base.specs.FaultParts.{part_text, text_in, walk_text};
ghost use Rattle.world_api.specs.History.{HasCause};
ghost use Rattle.world_api.specs.Calls.{Takes};
ghost use Rattle.dvc_cli.specs.Tell.{next_text, fault_line};

use crate::room::Room;
use dvc_base::{Failed, Fault, Part, Text};
use itoa::Buffer;
use world_api::Sink;

/// Puts the line of the fault, at once where it isn't very long: `ERROR: `, its text and a line feed. It takes no memory.
pub fn tell<K: Sink>(fault: &Fault, to: &mut K) -> Result<(), Failed>
    ensures line { IsTrue K.tells → Takes (K.taken to.old) (fault_line fault.now) (K.taken to.new) result }
    ensures cause { HasCause (K.faults to.old) (K.faults to.new) result }
{
    let text = fault.text();
    let mut room = Room::new();
    match put_line(&text.parts, &mut room) {
        Ok(()) => to.put(room.bytes()),
        // A line that doesn't fit is put in parts.
        Err(_) => put_line(&text.parts, to),
    }
}

fn put_line<K: Sink>(parts: &[Part<'_>], to: &mut K) -> Result<(), Failed>
    ensures line { IsTrue K.tells → Takes (K.taken to.old)
        (codes "ERROR: " ++ (text_in parts.now ++ codes "\n")) (K.taken to.new) result }
    ensures cause { HasCause (K.faults to.old) (K.faults to.new) result }
{
    to.put(b"ERROR: ")?;
    put_parts(parts, to)?;
    to.put(b"\n")
}

fn put_parts<K: Sink>(parts: &[Part<'_>], to: &mut K) -> Result<(), Failed>
    ensures all { IsTrue K.tells → Takes (K.taken to.old) (text_in parts.now) (K.taken to.new) result }
    ensures cause { HasCause (K.faults to.old) (K.faults to.new) result }
{
    for part in parts {
        put_part(*part, to)?;
    }
    Ok(())
}

fn put_part<K: Sink>(part: Part<'_>, to: &mut K) -> Result<(), Failed>
    ensures all { IsTrue K.tells → Takes (K.taken to.old) (part_text part.entry) (K.taken to.new) result }
    ensures cause { HasCause (K.faults to.old) (K.faults to.new) result }
{
    let mut buffer = Buffer::new();
    match part {
        Part::Nothing => Ok(()),
        Part::Bytes(bytes) => to.put(bytes),
        Part::Number(number) => to.put(buffer.format(number).as_bytes()),
        Part::Code(code) => to.put(buffer.format(code).as_bytes()),
        Part::Walk(names) => put_walk(names, to),
    }
}

fn put_walk<K: Sink>(names: &[Text], to: &mut K) -> Result<(), Failed>
    ensures all { IsTrue K.tells → Takes (K.taken to.old) (walk_text names.now) (K.taken to.new) result }
    ensures cause { HasCause (K.faults to.old) (K.faults to.new) result }
{
    match names.split_first() {
        None => Ok(()),
        Some((first, others)) => {
            to.put(first.as_str().as_bytes())?;
            put_others(others, to)
        }
    }
}

fn put_others<K: Sink>(names: &[Text], to: &mut K) -> Result<(), Failed>
    ensures all { IsTrue K.tells →
        Takes (K.taken to.old) (flat_map next_text names.now) (K.taken to.new) result }
    ensures cause { HasCause (K.faults to.old) (K.faults to.new) result }
{
    for name in names {
        put_next(name, to)?;
    }
    Ok(())
}

fn put_next<K: Sink>(name: &Text, to: &mut K) -> Result<(), Failed>
    ensures all { IsTrue K.tells → Takes (K.taken to.old) (next_text name.now) (K.taken to.new) result }
    ensures cause { HasCause (K.faults to.old) (K.faults to.new) result }
{
    to.put(b" <- ")?;
    to.put(name.as_str().as_bytes())
}
