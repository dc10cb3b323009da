// Texts of locks, track files and entries, read: the first refusal, or the value.
ghost use Rattle.std.specs.Prelude.{◌<◌, ◌+◌, ◌^◌, ◌==◌, [], count_by, IfOk};
ghost use Rattle.yaml_print.specs.Sound.{IsPrintable};
ghost use Rattle.lock_files.specs.Form.{IsEntry, IsTrack, IsBook};
ghost use Rattle.lock_files.specs.Refused.{lock_refused, track_refused, entry_refused};
ghost use Rattle.lock_files.specs.Value.{entry_in, lock_in, track_in};
ghost use Rattle.lock_files.specs.Read as spec;
ghost use Rattle.lock_files.specs.Read.{IsAnswer, value_unless};

use crate::refused::{check_entry, check_lock, check_track};
use crate::value::{entry_in, lock_in, track_in};
use crate::{Entry, LockBook, LockFault, Track};
use dvc_base::{Node, YamlFault};
use std::alloc::Global;
use yaml_profile::parse;

/// The book of a lock's text, or the first refusal. The book is in form.
#[tactic(auto, unfolding(crate::specs::Read::lock_read))]
pub fn read_lock(alloc: Global, text: &[u8]) -> Result<LockBook, LockFault>
    requires { count_by (λ b. b == 10) text.now + 1 < 2 ^ 32 }
    ensures exact { IsAnswer result (spec.lock_read text.now) }
    ensures form { IfOk result IsBook }
{
    let node = node_of(alloc, text)?;
    lock_of(alloc, &node)
}

/// What a track file's text says, or the first refusal.
#[tactic(auto, unfolding(crate::specs::Read::track_read))]
pub fn read_track(alloc: Global, text: &[u8]) -> Result<Track, LockFault>
    requires { count_by (λ b. b == 10) text.now + 1 < 2 ^ 32 }
    ensures exact { IsAnswer result (spec.track_read text.now) }
    ensures form { IfOk result IsTrack }
{
    let node = node_of(alloc, text)?;
    track_of(alloc, &node)
}

/// The entry of a text, or the first refusal.
#[tactic(auto, unfolding(crate::specs::Read::entry_read))]
pub fn read_entry(alloc: Global, text: &[u8]) -> Result<Entry, LockFault>
    requires { count_by (λ b. b == 10) text.now + 1 < 2 ^ 32 }
    ensures exact { IsAnswer result (spec.entry_read text.now) }
    ensures form { IfOk result IsEntry }
{
    let node = node_of(alloc, text)?;
    entry_of(alloc, &node)
}

// The node of a text, or why it has none.
#[tactic(auto, unfolding(crate::specs::Read::node_read))]
fn node_of(alloc: Global, text: &[u8]) -> Result<Node, LockFault>
    requires { count_by (λ b. b == 10) text.now + 1 < 2 ^ 32 }
    ensures exact { IsAnswer result (spec.node_read text.now) }
    ensures printable { IfOk result IsPrintable }
{
    match parse(alloc, text) {
        Ok(node) => Ok(node),
        Err(YamlFault::NoMemory) => Err(LockFault::NoMemory),
        Err(fault) => Err(LockFault::Yaml { fault }),
    }
}

fn lock_of(alloc: Global, node: &Node) -> Result<LockBook, LockFault>
    requires printable { IsPrintable node.now }
    ensures exact { IsAnswer result (value_unless (lock_refused node.now) (lock_in node.now)) }
    ensures form { IfOk result IsBook }
{
    check_lock(alloc, node)?;
    let book = lock_in(alloc, node)?;
    Ok(book)
}

fn track_of(alloc: Global, node: &Node) -> Result<Track, LockFault>
    requires printable { IsPrintable node.now }
    ensures exact { IsAnswer result (value_unless (track_refused node.now) (track_in node.now)) }
    ensures form { IfOk result IsTrack }
{
    check_track(alloc, node)?;
    let track = track_in(alloc, node)?;
    Ok(track)
}

// An entry whose text is nothing else has no name.
fn entry_of(alloc: Global, node: &Node) -> Result<Entry, LockFault>
    requires printable { IsPrintable node.now }
    ensures exact { IsAnswer result (value_unless (entry_refused [] node.now) (entry_in node.now)) }
    ensures form { IfOk result IsEntry }
{
    check_entry(alloc, "", node)?;
    let entry = entry_in(alloc, node)?;
    Ok(entry)
}
