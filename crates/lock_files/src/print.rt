// The texts of a book, a track file and an entry, and of what an entry's outputs were made of.
ghost use Rattle.std.specs.Prelude.{◌≡◌, Ok, IfOk};
ghost use Rattle.yaml_print.specs.Print.{print_text};
ghost use Rattle.lock_files.specs.Form.{IsEntry, IsTrack, IsBook};
ghost use Rattle.lock_files.specs.Read.{lock_read, track_read, entry_read};
ghost use Rattle.lock_files.specs.Nodes.{entry_node, key_node, lock_node, track_node};

use crate::nodes::{entry_node, key_node, lock_node, track_node};
use crate::{Entry, LockBook, Track};
use dvc_base::{Bytes, NoMemory};
use std::alloc::Global;
use yaml_profile::print;

/// The text of a book, which is read as just this book.
pub fn print_lock(alloc: Global, book: &LockBook) -> Result<Bytes, NoMemory>
    requires { IsBook book.now }
    ensures exact { IfOk result (λ text. text ≡ print_text (lock_node book.now)) }
    ensures read_back { IfOk result (λ text. lock_read text ≡ Ok book.now) }
{
    let node = lock_node(alloc, book)?;
    print(alloc, &node)
}

/// The text of a track file, which is read as just this one.
pub fn print_track(alloc: Global, track: &Track) -> Result<Bytes, NoMemory>
    requires { IsTrack track.now }
    ensures exact { IfOk result (λ text. text ≡ print_text (track_node track.now)) }
    ensures read_back { IfOk result (λ text. track_read text ≡ Ok track.now) }
{
    let node = track_node(alloc, track)?;
    print(alloc, &node)
}

/// The text of an entry, which is read as just this one.
pub fn print_entry(alloc: Global, entry: &Entry) -> Result<Bytes, NoMemory>
    requires { IsEntry entry.now }
    ensures exact { IfOk result (λ text. text ≡ print_text (entry_node entry.now)) }
    ensures read_back { IfOk result (λ text. entry_read text ≡ Ok entry.now) }
{
    let node = entry_node(alloc, entry)?;
    print(alloc, &node)
}

/// The text of what an entry's outputs were made of: that of the entry, with the paths of its outputs alone.
pub fn print_key(alloc: Global, entry: &Entry) -> Result<Bytes, NoMemory>
    requires { IsEntry entry.now }
    ensures exact { IfOk result (λ text. text ≡ print_text (key_node entry.now)) }
{
    let node = key_node(alloc, entry)?;
    print(alloc, &node)
}
