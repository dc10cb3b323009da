// A file copied into the lane of the cache, a piece at a time, and hashed on the way where its bytes aren't known.
ghost use Rattle.std.specs.Prelude.{◌≡◌, ◌≢◌, ◌<◌, ◌≤◌, ℕ, List, [], ◌++◌, length, bytes_eq, IsTrue, IfOk, IfErr, OnOk, IsErrOf, ⊤};
ghost use Rattle.md5.specs.Md5.{Holds};
ghost use Rattle.hex.specs.Hex.{encode_lower};
ghost use Rattle.world_api.specs.Tree.{item_at};
ghost use Rattle.world_api.specs.Layout.{dvc_path, lane_path};
ghost use Rattle.world_api.specs.Calls.{IsFileAt};
ghost use Rattle.world_api.specs.Outside.{tree_of, PassesFrom};
ghost use Rattle.world_api.specs.History.{HasCause, IsCaused};
ghost use Rattle.world_api.specs.Writes.{IsNoFileAt, IsNoScratch, InScratch};
ghost use Rattle.file_bytes.specs.Reading.{IsTold, HoldsFront, HasAdded};
ghost use Rattle.object_cache.specs.Copying.{IsCopy, IsCopied, HasObject};
ghost use Rattle.object_cache.specs.Due.{fault_of, IsDue, HasHonestSizes, IsToldOf};
ghost use Rattle.object_cache.specs.declared.fault.CacheFault.TheVariants.{Failed as Blamed};

use crate::CacheFault;
use dvc_base::{Failed, Name, Plain, Rel};
use hex::encode_to_slice;
use md5::{Digest, Md5};
use std::alloc::Global;
use world_api::Files;

// The lane of all that is put into the cache, or given out of it.
pub(crate) const LANE: u32 = 0;

// How many bytes are copied at once.
const PIECE: usize = 65_536;

// Whether the digest is the one that the name tells.
pub(crate) fn has_digest(name: &Name, digest: &[u8; 16]) -> bool
    ensures exact { result ≡ bytes_eq (encode_lower digest.now) name.now.digits }
{
    let mut digits = [0; 32];
    let _ = encode_to_slice(digest.as_slice(), &mut digits);
    digits.as_slice() == name.digits()
}

// What looks at the bytes that are copied, a piece at a time.
pub(crate) trait WatchesPieces {
    // Whether these may be the bytes that were copied so far.
    ghost holds: { Self → List ℕ → Type 0 };

    fn watch(&mut self, piece: &[u8])
        ensures { (bytes : List ℕ) → Self.holds self.old bytes → Self.holds self.new (bytes ++ piece.now) };
}

// A file out of the cache is hashed as it is copied.
impl WatchesPieces for Md5 {
    ghost holds = { λ hasher bytes. Holds hasher bytes };

    fn watch(&mut self, piece: &[u8]) {
        self.update(piece);
    }
}

// A file that was named just before isn't hashed again, so that each byte of a value is hashed once. One that changes in
// between leaves an object that isn't whole: each look at it, and each giving out, hashes it again.
#[derive(Drop)]
pub(crate) struct Unhashed;

impl WatchesPieces for Unhashed {
    ghost holds = { λ unhashed bytes. ⊤ };

    fn watch(&mut self, _piece: &[u8]) {}
}

// Copies a file that was told to have this size into the lane, and puts that on the disk.
#[inline(never)]
pub(crate) fn copy_file<F: Files, W: WatchesPieces>(
    alloc: Global,
    files: &mut F,
    from: &Rel,
    size: u64,
    watcher: &mut W,
) -> Result<(), CacheFault>
    requires apart { IsNoScratch from.now }
    requires no_file { IsTrue F.tells → IsNoFileAt (tree_of (F.history files.old)) dvc_path }
    requires told { IsTrue F.tells → IsTold (item_at (tree_of (F.history files.old)) from.now) size }
    requires empty { W.holds watcher.old [] }
    ensures copied { IsTrue F.tells → OnOk result (IsCopied (W.holds watcher.new)
        (item_at (tree_of (F.history files.old)) from.now) (F.history files.new).present) }
    ensures free { IsTrue F.tells → IsDue (fault_of result) None }
    ensures told { IfErr result (IsToldOf from.now) }
    ensures honest { IfErr result (HasHonestSizes F.tells) }
    ensures moments { IsTrue F.tells → PassesFrom InScratch (F.history files.old) (F.history files.new) }
    ensures cause { IsCaused (F.faults files.old) (F.faults files.new) (IsErrOf result Blamed) }
{
    files.begin(LANE)?;
    let found = copy_pieces(
        files,
        from,
        size.saturating_add(1),
        &mut [0; PIECE],
        watcher,
    )?;
    if found != size {
        return Err(CacheFault::Changed {
            path: from.copy(alloc)?,
            told: size,
            found,
        });
    }
    files.settle(LANE)?;
    Ok(())
}

// Copies the first bytes of a file behind an empty lane: all, or as many as are wanted at the most. It answers how many.
fn copy_pieces<F: Files, W: WatchesPieces>(
    files: &mut F,
    from: &Rel,
    most: u64,
    piece: &mut [u8],
    watcher: &mut W,
) -> Result<u64, Failed>
    requires room { 0 < length piece.old }
    requires apart { IsNoScratch from.now }
    requires no_dvc { IsTrue F.tells → IsFileAt (tree_of (F.history files.old)) from.now }
    requires empty { IsCopy (W.holds watcher.old) F.tells (F.history files.old) [] }
    ensures within { IfOk result (λ count. count ≤ most) }
    ensures copied { IfOk result (HoldsFront F.tells (item_at (tree_of (F.history files.old)) from.now) most
        (IsCopy (W.holds watcher.new) F.tells (F.history files.new))) }
    ensures moments { IsTrue F.tells → PassesFrom InScratch (F.history files.old) (F.history files.new) }
    ensures cause { HasCause (F.faults files.old) (F.faults files.new) result }
{
    let mut count = 0;
    while count < most {
        let wanted = (most - count).min(piece.len() as u64) as usize;
        let more = copy_piece(files, from, count, &mut piece[..wanted], watcher)?;
        if more == 0 {
            break;
        }
        count += more;
    }
    Ok(count)
}

// Copies the bytes of the file that follow from an offset on behind the lane, and answers how many.
fn copy_piece<F: Files, W: WatchesPieces>(
    files: &mut F,
    from: &Rel,
    offset: u64,
    piece: &mut [u8],
    watcher: &mut W,
) -> Result<u64, Failed>
    requires file { IsTrue F.tells → IsFileAt (tree_of (F.history files.old)) from.now }
    requires lane { IsTrue F.tells → IsFileAt (tree_of (F.history files.old)) (lane_path 0) }
    ensures within { IfOk result (λ count. count ≤ length piece.old) }
    ensures added { IfOk result (λ count. (bytes : List ℕ) →
        IsCopy (W.holds watcher.old) F.tells (F.history files.old) bytes →
        HasAdded F.tells (item_at (tree_of (F.history files.old)) from.now) offset (length piece.old)
        (IsCopy (W.holds watcher.new) F.tells (F.history files.new)) bytes count) }
    ensures moments { IsTrue F.tells → PassesFrom InScratch (F.history files.old) (F.history files.new) }
    ensures cause { HasCause (F.faults files.old) (F.faults files.new) result }
{
    let count = files.read_at(from, offset, piece)?;
    let more = &piece[..count];
    watcher.watch(more);
    files.append(LANE, more)?;
    Ok(count as u64)
}
