// A file of the workspace, read a piece at a time.
ghost use Rattle.std.specs.Prelude.{◌≡◌, ◌<◌, ◌≤◌, ℕ, Bool, true, List, [], ◌++◌, length, IsTrue, IfOk, IfErr, OnOk, OnErr, IsErrOf, Some, vec_len};
ghost use Rattle.world_api.specs.Tree.{item_at, file};
ghost use Rattle.world_api.specs.Calls.{IsFileAt};
ghost use Rattle.world_api.specs.Outside.{tree_of, IsUntouched};
ghost use Rattle.world_api.specs.History.{IsCaused};
ghost use Rattle.file_bytes.specs.Reading.{IsTold, HasTaken, HoldsFile, HoldsFront, HasAdded, IsChange, IsChangeAfter, IsFree};
ghost use Rattle.file_bytes.specs.declared.fault.ReadFault.TheVariants.{Failed as Blamed, NoMemory as Starved};

use crate::ReadFault;
use dvc_base::{NoMemory, Rel};
use std::alloc::Global;
use world_api::ReadFiles;

// How many bytes are asked for at once.
const PIECE: usize = 65_536;

/// A buffer for one piece of a file. Many files are read through one, since each new one is cleared first.
#[derive(Drop)]
pub struct Piece {
    bytes: [u8; PIECE],
}

impl Piece {
    /// A buffer of its own, which takes no memory of the heap.
    pub fn new() -> Piece {
        Piece { bytes: [0; PIECE] }
    }
}

/// What takes the bytes of a file, a piece at a time.
pub trait TakesPieces {
    /// Whether these are the bytes that it took so far.
    ghost holds: { Self → List ℕ → Type 0 };

    /// Whether taking a piece may run out of memory.
    ghost grows: { Bool };

    fn take(&mut self, piece: &[u8]) -> Result<(), NoMemory>
        ensures taken { (bytes : List ℕ) →
            Self.holds self.old bytes → OnOk result (Self.holds self.new (bytes ++ piece.now)) }
        ensures grown { OnErr result (IsTrue Self.grows) };
}

impl TakesPieces for Vec<u8> {
    ghost holds = { λ text bytes. text.items ≡ bytes };

    ghost grows = { true };

    fn take(&mut self, piece: &[u8]) -> Result<(), NoMemory> {
        self.extend_from_slice(piece)?;
        Ok(())
    }
}

/// Gives the bytes of a file that was told to have this size to what takes them. At most one byte further is asked for.
pub fn read_file<F: ReadFiles, T: TakesPieces>(
    files: &mut F,
    at: &Rel,
    size: u64,
    piece: &mut Piece,
    taker: &mut T,
) -> Result<(), ReadFault>
    requires told { IsTrue F.tells → IsTold (item_at (tree_of (F.history files.old)) at.now) size }
    requires empty { T.holds taker.old [] }
    ensures read { IsTrue F.tells → OnOk result
        (HoldsFile (T.holds taker.new) (item_at (tree_of (F.history files.old)) at.now)) }
    ensures taken { OnOk result (HasTaken (T.holds taker.new) size) }
    ensures changed { IfErr result (IsChangeAfter F.tells (T.holds taker.new) size) }
    ensures grown { IsErrOf result Starved → IsTrue T.grows }
    ensures unchanged { IsUntouched F.tells (F.history files.old) (F.history files.new) }
    ensures cause { IsCaused (F.faults files.old) (F.faults files.new) (IsErrOf result Blamed) }
{
    let found = read_pieces(files, at, size.saturating_add(1), &mut piece.bytes, taker)?;
    if found != size {
        return Err(ReadFault::Changed { told: size, found });
    }
    Ok(())
}

/// The bytes of a file that was told to have this size. At most one byte further is asked for.
pub fn read_whole<F: ReadFiles>(
    alloc: Global,
    files: &mut F,
    at: &Rel,
    size: u64,
) -> Result<Vec<u8>, ReadFault>
    requires told { IsTrue F.tells → IsTold (item_at (tree_of (F.history files.old)) at.now) size }
    ensures read { IsTrue F.tells → IfOk result (λ text.
        item_at (tree_of (F.history files.old)) at.now ≡ Some (file text.items)) }
    ensures sized { IfOk result (λ text. vec_len text ≡ size) }
    ensures changed { IfErr result (IsChange F.tells size) }
    ensures unchanged { IsUntouched F.tells (F.history files.old) (F.history files.new) }
    ensures cause { IsCaused (F.faults files.old) (F.faults files.new) (IsErrOf result Blamed) }
{
    let mut text = Vec::new(alloc);
    read_file(files, at, size, &mut Piece::new(), &mut text)?;
    Ok(text)
}

// Gives the first bytes of a file to what takes them, by pieces that fill the buffer: all, or as many as are wanted at
// the most. It answers how many.
fn read_pieces<F: ReadFiles, T: TakesPieces>(
    files: &mut F,
    at: &Rel,
    most: u64,
    buffer: &mut [u8],
    taker: &mut T,
) -> Result<u64, ReadFault>
    requires file { IsTrue F.tells → IsFileAt (tree_of (F.history files.old)) at.now }
    requires empty { T.holds taker.old [] }
    requires room { 0 < length buffer.old }
    ensures within { IfOk result (λ count. count ≤ most) }
    ensures read { IfOk result
        (HoldsFront F.tells (item_at (tree_of (F.history files.old)) at.now) most (T.holds taker.new)) }
    ensures free { IfErr result IsFree }
    ensures grown { IsErrOf result Starved → IsTrue T.grows }
    ensures unchanged { IsUntouched F.tells (F.history files.old) (F.history files.new) }
    ensures cause { IsCaused (F.faults files.old) (F.faults files.new) (IsErrOf result Blamed) }
{
    let mut count = 0;
    while count < most {
        let wanted = (most - count).min(buffer.len() as u64) as usize;
        let more = read_piece(files, at, count, &mut buffer[..wanted], taker)?;
        if more == 0 {
            break;
        }
        count += more;
    }
    Ok(count)
}

// Gives the bytes of the file that follow from an offset on to what takes them, and answers how many.
fn read_piece<F: ReadFiles, T: TakesPieces>(
    files: &mut F,
    at: &Rel,
    from: u64,
    piece: &mut [u8],
    taker: &mut T,
) -> Result<u64, ReadFault>
    requires file { IsTrue F.tells → IsFileAt (tree_of (F.history files.old)) at.now }
    ensures within { IfOk result (λ count. count ≤ length piece.old) }
    ensures added { IfOk result (λ count. (bytes : List ℕ) → T.holds taker.old bytes →
        HasAdded F.tells (item_at (tree_of (F.history files.old)) at.now) from (length piece.old)
        (T.holds taker.new) bytes count) }
    ensures free { IfErr result IsFree }
    ensures grown { IsErrOf result Starved → IsTrue T.grows }
    ensures unchanged { IsUntouched F.tells (F.history files.old) (F.history files.new) }
    ensures cause { IsCaused (F.faults files.old) (F.faults files.new) (IsErrOf result Blamed) }
{
    let Ok(count) = files.read_at(at, from, piece) else {
        return Err(ReadFault::Failed);
    };
    taker.take(&piece[..count])?;
    Ok(count as u64)
}
