// The names of single files.
ghost use Rattle.std.specs.Prelude.{◌≡◌, false, IsTrue, IfOk, IfErr, IsErrOf, Some, None};
ghost use Rattle.hex.specs.Hex.{encode_lower};
ghost use Rattle.world_api.specs.Tree.{item_at, value_at};
ghost use Rattle.world_api.specs.Outside.{tree_of, IsUntouched};
ghost use Rattle.world_api.specs.History.{IsCaused};
ghost use Rattle.file_bytes.specs.Reading.{IsTold};
ghost use Rattle.file_hash.specs.Naming.{named_of, file_naming_of, IsFileDue, IsFileName, IsFileChange};
ghost use Rattle.file_hash.specs.declared.fault.FileFault.TheVariants.{Failed as Blamed};

use crate::digest::{digest_of_file, name_of};
use crate::{FileFault, Named};
use dvc_base::{Rel, What};
use file_bytes::{Piece, ReadFault};
use world_api::{Kind, ReadFiles};

/// The name of the file at a path, which is read through the piece. It takes no memory.
pub fn name_file<F: ReadFiles>(
    files: &mut F,
    at: &Rel,
    piece: &mut Piece,
) -> Result<Named, FileFault>
    ensures named { IsTrue F.tells → IfOk result (λ named.
        named_of (value_at (tree_of (F.history files.old)) at.now) ≡ Some named) }
    ensures answer { IsTrue F.tells →
        IsFileDue result (file_naming_of (item_at (tree_of (F.history files.old)) at.now)) }
    ensures good { IfOk result IsFileName }
    ensures unchanged { IsUntouched F.tells (F.history files.old) (F.history files.new) }
    ensures changed { IfErr result (IsFileChange F.tells) }
    ensures cause { IsCaused (F.faults files.old) (F.faults files.new) (IsErrOf result Blamed) }
{
    match files.kind(at) {
        Ok(Kind::File { size }) => name_sized(files, at, size, piece),
        Ok(_) => Err(FileFault::Missing),
        Err(_) => Err(FileFault::Failed),
    }
}

// The name of a file that was told to have this size.
pub fn name_sized<F: ReadFiles>(
    files: &mut F,
    at: &Rel,
    size: u64,
    piece: &mut Piece,
) -> Result<Named, FileFault>
    requires { IsTrue F.tells → IsTold (item_at (tree_of (F.history files.old)) at.now) size }
    ensures answer { IsTrue F.tells →
        IsFileDue result (file_naming_of (item_at (tree_of (F.history files.old)) at.now)) }
    ensures good { IfOk result IsFileName }
    ensures sized { IfOk result (λ named. named.size ≡ size) }
    ensures unchanged { IsUntouched F.tells (F.history files.old) (F.history files.new) }
    ensures changed { IfErr result (IsFileChange F.tells) }
    ensures cause { IsCaused (F.faults files.old) (F.faults files.new) (IsErrOf result Blamed) }
{
    if size > What::FileSize.limit() {
        return Err(FileFault::TooLarge {
            what: What::FileSize,
            limit: What::FileSize.limit(),
        });
    }
    match digest_of_file(files, at, size, piece) {
        Ok(digest) => Ok(named_file(&digest, size)),
        Err(ReadFault::Changed { told, found }) => Err(FileFault::Changed { told, found }),
        Err(ReadFault::Failed | ReadFault::NoMemory) => Err(FileFault::Failed),
    }
}

// What is told of a file by the digest of its bytes.
fn named_file(digest: &[u8; 16], size: u64) -> Named
    ensures exact { result ≡ record {
      name = record { digits = encode_lower digest.now; dir = false };
      size = size;
      nfiles = None;
    } }
{
    Named {
        name: name_of(digest),
        size,
        nfiles: None,
    }
}
