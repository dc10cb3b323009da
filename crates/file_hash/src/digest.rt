// The digest of a file, which is hashed as it is read, a piece at a time.
ghost use Rattle.std.specs.Prelude.{◌≡◌, ℕ, List, IsTrue, IfOk, IfErr, IsErrOf, Some, false, true};
ghost use Rattle.md5.specs.Md5.{md5, Holds};
ghost use Rattle.hex.specs.Hex.{encode_lower};
ghost use Rattle.dvc_base.specs.Name.{are_digits};
ghost use Rattle.world_api.specs.Tree.{item_at, file};
ghost use Rattle.world_api.specs.Outside.{tree_of, IsUntouched};
ghost use Rattle.world_api.specs.History.{IsCaused};
ghost use Rattle.file_bytes.specs.Reading.{IsTold, HasTaken, IsChange};
ghost use Rattle.file_hash.specs.Listing.{is_file_name};
ghost use Rattle.file_bytes.specs.declared.fault.ReadFault.TheVariants.{Failed as Unread, NoMemory as Starved};

use dvc_base::{Name, NoMemory, Rel};
use file_bytes::{Piece, ReadFault, TakesPieces, read_file};
use hex::encode_to_slice;
use md5::{Digest, Md5};
use world_api::ReadFiles;

// The digest of a file that was told to have this size. Hashing takes no memory.
pub fn digest_of_file<F: ReadFiles>(
    files: &mut F,
    at: &Rel,
    size: u64,
    piece: &mut Piece,
) -> Result<[u8; 16], ReadFault>
    requires { IsTrue F.tells → IsTold (item_at (tree_of (F.history files.old)) at.now) size }
    ensures read { IsTrue F.tells → IfOk result (λ digest. (bytes : List ℕ) →
        item_at (tree_of (F.history files.old)) at.now ≡ Some (file bytes) → digest ≡ md5 bytes) }
    ensures taken { IfOk result (λ digest. HasTaken (λ bytes. digest ≡ md5 bytes) size) }
    ensures changed { IfErr result (IsChange F.tells size) }
    ensures memory { ¬ (IsErrOf result Starved) }
    ensures unchanged { IsUntouched F.tells (F.history files.old) (F.history files.new) }
    ensures cause { IsCaused (F.faults files.old) (F.faults files.new) (IsErrOf result Unread) }
{
    let mut hasher = Hasher { inner: Md5::new() };
    read_file(files, at, size, piece, &mut hasher)?;
    Ok(hasher.inner.finalize())
}

// The digits of a digest.
pub fn digits_of(digest: &[u8; 16]) -> [u8; 32]
    ensures exact { result ≡ encode_lower digest.now }
    ensures digits { IsTrue (are_digits result) }
{
    let mut digits = [0; 32];
    let _ = encode_to_slice(digest.as_slice(), &mut digits);
    digits
}

// The name of a file with this digest.
pub fn name_of(digest: &[u8; 16]) -> Name
    ensures exact { result ≡ record { digits = encode_lower digest.now; dir = false } }
    ensures file { is_file_name result ≡ true }
{
    Name {
        digits: digits_of(digest),
        dir: false,
    }
}

// Hashes the pieces that it takes.
#[derive(Drop)]
struct Hasher {
    inner: Md5,
}

impl TakesPieces for Hasher {
    ghost holds = { λ hasher bytes. Holds hasher.inner bytes };

    ghost grows = { false };

    fn take(&mut self, piece: &[u8]) -> Result<(), NoMemory> {
        self.inner.update(piece);
        Ok(())
    }
}
