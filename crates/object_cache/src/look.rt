// Whether objects are whole.
ghost use Rattle.std.specs.Prelude.{◌≡◌, is_some, map, IsTrue, IfOk, IfErr, IsErrOf};
ghost use Rattle.world_api.specs.Outside.{tree_of, IsUntouched};
ghost use Rattle.world_api.specs.History.{IsCaused};
ghost use Rattle.object_cache.specs.Objects.{object_path, object_at, member_name, are_whole, is_whole};
ghost use Rattle.object_cache.specs.Due.{fault_of, IsDue, HasHonestSizes, IsHasFault, IsPlaceFault, has_fault, names_fault, whole_fault};
ghost use Rattle.object_cache.specs.declared.fault.CacheFault.TheVariants.{Failed as Blamed};

use crate::CacheFault;
use crate::listing::listing_of;
use crate::paths::object_path;
use dvc_base::{Name, Plain, Rel};
use file_bytes::Piece;
use file_hash::{FileFault, Member, name_file};
use std::alloc::Global;
use world_api::ReadFiles;

/// Whether the object of a name is whole: whether its bytes have the name's MD5.
pub fn has<F: ReadFiles>(alloc: Global, files: &mut F, name: &Name) -> Result<bool, CacheFault>
    ensures told { IsTrue F.tells → IfOk result (λ whole.
        whole ≡ is_some (object_at (tree_of (F.history files.old)) name.now)) }
    ensures answer { IsTrue F.tells → IsDue (fault_of result)
        (has_fault (tree_of (F.history files.old)) name.now) }
    ensures kinds { IfErr result (IsHasFault name.now) }
    ensures place { IfErr result (IsPlaceFault name.now) }
    ensures honest { IfErr result (HasHonestSizes F.tells) }
    ensures unchanged { IsUntouched F.tells (F.history files.old) (F.history files.new) }
    ensures cause { IsCaused (F.faults files.old) (F.faults files.new) (IsErrOf result Blamed) }
{
    let place = object_path(alloc, name)?;
    has_at(alloc, files, name, &place, &mut Piece::new())
}

// The same, at the object's place.
pub(crate) fn has_at<F: ReadFiles>(
    alloc: Global,
    files: &mut F,
    name: &Name,
    place: &Rel,
    piece: &mut Piece,
) -> Result<bool, CacheFault>
    requires { place.now ≡ object_path name.now }
    ensures told { IsTrue F.tells → IfOk result (λ whole.
        whole ≡ is_some (object_at (tree_of (F.history files.old)) name.now)) }
    ensures answer { IsTrue F.tells → IsDue (fault_of result)
        (has_fault (tree_of (F.history files.old)) name.now) }
    ensures kinds { IfErr result (IsHasFault name.now) }
    ensures honest { IfErr result (HasHonestSizes F.tells) }
    ensures unchanged { IsUntouched F.tells (F.history files.old) (F.history files.new) }
    ensures cause { IsCaused (F.faults files.old) (F.faults files.new) (IsErrOf result Blamed) }
{
    match name_file(files, place, piece) {
        Ok(named) => Ok(named.name.digits() == name.digits()),
        Err(FileFault::Missing) => Ok(false),
        Err(FileFault::Changed { told, found }) => Err(CacheFault::Changed {
            path: place.copy(alloc)?,
            told,
            found,
        }),
        Err(FileFault::TooLarge { what, limit }) => Err(CacheFault::TooLarge { what, limit }),
        Err(FileFault::Failed) => Err(CacheFault::Failed),
    }
}

/// Whether the object of a name is whole, and for a folder's listing the object of each member too.
pub fn whole<F: ReadFiles>(alloc: Global, files: &mut F, name: &Name) -> Result<bool, CacheFault>
    ensures told { IsTrue F.tells → IfOk result (λ whole.
        whole ≡ is_whole (tree_of (F.history files.old)) name.now) }
    ensures answer { IsTrue F.tells → IsDue (fault_of result)
        (whole_fault (tree_of (F.history files.old)) name.now) }
    ensures honest { IfErr result (HasHonestSizes F.tells) }
    ensures unchanged { IsUntouched F.tells (F.history files.old) (F.history files.new) }
    ensures cause { IsCaused (F.faults files.old) (F.faults files.new) (IsErrOf result Blamed) }
{
    if !name.dir {
        return has(alloc, files, name);
    }
    match listing_of(alloc, files, name) {
        Ok(listing) => have(alloc, files, listing.as_slice(), &mut Piece::new()),
        Err(CacheFault::Absent { name: _ }) => Ok(false),
        Err(fault) => Err(fault),
    }
}

// Whether the object of each member is whole, up to the first that isn't.
fn have<F: ReadFiles>(
    alloc: Global,
    files: &mut F,
    members: &[Member],
    piece: &mut Piece,
) -> Result<bool, CacheFault>
    ensures told { IsTrue F.tells → IfOk result (λ whole.
        whole ≡ are_whole (tree_of (F.history files.old)) (map member_name members.now)) }
    ensures answer { IsTrue F.tells → IsDue (fault_of result)
        (names_fault (tree_of (F.history files.old)) (map member_name members.now)) }
    ensures honest { IfErr result (HasHonestSizes F.tells) }
    ensures unchanged { IsUntouched F.tells (F.history files.old) (F.history files.new) }
    ensures cause { IsCaused (F.faults files.old) (F.faults files.new) (IsErrOf result Blamed) }
{
    for member in members {
        let place = object_path(alloc, &member.name)?;
        if !has_at(alloc, files, &member.name, &place, piece)? {
            return Ok(false);
        }
    }
    Ok(true)
}
