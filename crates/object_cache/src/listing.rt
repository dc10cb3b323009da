// The listing that a folder's object holds.
ghost use Rattle.std.specs.Prelude.{◌≡◌, Some, false, IsTrue, IfOk, IfErr, IsErrOf};
ghost use Rattle.world_api.specs.Tree.{item_at};
ghost use Rattle.world_api.specs.Outside.{tree_of, IsUntouched};
ghost use Rattle.world_api.specs.History.{IsCaused};
ghost use Rattle.file_bytes.specs.Reading.{IsTold};
ghost use Rattle.file_hash.specs.Reading.{read_listing};
ghost use Rattle.object_cache.specs.Objects.{object_path, object_at, listing_in, has_name};
ghost use Rattle.object_cache.specs.Due.{fault_of, IsDue, HasHonestSizes, IsListingFault, absent_unless, count_fault, members_fault, object_text_fault, listing_fault};
ghost use Rattle.object_cache.specs.declared.fault.CacheFault.TheVariants.{Failed as Blamed};

use crate::CacheFault;
use crate::copy::has_digest;
use crate::paths::object_path;
use dvc_base::{Name, Plain, Rel, What};
use file_bytes::{ReadFault, read_whole};
use file_hash::{Listing, ListingFault, read_listing};
use md5::{Digest, Md5};
use std::alloc::Global;
use world_api::{Kind, ReadFiles};

/// The listing that the object of a name holds.
pub fn listing_of<F: ReadFiles>(
    alloc: Global,
    files: &mut F,
    name: &Name,
) -> Result<Listing, CacheFault>
    ensures told { IsTrue F.tells → IfOk result (λ listing.
        listing_in (tree_of (F.history files.old)) name.now ≡ Some listing) }
    ensures answer { IsTrue F.tells → IsDue (fault_of result)
        (listing_fault (tree_of (F.history files.old)) name.now) }
    ensures honest { IfErr result (HasHonestSizes F.tells) }
    ensures unchanged { IsUntouched F.tells (F.history files.old) (F.history files.new) }
    ensures cause { IsCaused (F.faults files.old) (F.faults files.new) (IsErrOf result Blamed) }
{
    let text = text_of_object(alloc, files, name)?;
    listing_in_text(alloc, name, &text)
}

// The listing that a text is, if it is one of not too many members.
fn listing_in_text(alloc: Global, name: &Name, text: &[u8]) -> Result<Listing, CacheFault>
    ensures told { IfOk result (λ listing. read_listing text.now ≡ Some listing) }
    ensures answer { IsDue (fault_of result) (members_fault name.now (read_listing text.now)) }
    ensures kinds { IfErr result IsListingFault }
{
    match read_listing(alloc, text) {
        Ok(listing) => few(listing),
        Err(ListingFault::Bad) => Err(CacheFault::Absent { name: *name }),
        Err(ListingFault::NoMemory) => Err(CacheFault::NoMemory),
    }
}

fn few(listing: Listing) -> Result<Listing, CacheFault>
    ensures same { IfOk result (λ few. few ≡ listing) }
    ensures answer { IsDue (fault_of result) (count_fault listing) }
    ensures kinds { IfErr result IsListingFault }
{
    let limit = What::Members.limit();
    if listing.as_slice().len() as u64 > limit {
        return Err(CacheFault::TooLarge {
            what: What::Members,
            limit,
        });
    }
    Ok(listing)
}

// The bytes of a listing's object.
fn text_of_object<F: ReadFiles>(
    alloc: Global,
    files: &mut F,
    name: &Name,
) -> Result<Vec<u8>, CacheFault>
    ensures told { IsTrue F.tells → IfOk result (λ text.
        object_at (tree_of (F.history files.old)) name.now ≡ Some text.items) }
    ensures answer { IsTrue F.tells → IsDue (fault_of result)
        (object_text_fault (tree_of (F.history files.old)) name.now) }
    ensures honest { IfErr result (HasHonestSizes F.tells) }
    ensures unchanged { IsUntouched F.tells (F.history files.old) (F.history files.new) }
    ensures cause { IsCaused (F.faults files.old) (F.faults files.new) (IsErrOf result Blamed) }
{
    let place = object_path(alloc, name)?;
    text_at(alloc, files, name, &place)
}

// The same, at the object's place.
fn text_at<F: ReadFiles>(
    alloc: Global,
    files: &mut F,
    name: &Name,
    place: &Rel,
) -> Result<Vec<u8>, CacheFault>
    requires { place.now ≡ object_path name.now }
    ensures told { IsTrue F.tells → IfOk result (λ text.
        object_at (tree_of (F.history files.old)) name.now ≡ Some text.items) }
    ensures answer { IsTrue F.tells → IsDue (fault_of result)
        (object_text_fault (tree_of (F.history files.old)) name.now) }
    ensures honest { IfErr result (HasHonestSizes F.tells) }
    ensures unchanged { IsUntouched F.tells (F.history files.old) (F.history files.new) }
    ensures cause { IsCaused (F.faults files.old) (F.faults files.new) (IsErrOf result Blamed) }
{
    let kind = files.kind(place)?;
    match kind {
        Kind::File { size } => text_sized(alloc, files, name, place, size),
        _ => Err(CacheFault::Absent { name: *name }),
    }
}

// The same, where the object's file was told to have this size.
fn text_sized<F: ReadFiles>(
    alloc: Global,
    files: &mut F,
    name: &Name,
    place: &Rel,
    size: u64,
) -> Result<Vec<u8>, CacheFault>
    requires place { place.now ≡ object_path name.now }
    requires told { IsTrue F.tells → IsTold (item_at (tree_of (F.history files.old)) place.now) size }
    ensures told { IsTrue F.tells → IfOk result (λ text.
        object_at (tree_of (F.history files.old)) name.now ≡ Some text.items) }
    ensures answer { IsTrue F.tells → IsDue (fault_of result)
        (object_text_fault (tree_of (F.history files.old)) name.now) }
    ensures honest { IfErr result (HasHonestSizes F.tells) }
    ensures unchanged { IsUntouched F.tells (F.history files.old) (F.history files.new) }
    ensures cause { IsCaused (F.faults files.old) (F.faults files.new) (IsErrOf result Blamed) }
{
    let limit = What::Listing.limit();
    if size > limit {
        return Err(CacheFault::TooLarge {
            what: What::Listing,
            limit,
        });
    }
    match read_whole(alloc, files, place, size) {
        Ok(text) => if_named(name, text),
        Err(ReadFault::Changed { told, found }) => Err(CacheFault::Changed {
            path: place.copy(alloc)?,
            told,
            found,
        }),
        Err(ReadFault::Failed) => Err(CacheFault::Failed),
        Err(ReadFault::NoMemory) => Err(CacheFault::NoMemory),
    }
}

// Bytes that have the name.
fn if_named(name: &Name, text: Vec<u8>) -> Result<Vec<u8>, CacheFault>
    ensures same { IfOk result (λ same. same.items ≡ text.items) }
    ensures answer { IsDue (fault_of result) (absent_unless (has_name name.now text.items) name.now) }
    ensures kinds { IfErr result IsListingFault }
{
    if !has_digest(name, &Md5::digest(text.as_slice())) {
        return Err(CacheFault::Absent { name: *name });
    }
    Ok(text)
}
