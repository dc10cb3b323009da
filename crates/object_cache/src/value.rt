// A value stored in the cache, object by object: a folder's members first, and its listing last.
ghost use Rattle.std.specs.Prelude.{◌≡◌, ◌≢◌, [], ◌∷◌, ◌++◌, true, false, map, length, None, Some, IsTrue, IfOk, IfErr, OnOk, IsErrOf, Ok, is_some};
ghost use Rattle.world_api.specs.Tree.{item_at, value_at, file, folder};
ghost use Rattle.world_api.specs.Outside.{tree_of, IsUntouched, PassesFrom};
ghost use Rattle.world_api.specs.History.{IsCaused};
ghost use Rattle.world_api.specs.Writes.{IsFolderAt};
ghost use Rattle.file_hash.specs.Listing.{listing_text};
ghost use Rattle.file_hash.specs.Naming.{named_of, name_of_listing, naming_of, IsGoodName};
ghost use Rattle.object_cache.specs.Objects.{object_at, member_name, listing_names, object_names, are_whole, is_stored};
ghost use Rattle.object_cache.specs.Copying.{HasNamed, AreKnown};
ghost use Rattle.object_cache.specs.Store.{IsOutside, InStore};
ghost use Rattle.object_cache.specs.Due.{fault_of, IsDue, HasHonestSizes, IsToldAt, IsPutFault, KeepsPlaces, IsLeft, is_free, hash_fault, naming_fault, size_fault, place_fault, places_fault, put_fault};
ghost use Rattle.object_cache.specs.declared.fault.CacheFault.TheVariants.{Failed as Blamed};

use crate::CacheFault;
use crate::paths::follow;
use crate::put::{store_file, store_text};
use dvc_base::{Plain, Rel};
use file_bytes::Piece;
use file_hash::{
    FileFault, HashFault, Listed, Member, Named, list_folder, name_file, name_listing,
};
use std::alloc::Global;
use world_api::{Files, Kind, ReadFiles};

/// Names the value at a path, and stores it: each of its objects that isn't whole is put at its place. Each file is read
/// once for its name, and a second time only where its object isn't whole: then it is copied without being hashed again.
// Its buffer is no part of a caller's frame, so that a turn fits the stack that a program begins with.
#[inline(never)]
pub fn put_from<F: Files>(alloc: Global, files: &mut F, at: &Rel) -> Result<Named, CacheFault>
    requires outside { IsOutside at.now }
    ensures named { IsTrue F.tells → IfOk result (λ named.
        named_of (value_at (tree_of (F.history files.old)) at.now) ≡ Some named) }
    ensures stored { IsTrue F.tells → IfOk result (λ _.
        is_stored (tree_of (F.history files.new)) (value_at (tree_of (F.history files.old)) at.now) ≡ true) }
    ensures good { IfOk result IsGoodName }
    ensures answer { IsTrue F.tells → IsDue (fault_of result)
        (put_fault (tree_of (F.history files.old)) at.now) }
    // A refusal is due of what it leaves as well.
    ensures refused { IsTrue F.tells → IfErr result (λ fault. is_free fault ≡ false →
        put_fault (tree_of (F.history files.new)) at.now ≡ Some fault) }
    ensures moments { IsTrue F.tells → PassesFrom
        (InStore (object_names (value_at (tree_of (F.history files.old)) at.now)))
        (F.history files.old) (F.history files.new) }
    // What a refusal tells of lies at the path, or is the cache's.
    ensures told { IfErr result (IsPutFault F.tells at.now) }
    ensures cause { IsCaused (F.faults files.old) (F.faults files.new) (IsErrOf result Blamed) }
{
    let kind = files.kind(at)?;
    match kind {
        Kind::Folder => put_folder(alloc, files, at),
        _ => put_file(alloc, files, at),
    }
}

// Names a file, and stores it.
fn put_file<F: Files>(alloc: Global, files: &mut F, at: &Rel) -> Result<Named, CacheFault>
    requires outside { IsOutside at.now }
    requires no_folder { IsTrue F.tells → item_at (tree_of (F.history files.old)) at.now ≢ Some folder }
    ensures named { IsTrue F.tells → IfOk result (λ named.
        named_of (value_at (tree_of (F.history files.old)) at.now) ≡ Some named) }
    ensures stored { IsTrue F.tells → IfOk result (λ _.
        is_stored (tree_of (F.history files.new)) (value_at (tree_of (F.history files.old)) at.now) ≡ true) }
    ensures good { IfOk result IsGoodName }
    ensures answer { IsTrue F.tells → IsDue (fault_of result)
        (put_fault (tree_of (F.history files.old)) at.now) }
    ensures refused { IsTrue F.tells → IfErr result (λ fault. is_free fault ≡ false →
        put_fault (tree_of (F.history files.new)) at.now ≡ Some fault) }
    ensures moments { IsTrue F.tells → PassesFrom
        (InStore (object_names (value_at (tree_of (F.history files.old)) at.now)))
        (F.history files.old) (F.history files.new) }
    ensures told { IfErr result (IsToldAt at.now) }
    ensures honest { IfErr result (HasHonestSizes F.tells) }
    ensures cause { IsCaused (F.faults files.old) (F.faults files.new) (IsErrOf result Blamed) }
{
    let mut piece = Piece::new();
    let named = name_single(alloc, files, at, &mut piece)?;
    store_file(alloc, files, at, &named.name, &mut piece)?;
    Ok(named)
}

// The name of what stands at a path where no folder does.
fn name_single<F: ReadFiles>(
    alloc: Global,
    files: &mut F,
    at: &Rel,
    piece: &mut Piece,
) -> Result<Named, CacheFault>
    requires no_folder { IsTrue F.tells → item_at (tree_of (F.history files.old)) at.now ≢ Some folder }
    ensures named { IsTrue F.tells → IfOk result (λ named.
        naming_of (value_at (tree_of (F.history files.old)) at.now) ≡ Ok named) }
    ensures good { IfOk result IsGoodName }
    ensures answer { IsTrue F.tells → IsDue (fault_of result)
        (naming_fault (naming_of (value_at (tree_of (F.history files.old)) at.now))) }
    ensures told { IfErr result (IsToldAt at.now) }
    ensures honest { IfErr result (HasHonestSizes F.tells) }
    ensures unchanged { IsUntouched F.tells (F.history files.old) (F.history files.new) }
    ensures cause { IsCaused (F.faults files.old) (F.faults files.new) (IsErrOf result Blamed) }
{
    match name_file(files, at, piece) {
        Ok(named) => Ok(named),
        Err(FileFault::Missing) => Err(CacheFault::Missing),
        Err(FileFault::Changed { told, found }) => Err(CacheFault::Changed {
            path: at.copy(alloc)?,
            told,
            found,
        }),
        Err(FileFault::TooLarge { what, limit }) => Err(CacheFault::TooLarge { what, limit }),
        Err(FileFault::Failed) => Err(CacheFault::Failed),
    }
}

// Names a folder, and stores it.
fn put_folder<F: Files>(alloc: Global, files: &mut F, at: &Rel) -> Result<Named, CacheFault>
    requires outside { IsOutside at.now }
    requires folder { IsTrue F.tells → IsFolderAt (tree_of (F.history files.old)) at.now }
    ensures named { IsTrue F.tells → IfOk result (λ named.
        named_of (value_at (tree_of (F.history files.old)) at.now) ≡ Some named) }
    ensures stored { IsTrue F.tells → IfOk result (λ _.
        is_stored (tree_of (F.history files.new)) (value_at (tree_of (F.history files.old)) at.now) ≡ true) }
    ensures good { IfOk result IsGoodName }
    ensures answer { IsTrue F.tells → IsDue (fault_of result)
        (put_fault (tree_of (F.history files.old)) at.now) }
    ensures refused { IsTrue F.tells → IfErr result (λ fault. is_free fault ≡ false →
        put_fault (tree_of (F.history files.new)) at.now ≡ Some fault) }
    ensures moments { IsTrue F.tells → PassesFrom
        (InStore (object_names (value_at (tree_of (F.history files.old)) at.now)))
        (F.history files.old) (F.history files.new) }
    ensures told { IfErr result (IsToldAt at.now) }
    ensures honest { IfErr result (HasHonestSizes F.tells) }
    ensures cause { IsCaused (F.faults files.old) (F.faults files.new) (IsErrOf result Blamed) }
{
    match list_folder(alloc, files, at) {
        Ok(listed) => store_listed(alloc, files, at, &listed),
        Err(fault) => Err(of_hash(fault)),
    }
}

// A refusal of a name as one of the cache.
fn of_hash(fault: HashFault) -> CacheFault
    ensures exact { result ≡ hash_fault fault }
{
    match fault {
        HashFault::Missing => CacheFault::Missing,
        HashFault::Changed { path, told, found } => CacheFault::Changed { path, told, found },
        HashFault::TooLarge { what, limit } => CacheFault::TooLarge { what, limit },
        HashFault::Failed => CacheFault::Failed,
        HashFault::NoMemory => CacheFault::NoMemory,
    }
}

// Stores the members of a listing, and then its text: a listing is never there before its members.
fn store_listed<F: Files>(
    alloc: Global,
    files: &mut F,
    at: &Rel,
    listed: &Listed,
) -> Result<Named, CacheFault>
    requires outside { IsOutside at.now }
    requires known { IsTrue F.tells → AreKnown (tree_of (F.history files.old)) at.now listed.now.list }
    requires text { listed.now.text ≡ listing_text listed.now.list }
    requires small { IsTrue F.tells → size_fault (Some (file listed.now.text)) ≡ None }
    ensures named { IfOk result (λ named. named ≡ record {
      name = name_of_listing listed.now.text;
      size = listed.now.size;
      nfiles = Some (length listed.now.list);
    }) }
    ensures stored { IsTrue F.tells → IfOk result (λ _.
        are_whole (tree_of (F.history files.new)) (listing_names listed.now.list) ≡ true) }
    ensures good { IfOk result IsGoodName }
    ensures answer { IsTrue F.tells → IsDue (fault_of result)
        (places_fault (tree_of (F.history files.old)) (listing_names listed.now.list)) }
    ensures refused { IsTrue F.tells → IfErr result
        (IsLeft (tree_of (F.history files.old)) (tree_of (F.history files.new))) }
    ensures moments { IsTrue F.tells →
        PassesFrom (InStore (listing_names listed.now.list)) (F.history files.old) (F.history files.new) }
    ensures told { IfErr result (IsToldAt at.now) }
    ensures honest { IfErr result (HasHonestSizes F.tells) }
    ensures cause { IsCaused (F.faults files.old) (F.faults files.new) (IsErrOf result Blamed) }
{
    let named = name_listing(listed);
    let mut piece = Piece::new();
    store_members(alloc, files, at, listed.list.as_slice(), &mut piece)?;
    store_text(
        alloc,
        files,
        listed.text.as_slice(),
        &named.name,
        &mut piece,
    )?;
    Ok(named)
}

// Stores the file of each member.
fn store_members<F: Files>(
    alloc: Global,
    files: &mut F,
    at: &Rel,
    members: &[Member],
    piece: &mut Piece,
) -> Result<(), CacheFault>
    requires outside { IsOutside at.now }
    requires known { IsTrue F.tells → AreKnown (tree_of (F.history files.old)) at.now members.now }
    ensures stored { IsTrue F.tells → OnOk result
        (are_whole (tree_of (F.history files.new)) (map member_name members.now) ≡ true) }
    ensures answer { IsTrue F.tells → IsDue (fault_of result)
        (places_fault (tree_of (F.history files.old)) (map member_name members.now)) }
    ensures kept { IsTrue F.tells → OnOk result
        (KeepsPlaces (tree_of (F.history files.old)) (tree_of (F.history files.new))) }
    ensures refused { IsTrue F.tells → IfErr result
        (IsLeft (tree_of (F.history files.old)) (tree_of (F.history files.new))) }
    ensures moments { IsTrue F.tells → PassesFrom
        (InStore (map member_name members.now)) (F.history files.old) (F.history files.new) }
    ensures told { IfErr result (IsToldAt at.now) }
    ensures honest { IfErr result (HasHonestSizes F.tells) }
    ensures cause { IsCaused (F.faults files.old) (F.faults files.new) (IsErrOf result Blamed) }
{
    for member in members {
        store_member(alloc, files, at, member, piece)?;
    }
    Ok(())
}

// Stores the file of a member.
fn store_member<F: Files>(
    alloc: Global,
    files: &mut F,
    at: &Rel,
    member: &Member,
    piece: &mut Piece,
) -> Result<(), CacheFault>
    requires outside { IsOutside at.now }
    requires known { IsTrue F.tells → HasNamed member.now.name
        (item_at (tree_of (F.history files.old)) (at.now ++ member.now.path)) }
    ensures stored { IsTrue F.tells → OnOk result
        (is_some (object_at (tree_of (F.history files.new)) member.now.name) ≡ true) }
    ensures answer { IsTrue F.tells → IsDue (fault_of result)
        (place_fault (tree_of (F.history files.old)) member.now.name) }
    ensures kept { IsTrue F.tells → OnOk result
        (KeepsPlaces (tree_of (F.history files.old)) (tree_of (F.history files.new))) }
    ensures refused { IsTrue F.tells → IfErr result
        (IsLeft (tree_of (F.history files.old)) (tree_of (F.history files.new))) }
    ensures moments { IsTrue F.tells → PassesFrom
        (InStore (member.now.name ∷ [])) (F.history files.old) (F.history files.new) }
    ensures told { IfErr result (IsToldAt at.now) }
    ensures honest { IfErr result (HasHonestSizes F.tells) }
    ensures cause { IsCaused (F.faults files.old) (F.faults files.new) (IsErrOf result Blamed) }
{
    let from = follow(alloc, at, &member.path)?;
    store_file(alloc, files, &from, &member.name, piece)
}
