// The names of what stands in the workspace.
ghost use Rattle.std.specs.Prelude.{◌≡◌, [], length, IsTrue, IfOk, IfErr, IsErrOf, Some};
ghost use Rattle.std.specs.FinMap.{entries};
ghost use Rattle.file_bytes.specs.Reading.{IsTold};
ghost use Rattle.world_api.specs.Tree.{value_at, item_at};
ghost use Rattle.world_api.specs.Writes.{IsFolderAt};
ghost use Rattle.world_api.specs.Outside.{tree_of, IsUntouched};
ghost use Rattle.world_api.specs.History.{IsCaused};
ghost use Rattle.file_hash.specs.Listing.{IsListing, listing_text};
ghost use Rattle.file_hash.specs.Naming.{named_of, naming_of, name_of_listing, files_at, listing_due, listed_due, IsDue, IsGoodName, IsChangeAt};
ghost use Rattle.file_hash.specs.Walk.{below, Walks, Finds, nothing_met, IsListed, IsListFault};
ghost use Rattle.file_hash.specs.declared.fault.HashFault.TheVariants.{Failed as Blamed};

use crate::digest::digits_of;
use crate::file::name_sized;
use crate::members::{members_of, text_of};
use crate::walk::{Met, find_files};
use crate::{FileFault, HashFault, Listing, Named};
use dvc_base::{Bytes, Name, Plain, Rel};
use file_bytes::Piece;
use md5::{Digest, Md5};
use std::alloc::Global;
use world_api::{Kind, ReadFiles};

/// The name of what stands at a path: of a file by its bytes, of a folder by its listing's text. Each file is read to the
/// size that it is told to have, and at most one byte further.
pub fn name_at<F: ReadFiles>(alloc: Global, files: &mut F, at: &Rel) -> Result<Named, HashFault>
    ensures named { IsTrue F.tells → IfOk result (λ named.
        named_of (value_at (tree_of (F.history files.old)) at.now) ≡ Some named) }
    ensures answer { IsTrue F.tells → IsDue result (naming_of (value_at (tree_of (F.history files.old)) at.now)) }
    ensures good { IfOk result IsGoodName }
    ensures unchanged { IsUntouched F.tells (F.history files.old) (F.history files.new) }
    ensures changed { IfErr result (IsChangeAt F.tells at.now) }
    ensures cause { IsCaused (F.faults files.old) (F.faults files.new) (IsErrOf result Blamed) }
{
    match files.kind(at) {
        Ok(Kind::File { size }) => name_single(alloc, files, at, size),
        Ok(Kind::Missing) => Err(HashFault::Missing),
        Ok(Kind::Folder) => name_folder(alloc, files, at),
        Err(_) => Err(HashFault::Failed),
    }
}

// The name of a file that was told to have this size.
fn name_single<F: ReadFiles>(
    alloc: Global,
    files: &mut F,
    at: &Rel,
    size: u64,
) -> Result<Named, HashFault>
    requires { IsTrue F.tells → IsTold (item_at (tree_of (F.history files.old)) at.now) size }
    ensures answer { IsTrue F.tells → IsDue result (naming_of (value_at (tree_of (F.history files.old)) at.now)) }
    ensures good { IfOk result IsGoodName }
    ensures unchanged { IsUntouched F.tells (F.history files.old) (F.history files.new) }
    ensures changed { IfErr result (IsChangeAt F.tells at.now) }
    ensures cause { IsCaused (F.faults files.old) (F.faults files.new) (IsErrOf result Blamed) }
{
    match name_sized(files, at, size, &mut Piece::new()) {
        Ok(named) => Ok(named),
        Err(FileFault::Missing) => Err(HashFault::Missing),
        Err(FileFault::Changed { told, found }) => Err(HashFault::Changed {
            path: at.copy(alloc)?,
            told,
            found,
        }),
        Err(FileFault::TooLarge { what, limit }) => Err(HashFault::TooLarge { what, limit }),
        Err(FileFault::Failed) => Err(HashFault::Failed),
    }
}

// The name of a folder.
fn name_folder<F: ReadFiles>(alloc: Global, files: &mut F, at: &Rel) -> Result<Named, HashFault>
    requires folder { IsTrue F.tells → IsFolderAt (tree_of (F.history files.old)) at.now }
    ensures answer { IsTrue F.tells → IsDue result (naming_of (value_at (tree_of (F.history files.old)) at.now)) }
    ensures good { IfOk result IsGoodName }
    ensures unchanged { IsUntouched F.tells (F.history files.old) (F.history files.new) }
    ensures changed { IfErr result (IsChangeAt F.tells at.now) }
    ensures cause { IsCaused (F.faults files.old) (F.faults files.new) (IsErrOf result Blamed) }
{
    let listed = list_folder(alloc, files, at)?;
    Ok(name_listing(&listed))
}

/// What is told of a folder by its listing.
pub fn name_listing(listed: &Listed) -> Named
    ensures exact { result ≡ record {
      name = name_of_listing listed.now.text;
      size = listed.now.size;
      nfiles = Some (length listed.now.list);
    } }
    ensures good { IsGoodName result }
{
    let digest = Md5::digest(listed.text.as_slice());
    Named {
        name: Name {
            digits: digits_of(&digest),
            dir: true,
        },
        size: listed.size,
        nfiles: Some(listed.list.as_slice().len() as u64),
    }
}

/// The members of the folder at a path, with their names.
pub fn listing_at<F: ReadFiles>(
    alloc: Global,
    files: &mut F,
    at: &Rel,
) -> Result<Listing, HashFault>
    requires folder { IsTrue F.tells → IsFolderAt (tree_of (F.history files.old)) at.now }
    ensures answer { IsTrue F.tells → IsDue result (listing_due (files_at (tree_of (F.history files.old)) at.now)) }
    ensures good { IfOk result IsListing }
    ensures unchanged { IsUntouched F.tells (F.history files.old) (F.history files.new) }
    ensures changed { IfErr result (IsChangeAt F.tells at.now) }
    ensures cause { IsCaused (F.faults files.old) (F.faults files.new) (IsErrOf result Blamed) }
{
    let listed = list_folder(alloc, files, at)?;
    Ok(listed.list)
}

/// The listing of a folder, with its text and the size of its files.
#[derive(Drop)]
pub struct Listed {
    pub list: Listing,
    pub text: Bytes,
    pub size: u64,
}

/// The same with the listing's text and the size of the files: what names the folder, from one reading of each file.
pub fn list_folder<F: ReadFiles>(
    alloc: Global,
    files: &mut F,
    at: &Rel,
) -> Result<Listed, HashFault>
    requires folder { IsTrue F.tells → IsFolderAt (tree_of (F.history files.old)) at.now }
    ensures answer { IsTrue F.tells → IsDue result (listed_due (files_at (tree_of (F.history files.old)) at.now)) }
    ensures text { IfOk result (λ listed. listed.text ≡ listing_text listed.list) }
    ensures good { IfOk result (λ listed. IsListing listed.list) }
    ensures unchanged { IsUntouched F.tells (F.history files.old) (F.history files.new) }
    ensures changed { IfErr result (IsChangeAt F.tells at.now) }
    ensures cause { IsCaused (F.faults files.old) (F.faults files.new) (IsErrOf result Blamed) }
{
    let met = find_files(alloc, files, at)?;
    list_met(alloc, files, at, &met)
}

// The listing of what a walk has met.
fn list_met<F: ReadFiles>(
    alloc: Global,
    files: &mut F,
    at: &Rel,
    met: &Met,
) -> Result<Listed, HashFault>
    requires folder { IsTrue F.tells → IsFolderAt (tree_of (F.history files.old)) at.now }
    requires walked { IsTrue F.tells →
        Walks at.now (below at.now (entries (tree_of (F.history files.old)))) nothing_met met.now }
    requires found { Finds [] nothing_met met.now }
    ensures listed { IsTrue F.tells → IfOk result (IsListed (tree_of (F.history files.old)) at.now) }
    ensures refused { IsTrue F.tells → IfErr result (IsListFault (tree_of (F.history files.old)) at.now) }
    ensures text { IfOk result (λ listed. listed.text ≡ listing_text listed.list) }
    ensures good { IfOk result (λ listed. IsListing listed.list) }
    ensures unchanged { IsUntouched F.tells (F.history files.old) (F.history files.new) }
    ensures changed { IfErr result (IsChangeAt F.tells at.now) }
    ensures cause { IsCaused (F.faults files.old) (F.faults files.new) (IsErrOf result Blamed) }
{
    let list = members_of(alloc, files, at, met.found.as_slice())?;
    let text = text_of(alloc, &list)?;
    Ok(Listed {
        list,
        text,
        size: met.size,
    })
}
