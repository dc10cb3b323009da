// A run record found by its key.
ghost use Rattle.std.specs.Prelude.{◌≡◌, ◌≤◌, [], ◌∷◌, ◌++◌, true, length, Some, IsTrue, IfOk, IfErr, IfSome, IsErrOf};
ghost use Rattle.dvc_base.specs.Limits.{limit_of};
ghost use Rattle.dvc_base.specs.RunKey.{are_key_digits};
ghost use Rattle.dvc_base.specs.declared.limits.What.TheVariants.{YamlText};
ghost use Rattle.world_api.specs.Tree.{item_at, names_in, file};
ghost use Rattle.world_api.specs.Outside.{tree_of, IsUntouched};
ghost use Rattle.world_api.specs.History.{IsCaused};
ghost use Rattle.world_api.specs.Writes.{IsFolderAt};
ghost use Rattle.file_bytes.specs.Reading.{IsTold};
ghost use Rattle.lock_files.specs.Form.{IsEntry};
ghost use Rattle.object_cache.specs.Due.{fault_of, IsDue, IsFree, HasHonestSizes};
ghost use Rattle.object_cache.specs.declared.fault.CacheFault.TheVariants.{Failed as Blamed};
ghost use Rattle.run_cache.specs.Records as spec;
ghost use Rattle.run_cache.specs.Find.{first_record, found_at, text_fault, record_fault, records_fault, find_fault, IsFindFault, IsReadFault, IsOfKey};

use crate::digits::digits_of;
use crate::key::key_of;
use crate::paths::{below, key_folder};
use dvc_base::{Key, NoMemory, Plain, Rel, Text, Texts, What};
use file_bytes::{ReadFault, read_whole};
use lock_files::{Entry, LockFault, read_entry};
use object_cache::CacheFault;
use std::alloc::Global;
use world_api::{Kind, ListFault, ReadFiles};

/// The first run record of a key that can be read, in the order of the names' bytes. What is no such record is passed over.
pub fn find<F: ReadFiles>(
    alloc: Global,
    files: &mut F,
    key: &Key,
) -> Result<Option<Entry>, CacheFault>
    ensures told { IsTrue F.tells → IfOk result (λ found.
        found ≡ found_at (tree_of (F.history files.old)) key.now) }
    ensures answer { IsTrue F.tells → IsDue (fault_of result)
        (find_fault (tree_of (F.history files.old)) key.now) }
    ensures form { IfOk result (λ found. IfSome found (IsOfKey key.now)) }
    ensures kinds { IfErr result (IsFindFault key.now) }
    ensures honest { IfErr result (HasHonestSizes F.tells) }
    ensures unchanged { IsUntouched F.tells (F.history files.old) (F.history files.new) }
    ensures cause { IsCaused (F.faults files.old) (F.faults files.new) (IsErrOf result Blamed) }
{
    let folder = key_folder(alloc, key)?;
    let kind = files.kind(&folder)?;
    match kind {
        Kind::Folder => find_in(alloc, files, key, &folder),
        _ => Ok(None),
    }
}

// The same, where a folder stands at the key's place.
fn find_in<F: ReadFiles>(
    alloc: Global,
    files: &mut F,
    key: &Key,
    folder: &Rel,
) -> Result<Option<Entry>, CacheFault>
    requires place { folder.now ≡ spec.key_folder key.now }
    requires stands { IsTrue F.tells → IsFolderAt (tree_of (F.history files.old)) folder.now }
    ensures told { IsTrue F.tells → IfOk result (λ found.
        found ≡ found_at (tree_of (F.history files.old)) key.now) }
    ensures answer { IsTrue F.tells → IsDue (fault_of result)
        (find_fault (tree_of (F.history files.old)) key.now) }
    ensures form { IfOk result (λ found. IfSome found (IsOfKey key.now)) }
    ensures kinds { IfErr result (IsFindFault key.now) }
    ensures honest { IfErr result (HasHonestSizes F.tells) }
    ensures unchanged { IsUntouched F.tells (F.history files.old) (F.history files.new) }
    ensures cause { IsCaused (F.faults files.old) (F.faults files.new) (IsErrOf result Blamed) }
{
    let names = names_in(alloc, files, folder)?;
    first_record(alloc, files, key, folder, names.as_slice())
}

// The names in a folder, in the order of their bytes.
fn names_in<F: ReadFiles>(alloc: Global, files: &mut F, folder: &Rel) -> Result<Texts, CacheFault>
    requires { IsTrue F.tells → IsFolderAt (tree_of (F.history files.old)) folder.now }
    ensures told { IsTrue F.tells → IfOk result (λ names.
        names ≡ names_in (tree_of (F.history files.old)) folder.now) }
    ensures free { IfErr result IsFree }
    ensures unchanged { IsUntouched F.tells (F.history files.old) (F.history files.new) }
    ensures cause { IsCaused (F.faults files.old) (F.faults files.new) (IsErrOf result Blamed) }
{
    match files.list(alloc, folder) {
        Ok(names) => Ok(names),
        Err(ListFault::Failed) => Err(CacheFault::Failed),
        Err(ListFault::NoMemory) => Err(CacheFault::NoMemory),
    }
}

// The record of the first name that has one.
fn first_record<F: ReadFiles>(
    alloc: Global,
    files: &mut F,
    key: &Key,
    folder: &Rel,
    names: &[Text],
) -> Result<Option<Entry>, CacheFault>
    requires { folder.now ≡ spec.key_folder key.now }
    ensures told { IsTrue F.tells → IfOk result (λ found.
        found ≡ first_record (tree_of (F.history files.old)) key.now names.now) }
    ensures answer { IsTrue F.tells → IsDue (fault_of result)
        (records_fault (tree_of (F.history files.old)) key.now names.now) }
    ensures form { IfOk result (λ found. IfSome found (IsOfKey key.now)) }
    ensures kinds { IfErr result (IsFindFault key.now) }
    ensures honest { IfErr result (HasHonestSizes F.tells) }
    ensures unchanged { IsUntouched F.tells (F.history files.old) (F.history files.new) }
    ensures cause { IsCaused (F.faults files.old) (F.faults files.new) (IsErrOf result Blamed) }
{
    for name in names {
        let found = record_named(alloc, files, key, folder, name)?;
        if found.is_some() {
            return Ok(found);
        }
    }
    Ok(None)
}

// The record of a name, if it has one. What has no name of a record isn't looked at.
fn record_named<F: ReadFiles>(
    alloc: Global,
    files: &mut F,
    key: &Key,
    folder: &Rel,
    name: &Text,
) -> Result<Option<Entry>, CacheFault>
    requires { folder.now ≡ spec.key_folder key.now }
    ensures told { IsTrue F.tells → IfOk result (λ found.
        found ≡ spec.record_at (tree_of (F.history files.old)) key.now name.now) }
    ensures answer { IsTrue F.tells → IsDue (fault_of result)
        (record_fault (tree_of (F.history files.old)) key.now name.now) }
    ensures form { IfOk result (λ found. IfSome found (IsOfKey key.now)) }
    ensures kinds { IfErr result (IsFindFault key.now) }
    ensures honest { IfErr result (HasHonestSizes F.tells) }
    ensures unchanged { IsUntouched F.tells (F.history files.old) (F.history files.new) }
    ensures cause { IsCaused (F.faults files.old) (F.faults files.new) (IsErrOf result Blamed) }
{
    let name = name.as_str().as_bytes();
    if !is_record_name(name) {
        return Ok(None);
    }
    let place = below(alloc, folder, name)?;
    record_at(alloc, files, key, name, &place)
}

// Whether a record may have the name: one is spelled as a key is.
fn is_record_name(name: &[u8]) -> bool
    ensures exact { result ≡ are_key_digits name.now }
{
    Key::parse(name).is_some()
}

// The record at a place, if it can be read under the key and the name.
fn record_at<F: ReadFiles>(
    alloc: Global,
    files: &mut F,
    key: &Key,
    name: &[u8],
    place: &Rel,
) -> Result<Option<Entry>, CacheFault>
    requires { place.now ≡ spec.key_folder key.now ++ name.now ∷ [] }
    ensures told { IsTrue F.tells → IfOk result (λ found.
        found ≡ spec.record_at (tree_of (F.history files.old)) key.now name.now) }
    ensures answer { IsTrue F.tells → IsDue (fault_of result)
        (text_fault (item_at (tree_of (F.history files.old)) place.now)) }
    ensures form { IfOk result (λ found. IfSome found (IsOfKey key.now)) }
    ensures kinds { IfErr result (IsFindFault key.now) }
    ensures honest { IfErr result (HasHonestSizes F.tells) }
    ensures unchanged { IsUntouched F.tells (F.history files.old) (F.history files.new) }
    ensures cause { IsCaused (F.faults files.old) (F.faults files.new) (IsErrOf result Blamed) }
{
    let kind = files.kind(place)?;
    match kind {
        Kind::File { size } => record_sized(alloc, files, key, name, place, size),
        _ => Ok(None),
    }
}

// The same of a file that was told to have this size, unless that is past the limit.
fn record_sized<F: ReadFiles>(
    alloc: Global,
    files: &mut F,
    key: &Key,
    name: &[u8],
    place: &Rel,
    size: u64,
) -> Result<Option<Entry>, CacheFault>
    requires place { place.now ≡ spec.key_folder key.now ++ name.now ∷ [] }
    requires told { IsTrue F.tells → IsTold (item_at (tree_of (F.history files.old)) place.now) size }
    ensures told { IsTrue F.tells → IfOk result (λ found.
        found ≡ spec.record_at (tree_of (F.history files.old)) key.now name.now) }
    ensures answer { IsTrue F.tells → IsDue (fault_of result)
        (text_fault (item_at (tree_of (F.history files.old)) place.now)) }
    ensures form { IfOk result (λ found. IfSome found (IsOfKey key.now)) }
    ensures kinds { IfErr result (IsFindFault key.now) }
    ensures honest { IfErr result (HasHonestSizes F.tells) }
    ensures unchanged { IsUntouched F.tells (F.history files.old) (F.history files.new) }
    ensures cause { IsCaused (F.faults files.old) (F.faults files.new) (IsErrOf result Blamed) }
{
    let limit = What::YamlText.limit();
    if size > limit {
        return Err(CacheFault::TooLarge {
            what: What::YamlText,
            limit,
        });
    }
    let text = text_at(alloc, files, place, size)?;
    let found = record_in(alloc, key, name, &text)?;
    Ok(found)
}

// The bytes of a file that was told to have this size.
// Its buffer is no part of a caller's frame, so that a turn fits the stack that a program begins with.
#[inline(never)]
fn text_at<F: ReadFiles>(
    alloc: Global,
    files: &mut F,
    place: &Rel,
    size: u64,
) -> Result<Vec<u8>, CacheFault>
    requires told { IsTrue F.tells → IsTold (item_at (tree_of (F.history files.old)) place.now) size }
    ensures told { IsTrue F.tells → IfOk result (λ text.
        item_at (tree_of (F.history files.old)) place.now ≡ Some (file text.items)) }
    ensures sized { IfOk result (λ text. length text.items ≡ size) }
    ensures kinds { IfErr result (IsReadFault place.now) }
    ensures honest { IfErr result (HasHonestSizes F.tells) }
    ensures unchanged { IsUntouched F.tells (F.history files.old) (F.history files.new) }
    ensures cause { IsCaused (F.faults files.old) (F.faults files.new) (IsErrOf result Blamed) }
{
    match read_whole(alloc, files, place, size) {
        Ok(text) => Ok(text),
        Err(ReadFault::Changed { told, found }) => Err(CacheFault::Changed {
            path: place.copy(alloc)?,
            told,
            found,
        }),
        Err(ReadFault::Failed) => Err(CacheFault::Failed),
        Err(ReadFault::NoMemory) => Err(CacheFault::NoMemory),
    }
}

// The record that a text is under a key and a name, if it is one.
fn record_in(alloc: Global, key: &Key, name: &[u8], text: &[u8]) -> Result<Option<Entry>, NoMemory>
    requires { length text.now ≤ limit_of YamlText }
    ensures exact { IfOk result (λ found. found ≡ spec.record_in_bytes key.now name.now text.now) }
    ensures form { IfOk result (λ found. IfSome found (IsOfKey key.now)) }
{
    if digits_of(text).as_slice() != name {
        return Ok(None);
    }
    match read_entry(alloc, text) {
        Ok(entry) => if_of_key(alloc, key, entry),
        Err(LockFault::NoMemory) => Err(NoMemory),
        Err(_) => Ok(None),
    }
}

// The entry, if it has the key.
fn if_of_key(alloc: Global, key: &Key, entry: Entry) -> Result<Option<Entry>, NoMemory>
    requires { IsEntry entry }
    ensures exact { IfOk result (λ found. found ≡ spec.entry_with_key key.now (Ok entry)) }
    ensures form { IfOk result (λ found. IfSome found (IsOfKey key.now)) }
{
    let own = key_of(alloc, &entry)?;
    if own.digits != key.digits {
        return Ok(None);
    }
    Ok(Some(entry))
}
