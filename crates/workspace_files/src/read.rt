// A file of the workspace, read whole: no text past the limit is read.
ghost use Rattle.std.specs.Prelude.{◌≡◌, ◌≤◌, length, IsTrue, IfOk, IfErr, IfSome, IsErrOf, Some};
ghost use Rattle.dvc_base.specs.Answer.{fault_in};
ghost use Rattle.dvc_base.specs.Fault.{MayBe, IsHonest, is_free};
ghost use Rattle.dvc_base.specs.Limits.{limit_of};
ghost use Rattle.dvc_base.specs.declared.fault.Fault.TheVariants.{WorldFault};
ghost use Rattle.dvc_base.specs.declared.limits.What.TheVariants.{YamlText};
ghost use Rattle.world_api.specs.Tree.{item_at, file};
ghost use Rattle.world_api.specs.History.{IsCaused};
ghost use Rattle.world_api.specs.Outside.{tree_of, IsUntouched};
ghost use Rattle.file_bytes.specs.Reading.{IsTold};
ghost use Rattle.workspace_files.specs.Read.{IsRead, text_at, IsChangeOf, text_kinds};

use dvc_base::{Bytes, Fault, Plain, Rel, What};
use file_bytes::{ReadFault, read_whole};
use std::alloc::Global;
use world_api::{Kind, ReadFiles};

/// The text at the path; none where nothing stands there.
pub fn read_text<F: ReadFiles>(
    alloc: Global,
    files: &mut F,
    at: &Rel,
) -> Result<Option<Bytes>, Fault>
    ensures read { IsTrue F.tells →
        IsRead result (text_at at.now (item_at (tree_of (F.history files.old)) at.now)) }
    ensures short { IfOk result (λ text. IfSome text (λ bytes. length bytes ≤ limit_of YamlText)) }
    ensures unchanged { IsUntouched F.tells (F.history files.old) (F.history files.new) }
    ensures kinds { MayBe text_kinds (fault_in result) }
    ensures honest { IsHonest F.tells (fault_in result) }
    ensures cause { IsCaused (F.faults files.old) (F.faults files.new) (IsErrOf result WorldFault) }
{
    match files.kind(at) {
        Ok(Kind::Missing) => Ok(None),
        Ok(Kind::File { size }) => read_short(alloc, files, at, size),
        Ok(Kind::Folder) => Err(Fault::NoFile {
            file: at.copy(alloc)?,
        }),
        Err(_) => Err(Fault::WorldFault),
    }
}

// The text of a file that was told to have this size, unless that is past the limit.
fn read_short<F: ReadFiles>(
    alloc: Global,
    files: &mut F,
    at: &Rel,
    size: u64,
) -> Result<Option<Bytes>, Fault>
    requires told { IsTrue F.tells → IsTold (item_at (tree_of (F.history files.old)) at.now) size }
    ensures read { IsTrue F.tells →
        IsRead result (text_at at.now (item_at (tree_of (F.history files.old)) at.now)) }
    ensures short { IfOk result (λ text. IfSome text (λ bytes. length bytes ≤ limit_of YamlText)) }
    ensures unchanged { IsUntouched F.tells (F.history files.old) (F.history files.new) }
    ensures kinds { MayBe text_kinds (fault_in result) }
    ensures honest { IsHonest F.tells (fault_in result) }
    ensures cause { IsCaused (F.faults files.old) (F.faults files.new) (IsErrOf result WorldFault) }
{
    let limit = What::YamlText.limit();
    if size > limit {
        return Err(Fault::TooLarge {
            what: What::YamlText,
            limit,
        });
    }
    let text = read_told(alloc, files, at, size)?;
    Ok(Some(text))
}

// The bytes of a file that was told to have this size.
fn read_told<F: ReadFiles>(
    alloc: Global,
    files: &mut F,
    at: &Rel,
    size: u64,
) -> Result<Bytes, Fault>
    requires told { IsTrue F.tells → IsTold (item_at (tree_of (F.history files.old)) at.now) size }
    ensures read { IsTrue F.tells → IfOk result (λ text.
        item_at (tree_of (F.history files.old)) at.now ≡ Some (file text)) }
    ensures sized { IfOk result (λ text. length text ≡ size) }
    ensures unchanged { IsUntouched F.tells (F.history files.old) (F.history files.new) }
    ensures kinds { MayBe text_kinds (fault_in result) }
    ensures honest { IsHonest F.tells (fault_in result) }
    // Where the world tells its tree, only want of memory and its own failures stop it.
    ensures free { IsTrue F.tells → IfErr result (λ fault. IsTrue (is_free fault)) }
    ensures change { IfErr result (IsChangeOf at.now size) }
    ensures cause { IsCaused (F.faults files.old) (F.faults files.new) (IsErrOf result WorldFault) }
{
    match read_whole(alloc, files, at, size) {
        Ok(text) => Ok(Bytes::from_vec(text)),
        Err(ReadFault::Changed { told, found }) => {
            let path = at.copy(alloc)?;
            Err(Fault::Changed { path, told, found })
        }
        Err(ReadFault::Failed) => Err(Fault::WorldFault),
        Err(ReadFault::NoMemory) => Err(Fault::NoMemory),
    }
}
