// What `dvc.lock` remembers.
ghost use Rattle.std.specs.Prelude.{◌≡◌, ◌≤◌, ◌⊎◌, length, IsTrue, IfOk, IsErrOf};
ghost use Rattle.dvc_base.specs.Answer.{fault_in};
ghost use Rattle.dvc_base.specs.Fault.{MayBe, IsHonest};
ghost use Rattle.dvc_base.specs.Limits.{limit_of};
ghost use Rattle.dvc_base.specs.declared.fault.Fault.TheVariants.{WorldFault};
ghost use Rattle.dvc_base.specs.declared.limits.What.TheVariants.{YamlText};
ghost use Rattle.world_api.specs.Tree.{item_at};
ghost use Rattle.world_api.specs.History.{IsCaused};
ghost use Rattle.world_api.specs.Layout.{lock_path};
ghost use Rattle.world_api.specs.Outside.{tree_of, IsUntouched};
ghost use Rattle.lock_files.specs.Form.{IsBook};
ghost use Rattle.lock_files.specs.Read.{lock_read};
ghost use Rattle.workspace_files.specs.Read.{IsRead};
ghost use Rattle.dvc_cli.specs.Read.{lock_answer, lock_or, book_at};
ghost use Rattle.dvc_cli.specs.Workspace.{file_kinds, parse_kinds};

use dvc_base::{Bytes, Fault, Rel};
use lock_files::{LockBook, LockFault, read_lock};
use std::alloc::Global;
use workspace_files::read_text;
use world_api::{ReadFiles, lock_path};

/// What is remembered: nothing where no lock stands.
pub(crate) fn read_book<F: ReadFiles>(alloc: Global, files: &mut F) -> Result<LockBook, Fault>
    ensures read { IsTrue F.tells →
        IsRead result (book_at (item_at (tree_of (F.history files.old)) lock_path)) }
    ensures form { IfOk result IsBook }
    ensures unchanged { IsUntouched F.tells (F.history files.old) (F.history files.new) }
    ensures kinds { MayBe file_kinds (fault_in result) }
    ensures honest { IsHonest F.tells (fault_in result) }
    ensures cause { IsCaused (F.faults files.old) (F.faults files.new) (IsErrOf result WorldFault) }
{
    let at = lock_path(alloc)?;
    match read_text(alloc, files, &at)? {
        None => Ok(LockBook::new(alloc)),
        Some(text) => book_of(alloc, at, &text),
    }
}

fn book_of(alloc: Global, at: Rel, text: &Bytes) -> Result<LockBook, Fault>
    requires path { at ≡ lock_path }
    requires short { length text.now ≤ limit_of YamlText }
    ensures read { IsRead result (lock_or (lock_read text.now)) }
    ensures form { IfOk result IsBook }
    ensures kinds { MayBe parse_kinds (fault_in result) }
{
    match read_lock(alloc, text.as_slice()) {
        Ok(lock) => Ok(lock),
        Err(why) => Err(lock_answer(at, why)),
    }
}

// The answer to each refusal of the lock.
fn lock_answer(at: Rel, why: LockFault) -> Fault
    requires path { at ≡ lock_path }
    ensures exact { result ≡ lock_answer why }
{
    match why {
        LockFault::Yaml { fault } => Fault::Yaml { file: at, fault },
        LockFault::Schema { key } => Fault::Schema { file: at, key },
        LockFault::Unsupported { key } => Fault::Unsupported { file: at, key },
        LockFault::Legacy => Fault::Legacy { file: at },
        LockFault::NoMemory => Fault::NoMemory,
    }
}
