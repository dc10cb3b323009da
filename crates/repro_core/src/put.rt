// A single output, named and put into the cache.
ghost use Rattle.std.specs.Prelude.{◌≡◌, true, Some, IsTrue, IfOk, IsErrOf};
ghost use Rattle.dvc_base.specs.Answer.{fault_in, IsAnswer};
ghost use Rattle.dvc_base.specs.Fault.{MayBe, IsHonest};
ghost use Rattle.dvc_base.specs.declared.fault.Fault.TheVariants.{WorldFault};
ghost use Rattle.world_api.specs.Tree.{value_at};
ghost use Rattle.world_api.specs.History.{IsCaused};
ghost use Rattle.world_api.specs.Outside.{tree_of, IsUntouched, PassesFrom};
ghost use Rattle.file_hash.specs.Naming.{named_of, IsGoodName};
ghost use Rattle.object_cache.specs.Objects.{is_stored};
ghost use Rattle.object_cache.specs.Due.{hash_fault};
ghost use Rattle.repro_laws.specs.Headline.{IsApart};
ghost use Rattle.repro_laws.specs.Moments.{is_own};
ghost use Rattle.repro_laws.specs.Sound.{IsAnswerAt};
ghost use Rattle.repro_core.specs.Steps.{InStored, store_kinds};
ghost use Rattle.repro_core.specs.Storing.{told_of, put_due};
ghost use Rattle.repro_core.specs.Telling.{TellsOut};

use dvc_base::{Fault, NoMemory, Plain, Text};
use file_hash::{HashFault, Named, name_at};
use object_cache::{CacheFault, put_from};
use repro_laws::Out;
use std::alloc::Global;
use world_api::{Files, ReadFiles};

/// Names what stands at an output of the stage of this name, and puts it into the cache where it is cached.
pub(crate) fn put_output<F: Files>(
    alloc: Global,
    files: &mut F,
    name: &Text,
    out: &Out,
) -> Result<Named, Fault>
    requires apart { IsApart is_own out.now.path }
    ensures answer { IsTrue F.tells → IsAnswerAt (tree_of (F.history files.new)) (fault_in result)
        (put_due name.now out.now (value_at (tree_of (F.history files.old)) out.now.path)) }
    ensures named { IsTrue F.tells → IfOk result (λ named.
        named_of (value_at (tree_of (F.history files.old)) out.now.path) ≡ Some named) }
    ensures good { IfOk result IsGoodName }
    ensures stored { IsTrue F.tells → IfOk result (λ _. out.now.cached ≡ true →
        is_stored (tree_of (F.history files.new)) (value_at (tree_of (F.history files.old)) out.now.path) ≡ true) }
    ensures moments { IsTrue F.tells → PassesFrom InStored (F.history files.old) (F.history files.new) }
    ensures told { TellsOut name.now out.now (fault_in result) }
    ensures kinds { MayBe store_kinds (fault_in result) }
    ensures honest { IsHonest F.tells (fault_in result) }
    ensures cause { IsCaused (F.faults files.old) (F.faults files.new) (IsErrOf result WorldFault) }
{
    if out.cached {
        return put_cached(alloc, files, name, out);
    }
    name_output(alloc, files, name, out)
}

// The same of an output that is cached.
fn put_cached<F: Files>(
    alloc: Global,
    files: &mut F,
    name: &Text,
    out: &Out,
) -> Result<Named, Fault>
    requires apart { IsApart is_own out.now.path }
    ensures answer { IsTrue F.tells → IsAnswerAt (tree_of (F.history files.new)) (fault_in result)
        (put_due name.now out.now (value_at (tree_of (F.history files.old)) out.now.path)) }
    ensures named { IsTrue F.tells → IfOk result (λ named.
        named_of (value_at (tree_of (F.history files.old)) out.now.path) ≡ Some named) }
    ensures good { IfOk result IsGoodName }
    ensures stored { IsTrue F.tells → IfOk result (λ _.
        is_stored (tree_of (F.history files.new)) (value_at (tree_of (F.history files.old)) out.now.path) ≡ true) }
    ensures moments { IsTrue F.tells → PassesFrom InStored (F.history files.old) (F.history files.new) }
    ensures told { TellsOut name.now out.now (fault_in result) }
    ensures kinds { MayBe store_kinds (fault_in result) }
    ensures honest { IsHonest F.tells (fault_in result) }
    ensures cause { IsCaused (F.faults files.old) (F.faults files.new) (IsErrOf result WorldFault) }
{
    match put_from(alloc, files, &out.path) {
        Ok(named) => Ok(named),
        Err(why) => Err(told_fault(alloc, name, out, why)?),
    }
}

/// Names what stands at an output of the stage of this name.
pub(crate) fn name_output<F: ReadFiles>(
    alloc: Global,
    files: &mut F,
    name: &Text,
    out: &Out,
) -> Result<Named, Fault>
    ensures answer { IsTrue F.tells → IsAnswer (fault_in result)
        (put_due name.now out.now (value_at (tree_of (F.history files.old)) out.now.path)) }
    ensures named { IsTrue F.tells → IfOk result (λ named.
        named_of (value_at (tree_of (F.history files.old)) out.now.path) ≡ Some named) }
    ensures good { IfOk result IsGoodName }
    ensures unchanged { IsUntouched F.tells (F.history files.old) (F.history files.new) }
    ensures told { TellsOut name.now out.now (fault_in result) }
    ensures kinds { MayBe store_kinds (fault_in result) }
    ensures honest { IsHonest F.tells (fault_in result) }
    ensures cause { IsCaused (F.faults files.old) (F.faults files.new) (IsErrOf result WorldFault) }
{
    match name_at(alloc, files, &out.path) {
        Ok(named) => Ok(named),
        Err(why) => Err(told_fault(alloc, name, out, cache_fault(why))?),
    }
}

// What refuses a name refuses to store it.
fn cache_fault(why: HashFault) -> CacheFault
    ensures exact { result ≡ hash_fault why }
{
    match why {
        HashFault::Missing => CacheFault::Missing,
        HashFault::Changed { path, told, found } => CacheFault::Changed { path, told, found },
        HashFault::TooLarge { what, limit } => CacheFault::TooLarge { what, limit },
        HashFault::Failed => CacheFault::Failed,
        HashFault::NoMemory => CacheFault::NoMemory,
    }
}

/// A refusal of the cache, told of an output of the stage of this name.
pub(crate) fn told_fault(
    alloc: Global,
    name: &Text,
    out: &Out,
    why: CacheFault,
) -> Result<Fault, NoMemory>
    ensures exact { IfOk result (λ fault. fault ≡ told_of name.now out.now why) }
{
    match why {
        CacheFault::Absent { name: object } => Ok(Fault::NotInCache {
            path: out.path.copy(alloc)?,
            name: object,
        }),
        CacheFault::Missing => Ok(Fault::MissingOutput {
            stage: name.copy(alloc)?,
            path: out.path.copy(alloc)?,
        }),
        CacheFault::Changed { path, told, found } => Ok(Fault::Changed { path, told, found }),
        CacheFault::TooLarge { what, limit } => Ok(Fault::TooLarge { what, limit }),
        CacheFault::NotFolder { path } => Ok(Fault::NotFolder { path }),
        CacheFault::Failed => Ok(Fault::WorldFault),
        CacheFault::NoMemory => Ok(Fault::NoMemory),
    }
}
