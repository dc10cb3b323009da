// The outputs of a stage, as a turn puts them into the cache.
ghost use Rattle.std.specs.Prelude.{◌≡◌, true, length, map, None, Some, IsTrue, IfOk, OnOk, IsErrOf};
ghost use Rattle.dvc_base.specs.Answer.{fault_in, IsAnswer};
ghost use Rattle.dvc_base.specs.Fault.{MayBe, IsHonest};
ghost use Rattle.dvc_base.specs.declared.fault.Fault.TheVariants.{WorldFault};
ghost use Rattle.world_api.specs.Tree.{value_at};
ghost use Rattle.world_api.specs.History.{IsCaused};
ghost use Rattle.world_api.specs.Outside.{tree_of, IsUntouched, PassesFrom};
ghost use Rattle.file_hash.specs.Naming.{named_of};
ghost use Rattle.object_cache.specs.Objects.{is_stored};
ghost use Rattle.lock_files.specs.Form.{is_path_entry};
ghost use Rattle.repro_laws.specs.Stage.{out_text, IsStage};
ghost use Rattle.repro_laws.specs.Limits.{limit_fault};
ghost use Rattle.repro_laws.specs.Entries.{seen_out, path_named, all_named};
ghost use Rattle.repro_laws.specs.Refusals.{first_of, present_fault, refused_out};
ghost use Rattle.repro_laws.specs.Headline.{IsApart, IsKept};
ghost use Rattle.repro_laws.specs.Turns.{AreStored};
ghost use Rattle.repro_laws.specs.Moments.{is_own};
ghost use Rattle.repro_laws.specs.Sound.{IsAnswerAt};
ghost use Rattle.repro_core.specs.Steps.{InStored, AreNamed, store_kinds};
ghost use Rattle.repro_core.specs.Storing.{look_of, put_due, is_by_limit};
ghost use Rattle.repro_core.specs.Telling.{TellsOut, TellsOwn};

use crate::put::{name_output, put_output};
use change_check::SeenPath;
use dvc_base::{Fault, Plain, Text};
use lock_files::{PathEntries, PathEntry};
use object_cache::{CacheFault, has};
use repro_laws::{Out, Stage};
use std::alloc::Global;
use world_api::{Files, ReadFiles};

/// Puts the outputs of a stage that is skipped into the cache, where they aren't whole there. `seen` are their names.
pub(crate) fn keep_outputs<F: Files>(
    alloc: Global,
    files: &mut F,
    stage: &Stage,
    seen: &[SeenPath],
) -> Result<(), Fault>
    requires stage { IsStage stage.now }
    requires kept { IsKept is_own stage.now }
    requires length { length seen.now ≡ length stage.now.made }
    requires seen { IsTrue F.tells → seen.now ≡ map (seen_out (tree_of (F.history files.old))) stage.now.made }
    requires named { IsTrue F.tells → first_of (λ o. refused_out stage.now.name o (value_at (tree_of (F.history files.old)) o.path)) stage.now.outs ≡ None }
    requires small { IsTrue F.tells → present_fault stage.now (tree_of (F.history files.old)) ≡ None }
    ensures answer { IsTrue F.tells → IsAnswerAt (tree_of (F.history files.new)) (fault_in result) None }
    ensures stored { IsTrue F.tells → OnOk result (AreStored (tree_of (F.history files.new)) stage.now.made) }
    ensures moments { IsTrue F.tells → PassesFrom InStored (F.history files.old) (F.history files.new) }
    ensures told { TellsOwn stage.now (fault_in result) }
    ensures kinds { MayBe store_kinds (fault_in result) }
    ensures honest { IsHonest F.tells (fault_in result) }
    ensures cause { IsCaused (F.faults files.old) (F.faults files.new) (IsErrOf result WorldFault) }
{
    let made = stage.made.as_slice();
    for at in 0..made.len() {
        keep_output(alloc, files, &stage.name, &made[at], &seen[at])?;
    }
    Ok(())
}

// Puts an output into the cache, where it is cached and isn't whole there.
fn keep_output<F: Files>(
    alloc: Global,
    files: &mut F,
    name: &Text,
    out: &Out,
    seen: &SeenPath,
) -> Result<(), Fault>
    requires apart { IsApart is_own out.now.path }
    requires seen { IsTrue F.tells → seen.now ≡ seen_out (tree_of (F.history files.old)) out.now }
    requires small { IsTrue F.tells →
        put_due name.now out.now (value_at (tree_of (F.history files.old)) out.now.path) ≡ None }
    ensures answer { IsTrue F.tells → IsAnswerAt (tree_of (F.history files.new)) (fault_in result) None }
    ensures stored { IsTrue F.tells → OnOk result (out.now.cached ≡ true →
        is_stored (tree_of (F.history files.new)) (value_at (tree_of (F.history files.old)) out.now.path) ≡ true) }
    ensures moments { IsTrue F.tells → PassesFrom InStored (F.history files.old) (F.history files.new) }
    ensures told { TellsOut name.now out.now (fault_in result) }
    ensures kinds { MayBe store_kinds (fault_in result) }
    ensures honest { IsHonest F.tells (fault_in result) }
    ensures cause { IsCaused (F.faults files.old) (F.faults files.new) (IsErrOf result WorldFault) }
{
    if !out.cached {
        return Ok(());
    }
    if holds_file(alloc, files, name, out, seen)? {
        return Ok(());
    }
    put_output(alloc, files, name, out)?;
    Ok(())
}

// Whether the output is a file whose object is whole.
fn holds_file<F: ReadFiles>(
    alloc: Global,
    files: &mut F,
    name: &Text,
    out: &Out,
    seen: &SeenPath,
) -> Result<bool, Fault>
    requires seen { IsTrue F.tells → seen.now ≡ seen_out (tree_of (F.history files.old)) out.now }
    ensures answer { IsTrue F.tells → IsAnswerAt (tree_of (F.history files.new)) (fault_in result) None }
    ensures stored { IsTrue F.tells → IfOk result (λ whole. whole ≡ true →
        is_stored (tree_of (F.history files.old)) (value_at (tree_of (F.history files.old)) out.now.path) ≡ true) }
    ensures unchanged { IsUntouched F.tells (F.history files.old) (F.history files.new) }
    ensures told { TellsOut name.now out.now (fault_in result) }
    ensures kinds { MayBe store_kinds (fault_in result) }
    ensures honest { IsHonest F.tells (fault_in result) }
    ensures cause { IsCaused (F.faults files.old) (F.faults files.new) (IsErrOf result WorldFault) }
{
    match seen.named {
        Some(named) if !named.name.dir => match has(alloc, files, &named.name) {
            Ok(whole) => Ok(whole),
            Err(why) => looked(why),
        },
        _ => Ok(false),
    }
}

// What a look at an object comes to that was refused. Only a changed file, a limit, a failure and want of memory refuse
// it; after anything else the object is put.
fn looked(why: CacheFault) -> Result<bool, Fault>
    ensures exact { result ≡ look_of why }
{
    match why {
        CacheFault::Changed { path, told, found } => Err(Fault::Changed { path, told, found }),
        CacheFault::TooLarge { what, limit } => Err(Fault::TooLarge { what, limit }),
        CacheFault::Failed => Err(Fault::WorldFault),
        CacheFault::NoMemory => Err(Fault::NoMemory),
        CacheFault::Absent { .. } | CacheFault::Missing | CacheFault::NotFolder { .. } => Ok(false),
    }
}

/// Names what a run has made, and puts it into the cache. The first output, in the order in which they are written, that
/// passes a limit is refused.
pub(crate) fn store_made<F: Files>(
    alloc: Global,
    files: &mut F,
    stage: &Stage,
) -> Result<PathEntries, Fault>
    requires stage { IsStage stage.now }
    requires kept { IsKept is_own stage.now }
    requires there { IsTrue F.tells → first_of (λ o. refused_out stage.now.name o (value_at (tree_of (F.history files.old)) o.path)) stage.now.outs ≡ None }
    ensures answer { IsTrue F.tells → IsAnswerAt (tree_of (F.history files.new)) (fault_in result)
        (first_of (λ o. limit_fault (value_at (tree_of (F.history files.old)) o.path)) stage.now.outs) }
    ensures named { IsTrue F.tells → IfOk result (λ outs.
        all_named (map (seen_out (tree_of (F.history files.old))) stage.now.made) ≡ Some outs) }
    ensures good { IfOk result (AreNamed (map out_text stage.now.made)) }
    ensures stored { IsTrue F.tells → OnOk result (AreStored (tree_of (F.history files.new)) stage.now.made) }
    ensures moments { IsTrue F.tells → PassesFrom InStored (F.history files.old) (F.history files.new) }
    ensures told { TellsOwn stage.now (fault_in result) }
    ensures kinds { MayBe store_kinds (fault_in result) }
    ensures honest { IsHonest F.tells (fault_in result) }
    ensures cause { IsCaused (F.faults files.old) (F.faults files.new) (IsErrOf result WorldFault) }
{
    match put_made(alloc, files, stage) {
        Ok(outs) => Ok(outs),
        Err(fault) => {
            if !passes_limit(&fault) {
                return Err(fault);
            }
            Err(first_by_limit(alloc, files, stage, fault))
        }
    }
}

fn passes_limit(fault: &Fault) -> bool
    ensures exact { result ≡ is_by_limit fault.now }
{
    matches!(fault, Fault::TooLarge { .. })
}

// The refusal that is told where an output passes a limit: that of the first such output as they are written. Where none
// passes one, an object did, and its refusal stands.
fn first_by_limit<F: ReadFiles>(alloc: Global, files: &mut F, stage: &Stage, fault: Fault) -> Fault
    requires stage { IsStage stage.now }
    requires limit { is_by_limit fault ≡ true }
    requires there { IsTrue F.tells →
        first_of (λ o. refused_out stage.now.name o (value_at (tree_of (F.history files.old)) o.path)) stage.now.outs ≡ None }
    requires due { IsTrue F.tells → IsAnswerAt (tree_of (F.history files.old)) (Some fault)
        (first_of (λ o. put_due stage.now.name o (value_at (tree_of (F.history files.old)) o.path)) stage.now.made) }
    requires told { TellsOwn stage.now (Some fault) }
    ensures answer { IsTrue F.tells → IsAnswerAt (tree_of (F.history files.new)) (Some result)
        (first_of (λ o. limit_fault (value_at (tree_of (F.history files.old)) o.path)) stage.now.outs) }
    ensures unchanged { IsUntouched F.tells (F.history files.old) (F.history files.new) }
    ensures told { TellsOwn stage.now (Some result) }
    ensures kinds { MayBe store_kinds (Some result) }
    ensures honest { IsHonest F.tells (Some result) }
    ensures cause { IsCaused (F.faults files.old) (F.faults files.new) (result ≡ WorldFault) }
{
    match name_as_written(alloc, files, stage) {
        Ok(()) => fault,
        Err(first) => first,
    }
}

// Names what a run has made, and puts it into the cache, in the order of the texts. The first that is refused ends it.
fn put_made<F: Files>(alloc: Global, files: &mut F, stage: &Stage) -> Result<PathEntries, Fault>
    requires stage { IsStage stage.now }
    requires kept { IsKept is_own stage.now }
    ensures answer { IsTrue F.tells → IsAnswerAt (tree_of (F.history files.new)) (fault_in result)
        (first_of (λ o. put_due stage.now.name o (value_at (tree_of (F.history files.old)) o.path)) stage.now.made) }
    ensures named { IsTrue F.tells → IfOk result (λ outs.
        all_named (map (seen_out (tree_of (F.history files.old))) stage.now.made) ≡ Some outs) }
    ensures good { IfOk result (AreNamed (map out_text stage.now.made)) }
    ensures stored { IsTrue F.tells → OnOk result (AreStored (tree_of (F.history files.new)) stage.now.made) }
    ensures moments { IsTrue F.tells → PassesFrom InStored (F.history files.old) (F.history files.new) }
    ensures told { TellsOwn stage.now (fault_in result) }
    ensures kinds { MayBe store_kinds (fault_in result) }
    ensures honest { IsHonest F.tells (fault_in result) }
    ensures cause { IsCaused (F.faults files.old) (F.faults files.new) (IsErrOf result WorldFault) }
{
    let made = stage.made.as_slice();
    let mut outs = PathEntries::new(alloc);
    for at in 0..made.len() {
        outs.push(put_entry(alloc, files, &stage.name, &made[at])?)?;
    }
    Ok(outs)
}

// The entry of an output that is put into the cache.
fn put_entry<F: Files>(
    alloc: Global,
    files: &mut F,
    name: &Text,
    out: &Out,
) -> Result<PathEntry, Fault>
    requires apart { IsApart is_own out.now.path }
    ensures answer { IsTrue F.tells → IsAnswerAt (tree_of (F.history files.new)) (fault_in result)
        (put_due name.now out.now (value_at (tree_of (F.history files.old)) out.now.path)) }
    ensures named { IsTrue F.tells → IfOk result (λ entry.
        path_named out.now.text (named_of (value_at (tree_of (F.history files.old)) out.now.path)) ≡ Some entry) }
    ensures good { IfOk result (λ entry. (entry.path ≡ out.now.text) × IsTrue (is_path_entry entry)) }
    ensures stored { IsTrue F.tells → OnOk result (out.now.cached ≡ true →
        is_stored (tree_of (F.history files.new)) (value_at (tree_of (F.history files.old)) out.now.path) ≡ true) }
    ensures moments { IsTrue F.tells → PassesFrom InStored (F.history files.old) (F.history files.new) }
    ensures told { TellsOut name.now out.now (fault_in result) }
    ensures kinds { MayBe store_kinds (fault_in result) }
    ensures honest { IsHonest F.tells (fault_in result) }
    ensures cause { IsCaused (F.faults files.old) (F.faults files.new) (IsErrOf result WorldFault) }
{
    let named = put_output(alloc, files, name, out)?;
    Ok(PathEntry {
        path: out.text.copy(alloc)?,
        name: named.name,
        size: named.size,
        nfiles: named.nfiles,
    })
}

// Names the outputs as they are written, up to the first that is refused.
fn name_as_written<F: ReadFiles>(alloc: Global, files: &mut F, stage: &Stage) -> Result<(), Fault>
    requires stage { IsStage stage.now }
    ensures answer { IsTrue F.tells → IsAnswer (fault_in result)
        (first_of (λ o. put_due stage.now.name o (value_at (tree_of (F.history files.old)) o.path)) stage.now.outs) }
    ensures unchanged { IsUntouched F.tells (F.history files.old) (F.history files.new) }
    ensures told { TellsOwn stage.now (fault_in result) }
    ensures kinds { MayBe store_kinds (fault_in result) }
    ensures honest { IsHonest F.tells (fault_in result) }
    ensures cause { IsCaused (F.faults files.old) (F.faults files.new) (IsErrOf result WorldFault) }
{
    let outs = stage.outs.as_slice();
    for at in 0..outs.len() {
        name_output(alloc, files, &stage.name, &outs[at])?;
    }
    Ok(())
}
