// What stands at a single path of a stage, by its name.
ghost use Rattle.std.specs.Prelude.{◌≡◌, [], ◌∷◌, IsTrue, IfOk, IfSome, IsErrOf};
ghost use Rattle.dvc_base.specs.Answer.{fault_in, IsAnswer};
ghost use Rattle.dvc_base.specs.Fault.{MayBe, IsHonest};
ghost use Rattle.dvc_base.specs.declared.fault.Fault.TheVariants.{WorldFault};
ghost use Rattle.world_api.specs.Tree.{value_at};
ghost use Rattle.world_api.specs.History.{IsCaused};
ghost use Rattle.world_api.specs.Outside.{tree_of, IsUntouched};
ghost use Rattle.file_hash.specs.Naming.{named_of};
ghost use Rattle.repro_laws.specs.Limits.{limit_fault};
ghost use Rattle.repro_laws.specs.Stage.{dep_value};
ghost use Rattle.repro_laws.specs.Entries.{seen_dep, seen_out};
ghost use Rattle.repro_laws.specs.Refusals.{refused_dep};
ghost use Rattle.repro_core.specs.Looks.{AreSeen, IsGoodNamed, named_inside, TellsAt};
ghost use Rattle.repro_core.specs.Steps.{dep_kinds, out_kinds};
ghost use Rattle.repro_core.specs.Telling.{TellsDep};

use change_check::SeenPath;
use dvc_base::{Fault, Plain, Rel, Text};
use file_hash::{HashFault, Named, name_at};
use repro_laws::{Dep, Out};
use std::alloc::Global;
use world_api::ReadFiles;

/// Names what stands at a dependency of the stage of this name. Where nothing does it is refused, and where a limit is
/// passed.
pub(crate) fn name_dep<F: ReadFiles>(
    alloc: Global,
    files: &mut F,
    name: &Text,
    dep: &Dep,
) -> Result<SeenPath, Fault>
    ensures answer { IsTrue F.tells → IsAnswer (fault_in result)
        (refused_dep name.now dep.now (dep_value (tree_of (F.history files.old)) dep.now)) }
    ensures seen { IsTrue F.tells → IfOk result (λ seen. seen ≡ seen_dep (tree_of (F.history files.old)) dep.now) }
    ensures good { IfOk result (λ seen. AreSeen (dep.now.text ∷ []) (seen ∷ [])) }
    ensures unchanged { IsUntouched F.tells (F.history files.old) (F.history files.new) }
    ensures told { TellsDep name.now dep.now (fault_in result) }
    ensures kinds { MayBe dep_kinds (fault_in result) }
    ensures honest { IsHonest F.tells (fault_in result) }
    ensures cause { IsCaused (F.faults files.old) (F.faults files.new) (IsErrOf result WorldFault) }
{
    let named = named_at(alloc, files, &dep.path)?;
    match if_counted(dep.inside, named) {
        Some(named) => Ok(SeenPath {
            path: dep.text.copy(alloc)?,
            named: Some(named),
        }),
        None => Err(Fault::MissingDependency {
            stage: name.copy(alloc)?,
            path: dep.path.copy(alloc)?,
        }),
    }
}

// A folder without files that lies inside an output counts as nothing.
fn if_counted(inside: bool, named: Option<Named>) -> Option<Named>
    ensures exact { result ≡ named_inside inside named }
{
    match named {
        Some(named) if inside && named.nfiles == Some(0) => None,
        _ => named,
    }
}

/// Names what stands at an output; nothing may stand there. Where a limit is passed it is refused.
pub(crate) fn name_out<F: ReadFiles>(
    alloc: Global,
    files: &mut F,
    out: &Out,
) -> Result<SeenPath, Fault>
    ensures answer { IsTrue F.tells →
        IsAnswer (fault_in result) (limit_fault (value_at (tree_of (F.history files.old)) out.now.path)) }
    ensures seen { IsTrue F.tells → IfOk result (λ seen. seen ≡ seen_out (tree_of (F.history files.old)) out.now) }
    ensures unchanged { IsUntouched F.tells (F.history files.old) (F.history files.new) }
    ensures told { TellsAt out.now.path (fault_in result) }
    ensures kinds { MayBe out_kinds (fault_in result) }
    ensures honest { IsHonest F.tells (fault_in result) }
    ensures cause { IsCaused (F.faults files.old) (F.faults files.new) (IsErrOf result WorldFault) }
{
    let named = named_at(alloc, files, &out.path)?;
    Ok(SeenPath {
        path: out.text.copy(alloc)?,
        named,
    })
}

// The name of what stands at a path; none where nothing does.
fn named_at<F: ReadFiles>(alloc: Global, files: &mut F, at: &Rel) -> Result<Option<Named>, Fault>
    ensures answer { IsTrue F.tells →
        IsAnswer (fault_in result) (limit_fault (value_at (tree_of (F.history files.old)) at.now)) }
    ensures named { IsTrue F.tells →
        IfOk result (λ named. named ≡ named_of (value_at (tree_of (F.history files.old)) at.now)) }
    ensures good { IfOk result (λ named. IfSome named IsGoodNamed) }
    ensures unchanged { IsUntouched F.tells (F.history files.old) (F.history files.new) }
    ensures told { TellsAt at.now (fault_in result) }
    ensures kinds { MayBe out_kinds (fault_in result) }
    ensures honest { IsHonest F.tells (fault_in result) }
    ensures cause { IsCaused (F.faults files.old) (F.faults files.new) (IsErrOf result WorldFault) }
{
    match name_at(alloc, files, at) {
        Ok(named) => Ok(Some(named)),
        Err(HashFault::Missing) => Ok(None),
        Err(HashFault::Changed { path, told, found }) => Err(Fault::Changed { path, told, found }),
        Err(HashFault::TooLarge { what, limit }) => Err(Fault::TooLarge { what, limit }),
        Err(HashFault::Failed) => Err(Fault::WorldFault),
        Err(HashFault::NoMemory) => Err(Fault::NoMemory),
    }
}
