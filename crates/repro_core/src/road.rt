// The look for files in the way of the folders that a run needs.
ghost use Rattle.std.specs.Prelude.{◌∷◌, [], ◌++◌, IsTrue, IsErrOf, option_map};
ghost use Rattle.dvc_base.specs.Normal.{IsNormal};
ghost use Rattle.dvc_base.specs.Answer.{fault_in, IsAnswer};
ghost use Rattle.dvc_base.specs.Fault.{MayBe};
ghost use Rattle.dvc_base.specs.declared.fault.Fault.TheVariants.{WorldFault, NotFolder};
ghost use Rattle.world_api.specs.Tree.{item_at};
ghost use Rattle.world_api.specs.History.{IsCaused};
ghost use Rattle.world_api.specs.Outside.{tree_of, IsUntouched};
ghost use Rattle.repro_laws.specs.Refusals.{file_on};
ghost use Rattle.repro_core.specs.Steps.{way_kinds};
ghost use Rattle.repro_core.specs.Ways.{roads_fault, file_fault, TellsWay};

use crate::paths::below;
use dvc_base::{Fault, Plain, Rel, Text};
use std::alloc::Global;
use world_api::{Kind, ReadFiles};

/// Looks at each of the folders in order, and at those above it. The first file that is found is refused.
pub(crate) fn look_at_roads<F: ReadFiles>(
    alloc: Global,
    files: &mut F,
    roads: &[Rel],
) -> Result<(), Fault>
    ensures answer { IsTrue F.tells →
        IsAnswer (fault_in result) (roads_fault (tree_of (F.history files.old)) roads.now) }
    ensures told { TellsWay roads.now (fault_in result) }
    ensures unchanged { IsUntouched F.tells (F.history files.old) (F.history files.new) }
    ensures kinds { MayBe way_kinds (fault_in result) }
    ensures cause { IsCaused (F.faults files.old) (F.faults files.new) (IsErrOf result WorldFault) }
{
    for road in roads {
        look_from(alloc, files, &Rel::root(alloc), road.parts())?;
    }
    Ok(())
}

// Looks at a folder, and at each one on the way that these components lead from there.
fn look_from<F: ReadFiles>(
    alloc: Global,
    files: &mut F,
    here: &Rel,
    parts: &[Text],
) -> Result<(), Fault>
    requires { IsNormal parts.now }
    ensures answer { IsTrue F.tells → IsAnswer (fault_in result)
        (option_map NotFolder (file_on (tree_of (F.history files.old)) here.now parts.now)) }
    ensures told { TellsWay ((here.now ++ parts.now) ∷ []) (fault_in result) }
    ensures unchanged { IsUntouched F.tells (F.history files.old) (F.history files.new) }
    ensures kinds { MayBe way_kinds (fault_in result) }
    ensures cause { IsCaused (F.faults files.old) (F.faults files.new) (IsErrOf result WorldFault) }
{
    look_at(alloc, files, here)?;
    let Some((part, rest)) = parts.split_first() else {
        return Ok(());
    };
    let next = below(alloc, here, part.as_str())?;
    look_from(alloc, files, &next, rest)
}

fn look_at<F: ReadFiles>(alloc: Global, files: &mut F, at: &Rel) -> Result<(), Fault>
    ensures answer { IsTrue F.tells →
        IsAnswer (fault_in result) (file_fault at.now (item_at (tree_of (F.history files.old)) at.now)) }
    ensures told { TellsWay (at.now ∷ []) (fault_in result) }
    ensures unchanged { IsUntouched F.tells (F.history files.old) (F.history files.new) }
    ensures kinds { MayBe way_kinds (fault_in result) }
    ensures cause { IsCaused (F.faults files.old) (F.faults files.new) (IsErrOf result WorldFault) }
{
    let Ok(kind) = files.kind(at) else {
        return Err(Fault::WorldFault);
    };
    match kind {
        Kind::File { .. } => Err(Fault::NotFolder {
            path: at.copy(alloc)?,
        }),
        _ => Ok(()),
    }
}
