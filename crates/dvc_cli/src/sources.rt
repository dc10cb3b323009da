// What the workspace says beyond `dvc.yaml`: its track files, and its `.dvcignore` files.
ghost use Rattle.std.specs.Prelude.{◌≤◌, ◌<◌, ◌^◌, length, IsTrue, IfOk, IsErrOf};
ghost use Rattle.dvc_base.specs.Answer.{fault_in};
ghost use Rattle.dvc_base.specs.Fault.{MayBe, IsHonest};
ghost use Rattle.dvc_base.specs.declared.fault.Fault.TheVariants.{WorldFault};
ghost use Rattle.world_api.specs.History.{IsCaused};
ghost use Rattle.world_api.specs.Outside.{tree_of, IsUntouched};
ghost use Rattle.std.specs.List.{AllByRecursion};
ghost use Rattle.workspace_files.specs.Read.{IsRead};
ghost use Rattle.workspace_files.specs.Walk.{IsFound};
ghost use Rattle.dvc_cli.specs.Sources.{IsTrackFile, sources_in, sources_of, found_kinds, reading_kinds};

use dvc_base::Fault;
use stage_plan::Sources;
use std::alloc::Global;
use workspace_files::{Found, check_ignores, find, read_tracks};
use world_api::ReadFiles;

/// Walks over the workspace, refuses rules of paths to be ignored, and then reads the track files, up to the first refusal.
#[tactic(auto, unfolding(crate::specs::Sources::sources_of))]
pub(crate) fn read_sources<F: ReadFiles>(alloc: Global, files: &mut F) -> Result<Sources, Fault>
    ensures read { IsTrue F.tells → IsRead result (sources_of (tree_of (F.history files.old))) }
    // Over any world.
    ensures few { IfOk result (λ sources. length sources.tracks < 2 ^ 32) }
    ensures tracks { IfOk result (λ sources. AllByRecursion IsTrackFile sources.tracks) }
    ensures unchanged { IsUntouched F.tells (F.history files.old) (F.history files.new) }
    ensures kinds { MayBe reading_kinds (fault_in result) }
    ensures honest { IsHonest F.tells (fault_in result) }
    ensures cause { IsCaused (F.faults files.old) (F.faults files.new) (IsErrOf result WorldFault) }
{
    let found = find(alloc, files)?;
    read_found(alloc, files, found)
}

// The same from the files that the walk has found.
fn read_found<F: ReadFiles>(alloc: Global, files: &mut F, found: Found) -> Result<Sources, Fault>
    requires found { IsFound found }
    ensures read { IsTrue F.tells → IsRead result (sources_in (tree_of (F.history files.old)) found) }
    ensures few { IfOk result (λ sources. length sources.tracks < 2 ^ 32) }
    ensures tracks { IfOk result (λ sources. AllByRecursion IsTrackFile sources.tracks) }
    ensures unchanged { IsUntouched F.tells (F.history files.old) (F.history files.new) }
    ensures kinds { MayBe found_kinds (fault_in result) }
    ensures honest { IsHonest F.tells (fault_in result) }
    ensures cause { IsCaused (F.faults files.old) (F.faults files.new) (IsErrOf result WorldFault) }
{
    let Found { ignores, tracks } = found;
    check_ignores(alloc, files, ignores.as_slice())?;
    let tracks = read_tracks(alloc, files, tracks.as_slice())?;
    Ok(Sources { tracks, ignores })
}
