// The paths in the workspace that the tool keeps for itself, or reads.
ghost use Rattle.std.specs.Prelude.{◌≡◌, [], IfOk};
ghost use Rattle.world_api.specs.Effect.{path_from};
ghost use Rattle.world_api.specs.Layout.{dvc_path, tmp_path, lane_path, lock_path, yaml_path};

use dvc_base::{NoMemory, Rel};
use std::alloc::Global;

/// The folder of the tool's own files.
#[tactic(auto, unfolding(crate::specs::Layout::dvc_path))]
pub fn dvc_path(alloc: Global) -> Result<Rel, NoMemory>
    ensures named { IfOk result (λ path. path ≡ dvc_path) }
{
    path_of(alloc, ".dvc")
}

/// The folder of the lanes.
#[tactic(auto, unfolding(crate::specs::Layout::tmp_path))]
pub fn tmp_path(alloc: Global) -> Result<Rel, NoMemory>
    ensures named { IfOk result (λ path. path ≡ tmp_path) }
{
    path_of(alloc, ".dvc/tmp")
}

/// The file of a lane.
pub fn lane_path(alloc: Global, lane: u32) -> Result<Rel, NoMemory>
    ensures named { IfOk result (λ path. path ≡ lane_path lane) }
{
    let text = format!(in alloc; ".dvc/tmp/new-{lane}")?;
    path_of(alloc, text.as_str())
}

/// The file of what is remembered.
#[tactic(auto, unfolding(crate::specs::Layout::lock_path))]
pub fn lock_path(alloc: Global) -> Result<Rel, NoMemory>
    ensures named { IfOk result (λ path. path ≡ lock_path) }
{
    path_of(alloc, "dvc.lock")
}

/// The file of the stages.
#[tactic(auto, unfolding(crate::specs::Layout::yaml_path))]
pub fn yaml_path(alloc: Global) -> Result<Rel, NoMemory>
    ensures named { IfOk result (λ path. path ≡ yaml_path) }
{
    path_of(alloc, "dvc.yaml")
}

// Each text that is given names a path, so the only refusal is want of memory.
fn path_of(alloc: Global, text: &str) -> Result<Rel, NoMemory>
    ensures named { IfOk result (λ path. path ≡ path_from [] text.now) }
{
    Rel::root(alloc).join(alloc, text).map_err(|_| NoMemory)
}
