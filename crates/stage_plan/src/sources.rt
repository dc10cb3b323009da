// What there is beside the stages of a `dvc.yaml`.
use dvc_base::Rels;
use stage_graph::Tracks;

/// What a workspace says beyond its `dvc.yaml`.
#[derive(Drop)]
pub struct Sources {
    /// The track files, in the order of their paths.
    pub tracks: Tracks,
    /// The `.dvcignore` files, none of which has a rule.
    pub ignores: Rels,
}
