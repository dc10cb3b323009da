// The plan of a workspace: its stages and track files with the graph, or the first of its refusals.
ghost use Rattle.std.specs.Prelude.{◌≡◌, ◌⊎◌, ◌<◌, ◌^◌, length, map, IfOk, Some};
ghost use Rattle.dvc_base.specs.Answer.{fault_in};
ghost use Rattle.dvc_base.specs.Fault.{MayBe};
ghost use Rattle.dvc_base.specs.declared.fault.Fault.TheVariants.{NoMemory as Memory};
ghost use Rattle.stage_plan.specs.Plan.{schema_answer, plan_fault, plan_unless, var_path, plan_made, schema_kinds, made_kinds, IsPlan};
ghost use Rattle.workspace_files.specs.Read.{IsRead};

use crate::sources::Sources;
use dvc_base::{Fault, NoMemory, Node, Plain, Rel, Rels, What};
use lock_files::LockBook;
use stage_graph::{Graph, Tracks};
use stage_schema::{ExpandFault, Stages};
use std::alloc::Global;
use template_expand::{VarFile, expand};
use world_api::yaml_path;

/// What a workspace says.
#[derive(Drop)]
pub struct Plan {
    /// The stages, in the order in which `dvc.yaml` says them.
    pub stages: Stages,
    /// The track files, in the order of their paths.
    pub tracks: Tracks,
    /// What is remembered of stages.
    pub lock: LockBook,
    /// The order of the stages, and which of them are above one.
    pub graph: Graph,
}

impl Plan {
    /// The plan of the stages that the node of a `dvc.yaml` says, with these files of variables. No output may be in the way of a
    /// track, or of a file that the tool reads.
    ///
    /// What the schema refuses comes first, and then what the graph of stages refuses.
    #[tactic(auto, unfolding(crate::specs::Plan::plan_made))]
    pub fn make(
        alloc: Global,
        root: &Node,
        files: &[VarFile],
        sources: Sources,
        lock: LockBook,
    ) -> Result<Plan, Fault>
        requires few_tracks { length sources.tracks < 2 ^ 32 }
        ensures made { IsRead result (plan_made root.now files.now sources lock) }
        ensures form { IfOk result IsPlan }
        ensures kinds { MayBe made_kinds (fault_in result) }
    {
        match expand(alloc, root, files) {
            Ok(stages) => plan_from(alloc, stages, files, sources, lock),
            Err(why) => Err(schema_answer(alloc, why)),
        }
    }
}

/// The answer to each refusal of the schema.
pub fn schema_answer(alloc: Global, why: ExpandFault) -> Fault
    ensures exact { (result ≡ Memory) ⊎ (result ≡ schema_answer why) }
    ensures kinds { MayBe schema_kinds (Some result) }
{
    let Ok(yaml) = yaml_path(alloc) else {
        return Fault::NoMemory;
    };
    match why {
        ExpandFault::Schema { key } => Fault::Schema { file: yaml, key },
        ExpandFault::Unsupported { key } => Fault::Unsupported { file: yaml, key },
        ExpandFault::Outside { text, why } => Fault::Outside { text, why },
        ExpandFault::TooMany { .. } => Fault::TooLarge {
            what: What::Stages,
            limit: What::Stages.limit(),
        },
        ExpandFault::NoVariable { key } => Fault::NoVariable { key },
        ExpandFault::NotScalar { key } => Fault::NotScalar { key },
        ExpandFault::NoFile { file } => Fault::NoFile { file },
        ExpandFault::NoKey { file, key } => Fault::NoKey { file, key },
        ExpandFault::NoMemory => Fault::NoMemory,
    }
}

// The same from the stages as the schema reads them.
fn plan_from(
    alloc: Global,
    stages: Stages,
    files: &[VarFile],
    sources: Sources,
    lock: LockBook,
) -> Result<Plan, Fault>
    requires few { length stages < 2 ^ 32 }
    requires few_tracks { length sources.tracks < 2 ^ 32 }
    ensures made { IsRead result (plan_unless (plan_fault sources (map var_path files.now) stages) stages sources.tracks lock) }
    ensures form { IfOk result IsPlan }
    ensures kinds { MayBe made_kinds (fault_in result) }
{
    let vars = var_paths(alloc, files)?;
    plan_with(alloc, stages, vars.as_slice(), sources, lock)
}

// The paths of files of variables.
fn var_paths(alloc: Global, files: &[VarFile]) -> Result<Rels, NoMemory>
    ensures exact { IfOk result (λ paths. paths ≡ map var_path files.now) }
{
    let mut paths = Rels::new(alloc);
    for file in files {
        paths.push(file.file.copy(alloc)?)?;
    }
    Ok(paths)
}

fn plan_with(
    alloc: Global,
    stages: Stages,
    vars: &[Rel],
    sources: Sources,
    lock: LockBook,
) -> Result<Plan, Fault>
    requires few { length stages < 2 ^ 32 }
    requires few_tracks { length sources.tracks < 2 ^ 32 }
    ensures made { IsRead result (plan_unless (plan_fault sources vars.now stages) stages sources.tracks lock) }
    ensures form { IfOk result IsPlan }
    ensures kinds { MayBe made_kinds (fault_in result) }
{
    let graph = Graph::make(
        alloc,
        stages.as_slice(),
        sources.tracks.as_slice(),
        vars,
        sources.ignores.as_slice(),
    )?;
    let Sources { tracks, .. } = sources;
    Ok(Plan {
        stages,
        tracks,
        lock,
        graph,
    })
}
