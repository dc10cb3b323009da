// The graph of stages.
ghost use Rattle.std.specs.Prelude.{◌≡◌, ◌<◌, ◌^◌, length, IfOk};
ghost use Rattle.std.specs.Option.{option_or};
ghost use Rattle.stage_order.specs.Brought.{brought};
ghost use Rattle.stage_order.specs.Order.{order};
ghost use Rattle.stage_order.specs.Seated.{is_marked};
ghost use Rattle.stage_order.specs.Walk.{first_walk};
ghost use Rattle.stage_graph.specs.Clash.{clash_fault, made_fault};
ghost use Rattle.stage_graph.specs.Cycle.{all_above, walk_fault, cycle_with, cycle_fault};
ghost use Rattle.stage_graph.specs.Fault.{Checks};
ghost use Rattle.stage_graph.specs.Graph.{graph_fault, IsGraph};
ghost use Rattle.stage_graph.specs.Kept.{reserved_fault};
ghost use Rattle.stage_graph.specs.Paths.{owners, owner_paths, outputs};

use crate::TrackFile;
use crate::clash::{check_clash, check_made};
use crate::cycle::cycle;
use crate::edges::all_above;
use crate::kept::check_reserved;
use crate::output::{Output, output_paths, outputs};
use crate::owner::{Owner, owner_paths, owners};
use crate::text::check_texts;
use dvc_base::{Fault, NoMemory, Numbers, Plural, Rel};
use path_index::PathIndex;
use stage_order::{brought, order_of, walk_of};
use stage_schema::Stage;
use std::alloc::Global;

/// The graph of stages that can have their turns. A stage goes by its place in the list that the graph was made of.
#[derive(Drop)]
pub struct Graph {
    pub(crate) order: Numbers,
    // For each stage the numbers of those above it.
    pub(crate) above: Plural<Numbers>,
}

impl Graph {
    /// The graph of the stages, or the first refusal: a text that is no path, a path that is kept, two owners that overlap,
    /// variables that come from an output, or a cycle.
    ///
    /// The tracks are in the order of their paths. `vars` are the files of variables in the order in which they are first seen,
    /// and `ignores` the `.dvcignore` files that are there.
    pub fn make(
        alloc: Global,
        stages: &[Stage],
        tracks: &[TrackFile],
        vars: &[Rel],
        ignores: &[Rel],
    ) -> Result<Graph, Fault>
        requires few_stages { length stages.now < 2 ^ 32 }
        requires few_tracks { length tracks.now < 2 ^ 32 }
        ensures answer { IsGraph stages.now (graph_fault stages.now tracks.now vars.now ignores.now) result }
    {
        check_texts(alloc, stages, tracks)?;
        check_owners(alloc, stages, tracks, vars, ignores)?;
        graph_in(alloc, stages, vars)
    }

    /// The stages in the order in which they have their turns. It takes no memory.
    pub fn order(&self) -> &[u32]
        ensures same { result.now ≡ self.now.order }
    {
        self.order.as_slice()
    }

    /// The chosen stages and all that are above them, in order and each once.
    pub fn above(&self, alloc: Global, chosen: &[u32]) -> Result<Numbers, NoMemory>
        ensures exact { IfOk result (λ stages. stages ≡ brought self.now.above chosen.now self.now.order) }
    {
        brought(alloc, self.above.as_slice(), chosen, self.order.as_slice())
    }
}

// What is kept from owners, and owners that overlap.
fn check_owners(
    alloc: Global,
    stages: &[Stage],
    tracks: &[TrackFile],
    vars: &[Rel],
    ignores: &[Rel],
) -> Result<(), Fault>
    ensures checked { Checks result (option_or
        (reserved_fault (owner_paths (owners stages.now tracks.now)) stages.now tracks.now vars.now ignores.now)
        (clash_fault (owners stages.now tracks.now))) }
{
    let owners = owners(alloc, stages, tracks)?;
    check_owned(alloc, owners.as_slice(), stages, tracks, vars, ignores)
}

fn check_owned(
    alloc: Global,
    owners: &[Owner],
    stages: &[Stage],
    tracks: &[TrackFile],
    vars: &[Rel],
    ignores: &[Rel],
) -> Result<(), Fault>
    ensures checked { Checks result (option_or
        (reserved_fault (owner_paths owners.now) stages.now tracks.now vars.now ignores.now)
        (clash_fault owners.now)) }
{
    let owned = owner_paths(alloc, owners)?;
    let index = PathIndex::of(alloc, owned)?;
    check_reserved(alloc, index.paths(), stages, tracks, vars, ignores)?;
    check_clash(alloc, owners, &index)
}

// Variables that come from outputs, and cycles.
fn graph_in(alloc: Global, stages: &[Stage], vars: &[Rel]) -> Result<Graph, Fault>
    requires few { length stages.now < 2 ^ 32 }
    ensures answer { IsGraph stages.now (option_or (made_fault stages.now vars.now) (cycle_fault stages.now)) result }
{
    let made = outputs(alloc, stages)?;
    graph_with(alloc, stages, vars, made.as_slice())
}

fn graph_with(
    alloc: Global,
    stages: &[Stage],
    vars: &[Rel],
    made: &[Output],
) -> Result<Graph, Fault>
    requires few { length stages.now < 2 ^ 32 }
    requires outputs { made.now ≡ outputs stages.now }
    ensures answer { IsGraph stages.now (option_or (made_fault stages.now vars.now) (cycle_fault stages.now)) result }
{
    let paths = output_paths(alloc, made)?;
    let index = PathIndex::of(alloc, paths)?;
    check_made(alloc, &index, vars)?;
    let above = all_above(alloc, stages, made, &index)?;
    in_order(alloc, stages, above)
}

fn in_order(alloc: Global, stages: &[Stage], above: Plural<Numbers>) -> Result<Graph, Fault>
    requires few { length above < 2 ^ 32 }
    requires above { above ≡ all_above stages.now }
    ensures answer { IsGraph stages.now (cycle_fault stages.now) result }
{
    let order = order_in(alloc, stages, above.as_slice())?;
    Ok(Graph { order, above })
}

// The order, where no stages are in a cycle.
fn order_in(alloc: Global, stages: &[Stage], above: &[Numbers]) -> Result<Numbers, Fault>
    requires few { length above.now < 2 ^ 32 }
    ensures checked { Checks result (cycle_with stages.now above.now) }
    ensures exact { IfOk result (λ ordered. ordered ≡ order above.now) }
{
    let ordered = order_of(alloc, above)?;
    check_cycle(alloc, stages, above, ordered.done.as_slice())?;
    Ok(ordered.order)
}

fn check_cycle(
    alloc: Global,
    stages: &[Stage],
    above: &[Numbers],
    done: &[bool],
) -> Result<(), Fault>
    requires few { length above.now < 2 ^ 32 }
    ensures checked { Checks result (walk_fault stages.now (first_walk above.now (is_marked done.now))) }
{
    match walk_of(alloc, above, done)? {
        Some(walk) => {
            let fault = cycle(alloc, stages, walk.as_slice())?;
            Err(fault)
        }
        None => Ok(()),
    }
}
