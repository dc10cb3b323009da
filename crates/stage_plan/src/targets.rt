// The stages that targets choose.
ghost use Rattle.std.specs.Prelude.{◌≡◌, ◌<◌, ◌^◌, ◌++◌, length, IfOk, OnOk};
ghost use Rattle.std.specs.List.{list_any, filter, flat_map};
ghost use Rattle.dvc_base.specs.Answer.{IsAnswer, fault_in};
ghost use Rattle.dvc_base.specs.Fault.{MayBe};
ghost use Rattle.stage_graph.specs.Graph.{graph_of};
ghost use Rattle.stage_plan.specs.Targets.{has_name, is_in_group, is_known, is_named_by, named, is_track_at, is_lost, target_fault, chosen, makes_any, named_alone, chosen_alone};
ghost use Rattle.path_index.specs.Overlap.{places};
ghost use Rattle.stage_order.specs.Order.{is_in};
ghost use Rattle.stage_plan.specs.Plan.{target_kinds};

use crate::owners::{are_any_at, is_at_any};
use crate::planned::push_outs;
use crate::tracks::other_paths;
use dvc_base::{Fault, NoMemory, Numbers, Plain, Rel, Rels, Text, is_same};
use stage_graph::{Graph, TrackFile, path_from};
use stage_schema::Stage as Written;
use std::alloc::Global;

/// Refuses the first target that is neither a stage's name nor a group's, and neither a track file's path nor one of these owners.
pub(crate) fn check_targets(
    alloc: Global,
    written: &[Written],
    tracks: &[TrackFile],
    owned: &[Rel],
    targets: &[Text],
) -> Result<(), Fault>
    ensures answer { IsAnswer (fault_in result) (target_fault owned.now targets.now written.now tracks.now) }
    ensures kinds { MayBe target_kinds (fault_in result) }
{
    for target in targets {
        if is_lost(alloc, written, tracks, owned, target)? {
            let name = target.copy(alloc)?;
            return Err(Fault::NoStage { name });
        }
    }
    Ok(())
}

/// The places of the stages that are to have their turns, in this order: those that targets name and all above them, and all
/// stages where there is no target.
pub(crate) fn chosen(
    alloc: Global,
    written: &[Written],
    graph: &Graph,
    targets: &[Text],
) -> Result<Numbers, NoMemory>
    requires few { length written.now < 2 ^ 32 }
    requires graph { graph.now ≡ graph_of written.now }
    ensures exact { IfOk result (λ places. places ≡ chosen targets.now written.now) }
{
    match targets {
        [] => copied(alloc, graph.order()),
        [_, ..] => {
            let named = all_named(alloc, written, targets)?;
            graph.above(alloc, named.as_slice())
        }
    }
}

fn copied(alloc: Global, numbers: &[u32]) -> Result<Numbers, NoMemory>
    ensures exact { IfOk result (λ copies. copies ≡ numbers.now) }
{
    let mut copies = Numbers::new(alloc);
    for number in numbers {
        copies.push(*number)?;
    }
    Ok(copies)
}

fn all_named(alloc: Global, written: &[Written], targets: &[Text]) -> Result<Numbers, NoMemory>
    requires few { length written.now < 2 ^ 32 }
    ensures exact { IfOk result (λ places. places ≡ flat_map (named written.now) targets.now) }
{
    let mut places = Numbers::new(alloc);
    for target in targets {
        push_named(&mut places, written, target)?;
    }
    Ok(places)
}

fn push_named(places: &mut Numbers, written: &[Written], target: &Text) -> Result<(), NoMemory>
    requires few { length written.now < 2 ^ 32 }
    ensures ok { OnOk result (places.new ≡ places.old ++ named written.now target.now) }
{
    let by_name = is_stage(written, target);
    for place in 0..written.len() {
        if is_named(by_name, target, &written[place]) {
            places.push(place as u32)?;
        }
    }
    Ok(())
}

/// The places of the stages that targets name, or of which they name an output, in this order and without what is above; all
/// stages where there is no target.
pub(crate) fn chosen_alone(
    alloc: Global,
    written: &[Written],
    graph: &Graph,
    targets: &[Text],
) -> Result<Numbers, NoMemory>
    requires few { length written.now < 2 ^ 32 }
    requires graph { graph.now ≡ graph_of written.now }
    ensures exact { IfOk result (λ places. places ≡ chosen_alone targets.now written.now) }
{
    match targets {
        [] => copied(alloc, graph.order()),
        [_, ..] => {
            let named = named_alone(alloc, written, targets)?;
            among(alloc, graph.order(), named.as_slice())
        }
    }
}

fn named_alone(alloc: Global, written: &[Written], targets: &[Text]) -> Result<Numbers, NoMemory>
    requires few { length written.now < 2 ^ 32 }
    ensures exact { IfOk result (λ found. found ≡ named_alone targets.now written.now) }
{
    let paths = other_paths(alloc, written, targets)?;
    let mut found = all_named(alloc, written, targets)?;
    push_makers(alloc, &mut found, written, paths.as_slice())?;
    Ok(found)
}

// The stages with an output at one of the paths.
fn push_makers(
    alloc: Global,
    found: &mut Numbers,
    written: &[Written],
    paths: &[Rel],
) -> Result<(), NoMemory>
    requires few { length written.now < 2 ^ 32 }
    ensures ok { OnOk result (found.new ≡ found.old ++ places (makes_any paths.now) written.now) }
{
    for place in 0..written.len() {
        if makes_any(alloc, &written[place], paths)? {
            found.push(place as u32)?;
        }
    }
    Ok(())
}

fn makes_any(alloc: Global, stage: &Written, paths: &[Rel]) -> Result<bool, NoMemory>
    ensures exact { IfOk result (λ makes. makes ≡ makes_any paths.now stage.now) }
{
    let mut made = Rels::new(alloc);
    push_outs(alloc, &mut made, &stage.dir, stage.outs.as_slice())?;
    Ok(are_any_at(paths, made.as_slice()))
}

// Those of the numbers that are named.
fn among(alloc: Global, numbers: &[u32], named: &[u32]) -> Result<Numbers, NoMemory>
    ensures exact { IfOk result (λ found. found ≡ filter (is_in named.now) numbers.now) }
{
    let mut found = Numbers::new(alloc);
    for number in numbers {
        if named.contains(number) {
            found.push(*number)?;
        }
    }
    Ok(found)
}

// ---- one target

// Whether a target names no stage, no group, no track file and no owner.
fn is_lost(
    alloc: Global,
    written: &[Written],
    tracks: &[TrackFile],
    owned: &[Rel],
    target: &Text,
) -> Result<bool, NoMemory>
    ensures exact { IfOk result (λ lost. lost ≡ is_lost owned.now written.now tracks.now target.now) }
{
    if is_known(written, target) {
        return Ok(false);
    }
    let path = path_from(alloc, &Rel::root(alloc), target.as_str())?;
    Ok(!(is_track_at(tracks, &path) || is_at_any(owned, &path)))
}

fn is_track_at(tracks: &[TrackFile], path: &Rel) -> bool
    ensures exact { result ≡ is_track_at tracks.now path.now }
{
    tracks.iter().any(|track| is_same(&track.file, path))
}

/// Whether a target is a stage's name or a group's.
pub(crate) fn is_known(written: &[Written], target: &Text) -> bool
    ensures exact { result ≡ is_known written.now target.now }
{
    is_stage(written, target) || is_group(written, target)
}

fn is_stage(written: &[Written], target: &Text) -> bool
    ensures exact { result ≡ list_any (has_name target.now) written.now }
{
    written.iter().any(|stage| has_name(stage, target))
}

fn is_group(written: &[Written], target: &Text) -> bool
    ensures exact { result ≡ list_any (is_in_group target.now) written.now }
{
    written.iter().any(|stage| is_in_group(stage, target))
}

// A stage's name comes before that of a group.
fn is_named(by_name: bool, target: &Text, stage: &Written) -> bool
    ensures exact { result ≡ is_named_by by_name target.now stage.now }
{
    if by_name {
        has_name(stage, target)
    } else {
        is_in_group(stage, target)
    }
}

fn has_name(stage: &Written, target: &Text) -> bool
    ensures exact { result ≡ has_name target.now stage.now }
{
    stage.name.as_str() == target.as_str()
}

// A stage that no template made is in no group.
fn is_in_group(stage: &Written, target: &Text) -> bool
    ensures exact { result ≡ is_in_group target.now stage.now }
{
    !stage.group.as_str().is_empty() && stage.group.as_str() == target.as_str()
}
