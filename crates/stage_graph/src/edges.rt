// Which stages are above each one.
ghost use Rattle.std.specs.Prelude.{◌≡◌, ◌||◌, ℕ, List, [], ◌∷◌, IfOk, OnOk};
ghost use Rattle.std.specs.List.{list_any};
ghost use Rattle.std.specs.List.Sorted.{IsStrictlySortedBy};
ghost use Rattle.std.specs.Ordering.{nat_cmp};
ghost use Rattle.path_index.specs.Overlap.{places};
ghost use Rattle.stage_order.specs.Order.{is_in};
ghost use Rattle.stage_graph.specs.Cycle.{all_above};
ghost use Rattle.stage_schema.specs.declared.stage.Stage.{Stage};
ghost use Rattle.stage_graph.specs.Makers.{is_maker, stages_at};
ghost use Rattle.stage_graph.specs.Paths.{needs, is_above, outputs, output_paths};

use crate::output::Output;
use crate::path::needs_of;
use dvc_base::{NoMemory, Numbers, Plural, Rel};
use path_index::PathIndex;
use stage_schema::Stage;
use std::alloc::Global;
use std::collections::BTreeSet;

/// For each stage the numbers of those above it. The index is that of all outputs.
pub fn all_above(
    alloc: Global,
    stages: &[Stage],
    made: &[Output],
    index: &PathIndex,
) -> Result<Plural<Numbers>, NoMemory>
    requires outputs { made.now ≡ outputs stages.now }
    requires paths { index.now ≡ output_paths made.now }
    ensures exact { IfOk result (λ above. above ≡ all_above stages.now) }
{
    let mut above = Plural::new(alloc);
    for stage in stages {
        let numbers = above_stage(alloc, stage, made, index)?;
        above.push(numbers)?;
    }
    Ok(above)
}

fn above_stage(
    alloc: Global,
    stage: &Stage,
    made: &[Output],
    index: &PathIndex,
) -> Result<Numbers, NoMemory>
    requires paths { index.now ≡ output_paths made.now }
    ensures exact { IfOk result (λ above. (stages : List Stage) → made.now ≡ outputs stages → above ≡ places (λ a. is_above a stage.now) stages) }
{
    if stage.frozen {
        return Ok(Numbers::new(alloc));
    }
    let found = makers(alloc, stage, made, index)?;
    numbers_in(alloc, &found)
}

// The stages that make what a stage needs.
fn makers(
    alloc: Global,
    stage: &Stage,
    made: &[Output],
    index: &PathIndex,
) -> Result<BTreeSet<u32>, NoMemory>
    requires paths { index.now ≡ output_paths made.now }
    ensures found { IfOk result (λ found. (n : ℕ) → is_in found.keys n ≡ list_any (λ need. is_maker made.now need n) (needs stage.now)) }
{
    let needed = needs_of(alloc, stage)?;
    makers_of(alloc, needed.as_slice(), made, index)
}

fn makers_of(
    alloc: Global,
    needed: &[Rel],
    made: &[Output],
    index: &PathIndex,
) -> Result<BTreeSet<u32>, NoMemory>
    requires paths { index.now ≡ output_paths made.now }
    ensures found { IfOk result (λ found. (n : ℕ) → is_in found.keys n ≡ list_any (λ need. is_maker made.now need n) needed.now) }
{
    let mut found = BTreeSet::new(alloc);
    for need in needed {
        add_makers(alloc, &mut found, need, made, index)?;
    }
    Ok(found)
}

fn add_makers(
    alloc: Global,
    found: &mut BTreeSet<u32>,
    need: &Rel,
    made: &[Output],
    index: &PathIndex,
) -> Result<(), NoMemory>
    requires paths { index.now ≡ output_paths made.now }
    ensures added { OnOk result ((n : ℕ) → is_in found.new.keys n ≡ (is_in found.old.keys n || is_maker made.now need.now n)) }
{
    let places = index.overlapping(alloc, need)?;
    add_stages(found, made, places.as_slice())
}

fn add_stages(found: &mut BTreeSet<u32>, made: &[Output], places: &[usize]) -> Result<(), NoMemory>
    ensures added { OnOk result ((n : ℕ) → is_in found.new.keys n ≡ (is_in found.old.keys n || is_in (stages_at made.now places.now) n)) }
{
    for place in places {
        add_stage(found, made, *place)?;
    }
    Ok(())
}

fn add_stage(found: &mut BTreeSet<u32>, made: &[Output], place: usize) -> Result<(), NoMemory>
    ensures added { OnOk result ((n : ℕ) → is_in found.new.keys n ≡ (is_in found.old.keys n || is_in (stages_at made.now (place ∷ [])) n)) }
{
    match made.get(place) {
        Some(output) => {
            found.insert(output.stage)?;
            Ok(())
        }
        None => Ok(()),
    }
}

fn numbers_in(alloc: Global, found: &BTreeSet<u32>) -> Result<Numbers, NoMemory>
    ensures sorted { IsStrictlySortedBy nat_cmp found.now.keys }
    ensures exact { IfOk result (λ numbers. numbers ≡ found.now.keys) }
{
    let all: Vec<u32> = found.iter().copied().collect(alloc)?;
    numbers_of(alloc, all.as_slice())
}

fn numbers_of(alloc: Global, all: &[u32]) -> Result<Numbers, NoMemory>
    ensures exact { IfOk result (λ numbers. numbers ≡ all.now) }
{
    let mut numbers = Numbers::new(alloc);
    for number in all {
        numbers.push(*number)?;
    }
    Ok(numbers)
}
