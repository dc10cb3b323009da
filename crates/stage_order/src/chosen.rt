// Chosen stages, and all that are above them.
ghost use Rattle.std.specs.Prelude.{◌≡◌, ◌||◌, [], ℕ, reverse, IfOk, OnOk};
ghost use Rattle.stage_order.specs.Order.{is_in, above_of};
ghost use Rattle.stage_order.specs.Brought.{brought};

use dvc_base::{NoMemory, Numbers};
use std::alloc::Global;
use std::collections::BTreeSet;

/// Of the stages in order, those that are chosen and all that are above them.
pub fn brought(
    alloc: Global,
    above: &[Numbers],
    chosen: &[u32],
    order: &[u32],
) -> Result<Numbers, NoMemory>
    ensures exact { IfOk result (λ stages. stages ≡ brought above.now chosen.now order.now) }
{
    let taken = taken(alloc, above, chosen, order)?;
    reversed(alloc, taken.as_slice())
}

// They are found from the last to the first.
fn taken(
    alloc: Global,
    above: &[Numbers],
    chosen: &[u32],
    order: &[u32],
) -> Result<Numbers, NoMemory>
    ensures exact { IfOk result (λ stages. reverse stages ≡ brought above.now chosen.now order.now) }
{
    let mut wanted = BTreeSet::new(alloc);
    add_all(&mut wanted, chosen)?;
    take_wanted(alloc, &mut wanted, above, order)
}

fn take_wanted(
    alloc: Global,
    wanted: &mut BTreeSet<u32>,
    above: &[Numbers],
    order: &[u32],
) -> Result<Numbers, NoMemory>
    ensures exact { IfOk result (λ stages. reverse stages ≡ brought above.now wanted.old.keys order.now) }
{
    let mut taken = Numbers::new(alloc);
    for done in 0..order.len() {
        let stage = order[order.len() - 1 - done];
        if wanted.contains(&stage) {
            taken.push(stage)?;
            add_above(wanted, above, stage)?;
        }
    }
    Ok(taken)
}

fn add_above(wanted: &mut BTreeSet<u32>, above: &[Numbers], stage: u32) -> Result<(), NoMemory>
    ensures ok { OnOk result ((n : ℕ) → is_in wanted.new.keys n ≡ (is_in wanted.old.keys n || is_in (above_of above.now stage) n)) }
{
    match above.get(stage as usize) {
        Some(numbers) => add_all(wanted, numbers.as_slice()),
        None => Ok(()),
    }
}

fn add_all(wanted: &mut BTreeSet<u32>, numbers: &[u32]) -> Result<(), NoMemory>
    ensures ok { OnOk result ((n : ℕ) → is_in wanted.new.keys n ≡ (is_in wanted.old.keys n || is_in numbers.now n)) }
{
    for number in numbers {
        wanted.insert(*number)?;
    }
    Ok(())
}

fn reversed(alloc: Global, numbers: &[u32]) -> Result<Numbers, NoMemory>
    ensures exact { IfOk result (λ back. back ≡ reverse numbers.now) }
{
    let mut back = Numbers::new(alloc);
    for done in 0..numbers.len() {
        back.push(numbers[numbers.len() - 1 - done])?;
    }
    Ok(back)
}
