// Places as a set, which has each once and in order.
ghost use Rattle.std.specs.Prelude.{◌≡◌, ◌||◌, ℕ, IfOk, OnOk};
ghost use Rattle.std.specs.List.Sorted.{IsStrictlySortedBy};
ghost use Rattle.std.specs.Ordering.{nat_cmp};
ghost use Rattle.path_index.specs.Table.{is_in};

use dvc_base::NoMemory;
use std::alloc::Global;
use std::collections::BTreeSet;

pub(crate) fn add(found: &mut BTreeSet<usize>, places: &[usize]) -> Result<(), NoMemory>
    ensures added { OnOk result ((n : ℕ) → is_in found.new.keys n ≡ (is_in found.old.keys n || is_in places.now n)) }
{
    for place in places {
        found.insert(*place)?;
    }
    Ok(())
}

// The places of the set, in order.
pub(crate) fn listed(alloc: Global, found: &BTreeSet<usize>) -> Result<Vec<usize>, NoMemory>
    ensures sorted { IsStrictlySortedBy nat_cmp found.now.keys }
    ensures exact { IfOk result (λ places. places.items ≡ found.now.keys) }
{
    let places: Vec<usize> = found.iter().copied().collect(alloc)?;
    Ok(places)
}
