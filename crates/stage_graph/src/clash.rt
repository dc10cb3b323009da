// Owners of paths that overlap, and variables that come from outputs.
ghost use Rattle.std.specs.Prelude.{◌≡◌, ◌∷◌, take, IfOk};
ghost use Rattle.stage_graph.specs.Clash.{clash_of, clash_with, clash_fault, params_path, made_by};
ghost use Rattle.stage_graph.specs.Fault.{Checks, first_of};
ghost use Rattle.stage_graph.specs.Paths.{owner_paths};
ghost use Rattle.dvc_base.specs.declared.fault.Fault.TheVariants.{Duplicate, Overlap, VarsFromOutput};

use crate::owner::Owner;
use dvc_base::{Fault, NoMemory, Plain, Rel, is_same};
use path_index::PathIndex;
use std::alloc::Global;

/// The first owner that overlaps an earlier one, with the first such earlier one.
pub fn check_clash(alloc: Global, owners: &[Owner], index: &PathIndex) -> Result<(), Fault>
    requires paths { index.now ≡ owner_paths owners.now }
    ensures checked { Checks result (clash_fault owners.now) }
{
    for place in 0..owners.len() {
        check_owner(alloc, owners, index, place, &owners[place])?;
    }
    Ok(())
}

// Whether an owner overlaps one of those before the place.
fn check_owner(
    alloc: Global,
    owners: &[Owner],
    index: &PathIndex,
    place: usize,
    owner: &Owner,
) -> Result<(), Fault>
    requires paths { index.now ≡ owner_paths owners.now }
    ensures checked { Checks result (clash_with (take place owners.now) owner.now) }
{
    match index.first_overlap(&owner.path) {
        Some(first) => {
            if first < place {
                let fault = clash_of(alloc, &owners[first], owner)?;
                Err(fault)
            } else {
                Ok(())
            }
        }
        None => Ok(()),
    }
}

fn clash_of(alloc: Global, first: &Owner, second: &Owner) -> Result<Fault, NoMemory>
    ensures exact { IfOk result (λ fault. fault ≡ clash_of first.now second.now) }
{
    if is_same(&first.path, &second.path) {
        duplicate(alloc, first, second)
    } else {
        overlap(alloc, &first.path, &second.path)
    }
}

fn duplicate(alloc: Global, first: &Owner, second: &Owner) -> Result<Fault, NoMemory>
    ensures exact { IfOk result (λ fault. fault ≡ Duplicate second.now.path first.now.name second.now.name) }
{
    let path = second.path.copy(alloc)?;
    let earlier = first.name.copy(alloc)?;
    let later = second.name.copy(alloc)?;
    Ok(Fault::Duplicate {
        path,
        first: earlier,
        second: later,
    })
}

fn overlap(alloc: Global, first: &Rel, second: &Rel) -> Result<Fault, NoMemory>
    ensures exact { IfOk result (λ fault. fault ≡ Overlap first.now second.now) }
{
    let first = first.copy(alloc)?;
    let second = second.copy(alloc)?;
    Ok(Fault::Overlap { first, second })
}

/// The first file of variables that overlaps an output, with the first such output.
pub fn check_made(alloc: Global, outs: &PathIndex, vars: &[Rel]) -> Result<(), Fault>
    ensures checked { Checks result (first_of (made_by outs.now) (params_path ∷ vars.now)) }
{
    let params = params_path(alloc)?;
    check_file(alloc, outs, &params)?;
    check_files(alloc, outs, vars)
}

fn check_files(alloc: Global, outs: &PathIndex, files: &[Rel]) -> Result<(), Fault>
    ensures checked { Checks result (first_of (made_by outs.now) files.now) }
{
    for file in files {
        check_file(alloc, outs, file)?;
    }
    Ok(())
}

fn check_file(alloc: Global, outs: &PathIndex, file: &Rel) -> Result<(), Fault>
    ensures checked { Checks result (made_by outs.now file.now) }
{
    match outs.first(file) {
        Some(out) => Err(made(alloc, file, out)?),
        None => Ok(()),
    }
}

fn made(alloc: Global, file: &Rel, out: &Rel) -> Result<Fault, NoMemory>
    ensures exact { IfOk result (λ fault. fault ≡ VarsFromOutput file.now out.now) }
{
    let file = file.copy(alloc)?;
    let out = out.copy(alloc)?;
    Ok(Fault::VarsFromOutput { file, out })
}

#[tactic(auto, unfolding(crate::specs::Clash::params_path))]
fn params_path(alloc: Global) -> Result<Rel, NoMemory>
    ensures named { IfOk result (λ path. path ≡ params_path) }
{
    Rel::root(alloc)
        .join(alloc, "params.yaml")
        .map_err(|_| NoMemory)
}
