// Dependencies and outputs in the order of their texts.
ghost use Rattle.std.specs.Prelude.{◌≡◌, map, IfOk};
ghost use Rattle.lock_files.specs.Order.{in_order};
ghost use Rattle.repro_laws.specs.Stage.{dep_text, out_text};

use dvc_base::{NoMemory, Plain, Plural};
use repro_laws::{Dep, Out};
use std::alloc::Global;

/// Dependencies in the order of their texts.
pub(crate) fn deps_by_text(alloc: Global, deps: &[Dep]) -> Result<Plural<Dep>, NoMemory>
    ensures exact { IfOk result (λ sorted. sorted ≡ in_order dep_text deps.now) }
{
    let sorted = sorted_deps(alloc, deps)?;
    copied_deps(alloc, sorted.as_slice())
}

fn sorted_deps<'a>(alloc: Global, deps: &'a [Dep]) -> Result<Vec<&'a Dep>, NoMemory>
    ensures exact { IfOk result (λ sorted. map (λ d. d.now) sorted.items ≡ in_order dep_text deps.now) }
{
    let mut sorted = Vec::new(alloc);
    for dep in deps {
        sorted.push(dep)?;
    }
    sorted.sort_by(|a, b| a.text.as_str().cmp(b.text.as_str()))?;
    Ok(sorted)
}

fn copied_deps(alloc: Global, deps: &[&Dep]) -> Result<Plural<Dep>, NoMemory>
    ensures exact { IfOk result (λ copies. copies ≡ map (λ d. d.now) deps.now) }
{
    let mut copies = Plural::new(alloc);
    for dep in deps {
        copies.push(copied_dep(alloc, dep)?)?;
    }
    Ok(copies)
}

fn copied_dep(alloc: Global, dep: &Dep) -> Result<Dep, NoMemory>
    ensures same { IfOk result (λ copy. copy ≡ dep.now) }
{
    let text = dep.text.copy(alloc)?;
    Ok(Dep {
        text,
        path: dep.path.copy(alloc)?,
        inside: dep.inside,
    })
}

/// Outputs in the order of their texts.
pub(crate) fn outs_by_text(alloc: Global, outs: &[Out]) -> Result<Plural<Out>, NoMemory>
    ensures exact { IfOk result (λ sorted. sorted ≡ in_order out_text outs.now) }
{
    let sorted = sorted_outs(alloc, outs)?;
    copied_outs(alloc, sorted.as_slice())
}

fn sorted_outs<'a>(alloc: Global, outs: &'a [Out]) -> Result<Vec<&'a Out>, NoMemory>
    ensures exact { IfOk result (λ sorted. map (λ o. o.now) sorted.items ≡ in_order out_text outs.now) }
{
    let mut sorted = Vec::new(alloc);
    for out in outs {
        sorted.push(out)?;
    }
    sorted.sort_by(|a, b| a.text.as_str().cmp(b.text.as_str()))?;
    Ok(sorted)
}

fn copied_outs(alloc: Global, outs: &[&Out]) -> Result<Plural<Out>, NoMemory>
    ensures exact { IfOk result (λ copies. copies ≡ map (λ o. o.now) outs.now) }
{
    let mut copies = Plural::new(alloc);
    for out in outs {
        copies.push(copied_out(alloc, out)?)?;
    }
    Ok(copies)
}

fn copied_out(alloc: Global, out: &Out) -> Result<Out, NoMemory>
    ensures same { IfOk result (λ copy. copy ≡ out.now) }
{
    let text = out.text.copy(alloc)?;
    Ok(Out {
        text,
        path: out.path.copy(alloc)?,
        cached: out.cached,
    })
}
