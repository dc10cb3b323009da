// The files of a workspace that say what else there is.
ghost use Rattle.std.specs.Prelude.{◌≡◌, map, IsTrue, IfOk, IfErr, IsErrOf};
ghost use Rattle.dvc_base.specs.Answer.{fault_in};
ghost use Rattle.dvc_base.specs.Fault.{MayBe, IsHonest};
ghost use Rattle.dvc_base.specs.declared.fault.Fault.TheVariants.{WorldFault, NoMemory as Memory};
ghost use Rattle.file_hash.specs.Listing.{in_order};
ghost use Rattle.world_api.specs.History.{IsCaused};
ghost use Rattle.world_api.specs.Outside.{tree_of, IsUntouched};
ghost use Rattle.workspace_files.specs.Walk.{is_before, found_in, IsFound, find_kinds};
ghost use Rattle.workspace_files.specs.Met as spec;
ghost use Rattle.workspace_files.specs.Read.{IsRead};

use crate::walk::{Met, WalkFault, walk_all};
use dvc_base::{Fault, NoMemory, Plain, Rel, Rels, What};
use std::alloc::Global;
use world_api::ReadFiles;

/// Files of a workspace, in the order of their paths by bytes.
#[derive(Drop)]
pub struct Found {
    /// The `.dvcignore` files.
    pub ignores: Rels,
    /// The track files.
    pub tracks: Rels,
}

/// Finds the `.dvcignore` files and the track files. It walks over all that stands outside the folders `.dvc`, `.git` and `.hg`
/// of the root, and reads no file.
pub fn find<F: ReadFiles>(alloc: Global, files: &mut F) -> Result<Found, Fault>
    ensures read { IsTrue F.tells → IsRead result (found_in (tree_of (F.history files.old))) }
    // Over any world what is found has the paths of such files.
    ensures found { IfOk result IsFound }
    ensures unchanged { IsUntouched F.tells (F.history files.old) (F.history files.new) }
    ensures kinds { MayBe find_kinds (fault_in result) }
    ensures honest { IsHonest F.tells (fault_in result) }
    ensures cause { IsCaused (F.faults files.old) (F.faults files.new) (IsErrOf result WorldFault) }
{
    match walk_all(alloc, files) {
        Ok(met) => found_of(alloc, &met),
        Err(why) => Err(fault_of(why)),
    }
}

// The answer to each refusal of a walk.
fn fault_of(why: WalkFault) -> Fault
    ensures exact { result ≡ spec.fault_of why }
{
    match why {
        WalkFault::LongPath => too_large(What::Path),
        WalkFault::ManyPaths => too_large(What::Paths),
        WalkFault::Failed => Fault::WorldFault,
        WalkFault::NoMemory => Fault::NoMemory,
    }
}

fn too_large(what: What) -> Fault
    ensures exact { result ≡ spec.too_large what }
{
    Fault::TooLarge {
        what,
        limit: what.limit(),
    }
}

// What a walk has met, in order.
fn found_of(alloc: Global, met: &Met) -> Result<Found, Fault>
    ensures exact { IfOk result (λ found. found ≡ spec.found_of met.now) }
    ensures memory { IfErr result (λ fault. fault ≡ Memory) }
{
    Ok(Found {
        ignores: sorted(alloc, met.ignores.as_slice())?,
        tracks: sorted(alloc, met.tracks.as_slice())?,
    })
}

// The paths in the order of their texts.
fn sorted(alloc: Global, paths: &[Rel]) -> Result<Rels, NoMemory>
    ensures exact { IfOk result (λ sorted. sorted ≡ in_order is_before paths.now) }
{
    let sorted = refs_in_order(alloc, paths)?;
    copies_of(alloc, sorted.as_slice())
}

fn refs_in_order<'a>(alloc: Global, paths: &'a [Rel]) -> Result<Vec<&'a Rel>, NoMemory>
    ensures exact { IfOk result (λ sorted. map (λ p. p.now) sorted.items ≡ in_order is_before paths.now) }
{
    let mut sorted = Vec::new(alloc);
    for path in paths {
        sorted.push(path)?;
    }
    sorted.sort_by(|a, b| a.text().cmp(b.text()))?;
    Ok(sorted)
}

fn copies_of(alloc: Global, paths: &[&Rel]) -> Result<Rels, NoMemory>
    ensures exact { IfOk result (λ copies. copies ≡ map (λ p. p.now) paths.now) }
{
    let mut copies = Rels::new(alloc);
    for path in paths {
        copies.push(path.copy(alloc)?)?;
    }
    Ok(copies)
}
