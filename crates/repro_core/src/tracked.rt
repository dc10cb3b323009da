// The parameters that a stage tracks, as their files say them.
ghost use Rattle.std.specs.Prelude.{◌≡◌, ◌⊎◌, [], map, Ok, Err, IsTrue, IfOk, IsErrOf, MatchResult};
ghost use Rattle.std.specs.List.{AllByRecursion};
ghost use Rattle.dvc_base.specs.Answer.{fault_in, IsAnswer};
ghost use Rattle.dvc_base.specs.Fault.{MayBe, IsHonest};
ghost use Rattle.dvc_base.specs.declared.fault.Fault.TheVariants.{NoMemory as Memory, WorldFault};
ghost use Rattle.dvc_base.specs.declared.node.Pair.{roll-Pair};
ghost use Rattle.yaml_nodes.specs.Part.{key_of};
ghost use Rattle.yaml_print.specs.Sound.{Each};
ghost use Rattle.lock_files.specs.Mapping as mapping;
ghost use Rattle.lock_files.specs.Order.{in_order};
ghost use Rattle.lock_files.specs.Form.{IsKeyed, are_distinct, file_at};
ghost use Rattle.world_api.specs.Tree.{item_at};
ghost use Rattle.world_api.specs.History.{IsCaused};
ghost use Rattle.world_api.specs.Outside.{tree_of, IsUntouched};
ghost use Rattle.params.specs.Read as reading;
ghost use Rattle.repro_laws.specs.Params.{AreParams, pairs_or_none, key_value, key_values, file_keys, file_read, tracked_at};
ghost use Rattle.repro_laws.specs.Stage.{params_at, tracked_path, tracked_text, IsStage};
ghost use Rattle.repro_laws.specs.declared.stage.Stage.{Stage as AStage};
ghost use Rattle.repro_core.specs.Steps.{tracked_kinds};
ghost use Rattle.repro_core.specs.Telling.{IsOneOf, TellsOwn};

use crate::answer::params_answer;
use dvc_base::{Fault, NoMemory, Node, Pair, PairList, ParamFile, ParamFiles, Plain, Rel, Text};
use params::{lookup, read_params};
use repro_laws::{Stage, Tracked};
use std::alloc::Global;
use world_api::ReadFiles;

/// Reads the files of parameters as they are written, and gives their tracked values in the order of an entry. The first
/// refusal, of a file or of a key in it, ends it.
pub(crate) fn read_tracked<F: ReadFiles>(
    alloc: Global,
    files: &mut F,
    stage: &Stage,
) -> Result<ParamFiles, Fault>
    requires stage { IsStage stage.now }
    ensures answer { IsTrue F.tells →
        IsAnswer (fault_in result) (fault_in (params_at stage.now (tree_of (F.history files.old)))) }
    ensures read { IsTrue F.tells →
        IfOk result (λ params. params_at stage.now (tree_of (F.history files.old)) ≡ Ok params) }
    ensures form { IfOk result AreParams }
    ensures unchanged { IsUntouched F.tells (F.history files.old) (F.history files.new) }
    ensures told { TellsOwn stage.now (fault_in result) }
    ensures kinds { MayBe tracked_kinds (fault_in result) }
    ensures honest { IsHonest F.tells (fault_in result) }
    ensures cause { IsCaused (F.faults files.old) (F.faults files.new) (IsErrOf result WorldFault) }
{
    let written = read_files(alloc, files, stage.params.as_slice())?;
    Ok(files_by_text(alloc, written.as_slice())?)
}

// ---- files

// The files in the order in which they are written, up to the first that is refused.
fn read_files<F: ReadFiles>(
    alloc: Global,
    files: &mut F,
    written: &[Tracked],
) -> Result<ParamFiles, Fault>
    requires keys { AllByRecursion (λ w. IsTrue (are_distinct [] w.keys)) written.now }
    ensures answer { IsTrue F.tells →
        IsAnswer (fault_in result) (fault_in (tracked_at (tree_of (F.history files.old)) written.now)) }
    ensures read { IsTrue F.tells →
        IfOk result (λ made. tracked_at (tree_of (F.history files.old)) written.now ≡ Ok made) }
    ensures texts { IfOk result (λ made. map file_at made ≡ map tracked_text written.now) }
    ensures keys { IfOk result (Each (λ f. IsKeyed f.keys)) }
    ensures unchanged { IsUntouched F.tells (F.history files.old) (F.history files.new) }
    ensures told { (s : AStage) → s.params ≡ written.now → TellsOwn s (fault_in result) }
    ensures kinds { MayBe tracked_kinds (fault_in result) }
    ensures honest { IsHonest F.tells (fault_in result) }
    ensures cause { IsCaused (F.faults files.old) (F.faults files.new) (IsErrOf result WorldFault) }
{
    let mut made = ParamFiles::new(alloc);
    for tracked in written {
        made.push(read_file(alloc, files, tracked)?)?;
    }
    Ok(made)
}

// One of them.
fn read_file<F: ReadFiles>(
    alloc: Global,
    files: &mut F,
    tracked: &Tracked,
) -> Result<ParamFile, Fault>
    requires keys { IsTrue (are_distinct [] tracked.now.keys) }
    ensures answer { IsTrue F.tells → IsAnswer (fault_in result)
        (fault_in (file_read tracked.now (reading.params_at (item_at (tree_of (F.history files.old)) tracked.now.path)))) }
    ensures read { IsTrue F.tells → IfOk result (λ file.
        file_read tracked.now (reading.params_at (item_at (tree_of (F.history files.old)) tracked.now.path)) ≡ Ok file) }
    ensures text { IfOk result (λ file. file.file ≡ tracked.now.text) }
    ensures keys { IfOk result (λ file. IsKeyed file.keys) }
    ensures unchanged { IsUntouched F.tells (F.history files.old) (F.history files.new) }
    ensures told { (s : AStage) → IsOneOf (map tracked_path s.params) tracked.now.path → TellsOwn s (fault_in result) }
    ensures kinds { MayBe tracked_kinds (fault_in result) }
    ensures honest { IsHonest F.tells (fault_in result) }
    ensures cause { IsCaused (F.faults files.old) (F.faults files.new) (IsErrOf result WorldFault) }
{
    match read_params(alloc, files, &tracked.path) {
        Ok(root) => file_of(alloc, tracked, &root),
        Err(why) => Err(params_answer(alloc, &tracked.path, why)),
    }
}

// ---- the keys of a file

// The tracked keys of a file that was read.
fn file_of(alloc: Global, tracked: &Tracked, root: &Node) -> Result<ParamFile, Fault>
    ensures exact { MatchResult result
        (λ file. file_keys tracked.now root.now ≡ Ok file)
        (λ fault. (fault ≡ Memory) ⊎ (file_keys tracked.now root.now ≡ Err fault)) }
{
    let file = tracked.text.copy(alloc)?;
    let keys = tracked_keys(alloc, tracked, root)?;
    Ok(ParamFile { file, keys })
}

// A whole file tracks each of its own keys.
fn tracked_keys(alloc: Global, tracked: &Tracked, root: &Node) -> Result<PairList, Fault>
    ensures exact { MatchResult result
        (λ keys. file_keys tracked.now root.now ≡ Ok (record { file = tracked.now.text; keys = keys }))
        (λ fault. (fault ≡ Memory) ⊎ (file_keys tracked.now root.now ≡ Err fault)) }
{
    if tracked.all {
        return Ok(pairs_by_key(alloc, pairs_of(root))?);
    }
    let pairs = key_pairs(alloc, &tracked.path, root, tracked.keys.as_slice())?;
    Ok(pairs_by_key(alloc, pairs.as_slice())?)
}

// The pairs of a mapping, and none of another node.
fn pairs_of(root: &Node) -> &[Pair]
    ensures exact { result.now ≡ pairs_or_none (mapping.pairs_in root.now) }
{
    match root {
        Node::Pairs(pairs) => pairs.as_slice(),
        _ => &[],
    }
}

// The keys in the order in which they are written, up to the first that leads nowhere.
fn key_pairs(alloc: Global, file: &Rel, root: &Node, keys: &[Text]) -> Result<PairList, Fault>
    ensures exact { MatchResult result
        (λ pairs. key_values file.now root.now keys.now ≡ Ok pairs)
        (λ fault. (fault ≡ Memory) ⊎ (key_values file.now root.now keys.now ≡ Err fault)) }
{
    let mut pairs = PairList::new(alloc);
    for key in keys {
        pairs.push(key_pair(alloc, file, root, key)?)?;
    }
    Ok(pairs)
}

fn key_pair(alloc: Global, file: &Rel, root: &Node, key: &Text) -> Result<Pair, Fault>
    ensures exact { MatchResult result
        (λ pair. key_value file.now root.now key.now ≡ Ok pair)
        (λ fault. (fault ≡ Memory) ⊎ (key_value file.now root.now key.now ≡ Err fault)) }
{
    match lookup(root, key.as_str()) {
        Some(value) => Ok(pair_of(alloc, key, value)?),
        None => Err(Fault::NoKey {
            file: file.copy(alloc)?,
            key: key.copy(alloc)?,
        }),
    }
}

fn pair_of(alloc: Global, key: &Text, value: &Node) -> Result<Pair, NoMemory>
    ensures exact { IfOk result (λ pair. pair ≡ roll-Pair (record { key = key.now; value = value.now })) }
{
    Ok(Pair {
        key: key.copy(alloc)?,
        value: value.copy(alloc)?,
    })
}

// ---- the order of an entry

// Pairs in the order of their keys.
fn pairs_by_key(alloc: Global, pairs: &[Pair]) -> Result<PairList, NoMemory>
    ensures exact { IfOk result (λ sorted. sorted ≡ in_order key_of pairs.now) }
{
    let sorted = sorted_pairs(alloc, pairs)?;
    copied_pairs(alloc, sorted.as_slice())
}

fn sorted_pairs<'a>(alloc: Global, pairs: &'a [Pair]) -> Result<Vec<&'a Pair>, NoMemory>
    ensures exact { IfOk result (λ sorted. map (λ p. p.now) sorted.items ≡ in_order key_of pairs.now) }
{
    let mut sorted = Vec::new(alloc);
    for pair in pairs {
        sorted.push(pair)?;
    }
    sorted.sort_by(|a, b| a.key.as_str().cmp(b.key.as_str()))?;
    Ok(sorted)
}

fn copied_pairs(alloc: Global, pairs: &[&Pair]) -> Result<PairList, NoMemory>
    ensures exact { IfOk result (λ copies. copies ≡ map (λ p. p.now) pairs.now) }
{
    let mut copies = PairList::new(alloc);
    for pair in pairs {
        copies.push(pair.copy(alloc)?)?;
    }
    Ok(copies)
}

// Files in the order of their texts.
fn files_by_text(alloc: Global, files: &[ParamFile]) -> Result<ParamFiles, NoMemory>
    ensures exact { IfOk result (λ sorted. sorted ≡ in_order file_at files.now) }
{
    let sorted = sorted_files(alloc, files)?;
    copied_files(alloc, sorted.as_slice())
}

fn sorted_files<'a>(alloc: Global, files: &'a [ParamFile]) -> Result<Vec<&'a ParamFile>, NoMemory>
    ensures exact { IfOk result (λ sorted. map (λ f. f.now) sorted.items ≡ in_order file_at files.now) }
{
    let mut sorted = Vec::new(alloc);
    for file in files {
        sorted.push(file)?;
    }
    sorted.sort_by(|a, b| a.file.as_str().cmp(b.file.as_str()))?;
    Ok(sorted)
}

fn copied_files(alloc: Global, files: &[&ParamFile]) -> Result<ParamFiles, NoMemory>
    ensures exact { IfOk result (λ copies. copies ≡ map (λ f. f.now) files.now) }
{
    let mut copies = ParamFiles::new(alloc);
    for file in files {
        copies.push(file.copy(alloc)?)?;
    }
    Ok(copies)
}
