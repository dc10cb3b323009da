// A mapping, merged into another one: first it is looked through for a clash, and then the merged mapping is made.
ghost use Rattle.std.specs.Prelude.{◌≡◌, [], ◌∷◌, ◌++◌, map, IfOk, OnOk, option_copied};
ghost use Rattle.std.specs.List.{filter};
ghost use Rattle.yaml_nodes.specs.Part.{key_of};
ghost use Rattle.lock_files.specs.Mapping as mapping;
ghost use Rattle.template_vars.specs.Answer.{IsAnswer};
ghost use Rattle.template_vars.specs.Merge as spec;

use crate::TemplateFault;
use dvc_base::{NoMemory, Node, Pair, PairList, Plain, Text};
use std::alloc::Global;

// How many mappings are entered, one inside another.
const MAX_DEPTH: usize = 64;

/// The second mapping merged into the first, or the refusal of the first key at which two values meet that can't be
/// merged.
pub fn merge_answer(
    alloc: Global,
    first: &[Pair],
    second: &[Pair],
) -> Result<PairList, TemplateFault>
    ensures answer { IsAnswer result (spec.merge_answer first.now second.now) }
{
    match clash(MAX_DEPTH, first, second) {
        Some(key) => Err(TemplateFault::Schema {
            key: Text::of(alloc, key)?,
        }),
        None => Ok(merged(alloc, MAX_DEPTH, first, second)?),
    }
}

/// The value under a key, if there is one.
pub fn value_at<'a>(pairs: &'a [Pair], key: &str) -> Option<&'a Node>
    ensures exact { option_copied result ≡ mapping.value_at key.now pairs.now }
{
    let mut rest = pairs;
    while let [pair, more @ ..] = rest {
        if pair.key.as_str() == key {
            return Some(&pair.value);
        }
        rest = more;
    }
    None
}

// ---- the first clash

// The first key at which two values meet that can't be merged.
#[cycle(clash)]
fn clash<'a>(depth: usize, first: &[Pair], mut second: &'a [Pair]) -> Option<&'a str>
    ensures exact { option_copied result ≡ spec.clash depth first.now second.entry.now }
{
    while let [pair, more @ ..] = second {
        if let Some(key) = clash_with(depth, pair, value_at(first, pair.key.as_str())) {
            return Some(key);
        }
        second = more;
    }
    None
}

// The key, where the pair clashes with what stands under it.
#[cycle(clash)]
fn clash_with<'a>(depth: usize, pair: &'a Pair, value: Option<&Node>) -> Option<&'a str>
    ensures exact { option_copied result
        ≡ spec.clash_with (spec.clash_inside depth) pair.now (option_copied value.entry) }
{
    match value {
        Some(value) => clash_of(depth, pair, pairs_in(value), pairs_in(&pair.value)),
        None => None,
    }
}

#[cycle(clash)]
fn clash_of<'a>(
    depth: usize,
    pair: &'a Pair,
    first: Option<&[Pair]>,
    second: Option<&'a [Pair]>,
) -> Option<&'a str>
    ensures exact { option_copied result
        ≡ spec.clash_of (spec.clash_inside depth) (key_of pair.now)
        (option_copied first.entry) (option_copied second.entry) }
{
    match first {
        Some(first) => match second {
            Some(second) => clash_inside(depth, pair, first, second),
            None => Some(pair.key.as_str()),
        },
        None => Some(pair.key.as_str()),
    }
}

#[cycle(clash)]
#[tactic(auto, using(crate::proofs::MergeLemmas::clash_none, crate::proofs::MergeLemmas::clash_deep))]
fn clash_inside<'a>(
    depth: usize,
    pair: &'a Pair,
    first: &[Pair],
    second: &'a [Pair],
) -> Option<&'a str>
    ensures exact { option_copied result ≡ spec.clash_inside depth (key_of pair.now) first.now second.now }
{
    if depth == 0 {
        Some(pair.key.as_str())
    } else {
        clash(depth - 1, first, second)
    }
}

// The pairs of a mapping.
fn pairs_in(node: &Node) -> Option<&[Pair]>
    ensures exact { option_copied result ≡ mapping.pairs_in node.now }
{
    match node {
        Node::Pairs(pairs) => Some(pairs.as_slice()),
        _ => None,
    }
}

// ---- the merged mapping

// The first mapping's pairs in their places, with the mappings under one key merged inside, and then the second's other
// pairs.
#[cycle(merge)]
fn merged(
    alloc: Global,
    depth: usize,
    first: &[Pair],
    second: &[Pair],
) -> Result<PairList, NoMemory>
    ensures exact { IfOk result (λ made. made ≡ spec.merged depth first.now second.now) }
{
    let mut made = PairList::new(alloc);
    put_merged(alloc, depth, &mut made, first, second)?;
    put_new(alloc, &mut made, first, second)?;
    Ok(made)
}

#[cycle(merge)]
fn put_merged(
    alloc: Global,
    depth: usize,
    made: &mut PairList,
    first: &[Pair],
    second: &[Pair],
) -> Result<(), NoMemory>
    ensures ok { OnOk result (made.new
        ≡ made.old ++ map (spec.pair_with (spec.merged_inside depth) second.now) first.now) }
{
    for pair in first {
        let value = value_with(
            alloc,
            depth,
            &pair.value,
            value_at(second, pair.key.as_str()),
        )?;
        let key = pair.key.copy(alloc)?;
        made.push(Pair { key, value })?;
    }
    Ok(())
}

// The value, with what the other mapping has under its key.
#[cycle(merge)]
fn value_with(
    alloc: Global,
    depth: usize,
    value: &Node,
    other: Option<&Node>,
) -> Result<Node, NoMemory>
    ensures exact { IfOk result (λ made. made
        ≡ spec.value_with (spec.merged_inside depth) value.now (option_copied other.entry)) }
{
    match other {
        Some(other) => mapping_with(alloc, depth, value, pairs_in(value), pairs_in(other)),
        None => value.copy(alloc),
    }
}

#[cycle(merge)]
fn mapping_with(
    alloc: Global,
    depth: usize,
    value: &Node,
    first: Option<&[Pair]>,
    second: Option<&[Pair]>,
) -> Result<Node, NoMemory>
    ensures exact { IfOk result (λ made. made
        ≡ spec.mapping_with (spec.merged_inside depth) value.now
        (option_copied first.entry) (option_copied second.entry)) }
{
    match first {
        Some(first) => match second {
            Some(second) => Ok(Node::Pairs(merged_inside(alloc, depth, first, second)?)),
            None => value.copy(alloc),
        },
        None => value.copy(alloc),
    }
}

#[cycle(merge)]
#[tactic(auto, using(crate::proofs::MergeLemmas::merged_none, crate::proofs::MergeLemmas::merged_deep))]
fn merged_inside(
    alloc: Global,
    depth: usize,
    first: &[Pair],
    second: &[Pair],
) -> Result<PairList, NoMemory>
    ensures exact { IfOk result (λ made. made ≡ spec.merged_inside depth first.now second.now) }
{
    if depth == 0 {
        copies(alloc, first)
    } else {
        merged(alloc, depth - 1, first, second)
    }
}

fn copies(alloc: Global, pairs: &[Pair]) -> Result<PairList, NoMemory>
    ensures exact { IfOk result (λ made. made ≡ pairs.now) }
{
    let mut made = PairList::new(alloc);
    for pair in pairs {
        made.push(pair.copy(alloc)?)?;
    }
    Ok(made)
}

// The second's pairs whose keys the first lacks.
fn put_new(
    alloc: Global,
    made: &mut PairList,
    first: &[Pair],
    second: &[Pair],
) -> Result<(), NoMemory>
    ensures ok { OnOk result (made.new ≡ made.old ++ filter (spec.is_new first.now) second.now) }
{
    for pair in second {
        put_if_new(alloc, made, first, pair)?;
    }
    Ok(())
}

fn put_if_new(
    alloc: Global,
    made: &mut PairList,
    first: &[Pair],
    pair: &Pair,
) -> Result<(), NoMemory>
    ensures ok { OnOk result (made.new ≡ made.old ++ filter (spec.is_new first.now) (pair.now ∷ [])) }
{
    if value_at(first, pair.key.as_str()).is_none() {
        made.push(pair.copy(alloc)?)?;
    }
    Ok(())
}
