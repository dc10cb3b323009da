// The stages that are made of a written one.
ghost use Rattle.std.specs.Prelude.{◌≡◌, ◌<◌, ◌^◌, length, min, map, codes, option_copied, Some, IfOk};
ghost use Rattle.std.specs.List.{slice_get};
ghost use Rattle.dvc_base.specs.declared.node.Node.{out-Node};
ghost use Rattle.stage_schema.specs.Node.{value_at};
ghost use Rattle.stage_schema.specs.Refusal.{schema_at};
ghost use Rattle.template_vars.specs.Resolve.{key_node};
ghost use Rattle.template_expand.specs.Answer.{told_of};
ghost use Rattle.template_expand.specs.Made as spec;
ghost use Rattle.template_expand.specs.Source.{Tells, made_in};

use crate::matrix::{Axis, axes_of, choice_made, count_choices};
use crate::part::{item_made, pair_made};
use dvc_base::{NoMemory, Node, Pair, Plural, Text};
use params::lookup;
use stage_schema::{ExpandFault, has_key, pairs_at, schema_at, value_at};
use std::alloc::Global;
use template_vars::{Variables, whole_key};

/// One stage that is made of a written one: what stands behind its name, and the variables that hide others.
#[derive(Drop)]
pub struct Made {
    /// Nothing for a stage that stands for itself, and else `@` and a text.
    pub suffix: Text,
    pub hiding: Variables,
}

/// What stages are made of. None is made before it is asked for, since there may be far too many of them.
#[derive(Drop)]
pub(crate) enum Source<'a> {
    /// The stage stands for itself.
    Itself,
    /// One is made of each item.
    Items(&'a [Node]),
    /// One is made of each pair.
    Pairs(&'a [Pair]),
    /// One is made of each choice of a matrix.
    Choices(Plural<Axis<'a>>),
}

impl<'a> Source<'a> {
    /// How many are made, of which no more than this are counted.
    pub(crate) fn count_to(&self, most: u64) -> u64
        ensures exact { result ≡ min most (length (made_in self.now)) }
    {
        match self {
            Source::Itself => most.min(1),
            Source::Items(items) => most.min(items.len() as u64),
            Source::Pairs(pairs) => most.min(pairs.len() as u64),
            Source::Choices(axes) => count_choices(axes.as_slice(), most),
        }
    }

    /// The one at this place.
    pub(crate) fn made_at(&self, alloc: Global, place: u64) -> Result<Made, NoMemory>
        requires within { place < length (made_in self.now) }
        requires small { place < 2 ^ 32 }
        ensures exact { IfOk result (λ made. slice_get (made_in self.now) place ≡ Some made) }
    {
        match self {
            Source::Itself => Ok(itself_made(alloc)),
            Source::Items(items) => made_of_item(alloc, items, place),
            Source::Pairs(pairs) => made_of_pair(alloc, pairs, place),
            Source::Choices(axes) => choice_made(alloc, axes.as_slice(), place),
        }
    }
}

fn made_of_item(alloc: Global, items: &[Node], place: u64) -> Result<Made, NoMemory>
    requires within { place < length (spec.list_made items.now) }
    requires small { place < 2 ^ 32 }
    ensures exact { IfOk result (λ made. slice_get (spec.list_made items.now) place ≡ Some made) }
{
    item_made(alloc, place, &items[place as usize])
}

fn made_of_pair(alloc: Global, pairs: &[Pair], place: u64) -> Result<Made, NoMemory>
    requires within { place < length (map spec.pair_made pairs.now) }
    requires small { place < 2 ^ 32 }
    ensures exact { IfOk result (λ made. slice_get (map spec.pair_made pairs.now) place ≡ Some made) }
{
    pair_made(alloc, &pairs[place as usize])
}

fn itself_made(alloc: Global) -> Made
    ensures exact { result ≡ spec.itself_made }
{
    Made {
        suffix: Text::from_string(String::new(alloc)),
        hiding: Variables::new(alloc),
    }
}

/// What the stages of a written one are made of. `top` are the variables of the file, and `own` those of the stage.
pub(crate) fn sources<'a>(
    alloc: Global,
    name: &str,
    top: &'a Variables,
    own: &'a Variables,
    pairs: &'a [Pair],
) -> Result<Source<'a>, ExpandFault>
    ensures answer { Tells made_in result (spec.mades name.now top.now own.now pairs.now) }
{
    if has_key(pairs, "foreach") {
        each_source(alloc, name, top, pairs)
    } else if has_key(pairs, "matrix") {
        matrix_source(alloc, name, own, pairs_at(pairs, "matrix"))
    } else {
        Ok(Source::Itself)
    }
}

// ---- `foreach`

fn each_source<'a>(
    alloc: Global,
    name: &str,
    top: &'a Variables,
    pairs: &'a [Pair],
) -> Result<Source<'a>, ExpandFault>
    ensures answer { Tells made_in result (spec.each_made name.now top.now (value_at (codes "foreach") pairs.now)) }
{
    match value_at(pairs, "foreach") {
        Some(node) => each_of(alloc, &["stages", name, "foreach"], top, node),
        None => Err(schema_at(alloc, &["stages", name, "foreach"])),
    }
}

// `keys` is where another kind of node is refused.
fn each_of<'a>(
    alloc: Global,
    keys: &[&str],
    top: &'a Variables,
    node: &'a Node,
) -> Result<Source<'a>, ExpandFault>
    ensures answer { let refused = schema_at (map (λ key. key.now) keys.now) in
        Tells made_in result (spec.each_at refused top.now (out-Node node.now)) }
{
    let node = node_of_source(alloc, keys, top, node)?;
    collection_source(alloc, keys, node)
}

fn collection_source<'a>(
    alloc: Global,
    keys: &[&str],
    node: &'a Node,
) -> Result<Source<'a>, ExpandFault>
    ensures answer { let refused = schema_at (map (λ key. key.now) keys.now) in
        Tells made_in result (spec.source_made refused (out-Node node.now)) }
{
    match node {
        Node::Items(items) => Ok(Source::Items(items.as_slice())),
        Node::Pairs(pairs) => Ok(Source::Pairs(pairs.as_slice())),
        _ => Err(schema_at(alloc, keys)),
    }
}

// ---- `matrix`

fn matrix_source<'a>(
    alloc: Global,
    name: &str,
    own: &'a Variables,
    axes: &'a [Pair],
) -> Result<Source<'a>, ExpandFault>
    ensures answer { Tells made_in result (spec.matrix_made name.now own.now axes.now) }
{
    Ok(Source::Choices(axes_of(alloc, name, own, axes)?))
}

// ---- keys that lead to a list or a mapping

/// What a key leads to where the node is a text that is one, and else the node itself. `keys` is where another text is
/// refused.
pub(crate) fn node_of_source<'a>(
    alloc: Global,
    keys: &[&str],
    vars: &'a Variables,
    node: &'a Node,
) -> Result<&'a Node, ExpandFault>
    ensures answer { let refused = schema_at (map (λ key. key.now) keys.now) in
        Tells (λ node. out-Node node.now) result (spec.source refused vars.now (out-Node node.now)) }
{
    match node {
        Node::Text(text) => node_under(alloc, keys, vars, whole_key(text.as_str())),
        _ => Ok(node),
    }
}

fn node_under<'a>(
    alloc: Global,
    keys: &[&str],
    vars: &'a Variables,
    key: Option<&str>,
) -> Result<&'a Node, ExpandFault>
    ensures answer { let refused = schema_at (map (λ key. key.now) keys.now) in
        Tells (λ node. out-Node node.now) result (spec.node_under refused vars.now (option_copied key.entry)) }
{
    match key {
        Some(key) => node_of_key(alloc, vars, key),
        None => Err(schema_at(alloc, keys)),
    }
}

fn node_of_key<'a>(alloc: Global, vars: &'a Variables, key: &str) -> Result<&'a Node, ExpandFault>
    ensures answer { Tells (λ node. out-Node node.now) result (spec.layer_of_key vars.now key.now) }
{
    match lookup(vars.node(), key) {
        Some(node) => Ok(node),
        None => Err(ExpandFault::NoVariable {
            key: Text::of(alloc, key)?,
        }),
    }
}
