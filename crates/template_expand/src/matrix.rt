// Choices of a matrix, each made when it is asked for.
ghost use Rattle.std.specs.Prelude.{◌≡◌, ◌<◌, ◌^◌, ◌/◌, ◌%◌, ◌∷◌, [], ◌++◌, length, min, map, string_bytes, Some, IfOk, OnOk};
ghost use Rattle.std.specs.List.{slice_get, flat_map};
ghost use Rattle.template_expand.specs.Answer.{all_by};
ghost use Rattle.template_expand.specs.Made as spec;
ghost use Rattle.template_expand.specs.Source.{Tells, picks_of, choices_of, pick_of, choice_of};

use crate::made::{Made, node_of_source};
use crate::part::{marked, push, push_copy, push_text, put_part};
use dvc_base::{NoMemory, Node, Pair, PairList, Plural, Text};
use stage_schema::{ExpandFault, schema_at};
use std::alloc::Global;
use template_vars::Variables;

/// A name of a matrix, and the items of which one is chosen.
#[derive(Drop)]
pub(crate) struct Axis<'a> {
    name: &'a Text,
    items: &'a [Node],
}

// An item that is chosen: the name of its axis, and its place there.
#[derive(Drop)]
struct Picked<'a> {
    name: &'a Text,
    place: u64,
    value: &'a Node,
}

// ---- axes

/// The axes of a matrix in written order.
pub(crate) fn axes_of<'a>(
    alloc: Global,
    name: &str,
    own: &'a Variables,
    pairs: &'a [Pair],
) -> Result<Plural<Axis<'a>>, ExpandFault>
    ensures answer { Tells (map picks_of) result (all_by (spec.axis name.now own.now) pairs.now) }
{
    let mut axes = Plural::new(alloc);
    for pair in pairs {
        axes.push(axis_of(alloc, name, own, pair)?)?;
    }
    Ok(axes)
}

fn axis_of<'a>(
    alloc: Global,
    name: &str,
    own: &'a Variables,
    pair: &'a Pair,
) -> Result<Axis<'a>, ExpandFault>
    ensures answer { Tells picks_of result (spec.axis name.now own.now pair.now) }
{
    let keys = ["stages", name, "matrix", pair.key.as_str()];
    match node_of_source(alloc, &keys, own, &pair.value)? {
        Node::Items(items) => Ok(Axis {
            name: &pair.key,
            items: items.as_slice(),
        }),
        _ => Err(schema_at(alloc, &keys)),
    }
}

// ---- choices

/// How many choices there are, of which no more than this are counted.
pub(crate) fn count_choices(axes: &[Axis<'_>], most: u64) -> u64
    ensures exact { result ≡ min most (length (choices_of axes.now)) }
{
    let mut count = 1;
    for axis in axes {
        count = most.min(axis_len(axis).saturating_mul(count));
    }
    most.min(count)
}

fn axis_len(axis: &Axis<'_>) -> u64
    ensures exact { result ≡ length (picks_of axis.now) }
{
    axis.items.len() as u64
}

/// The stage of the choice at this place.
pub(crate) fn choice_made(alloc: Global, axes: &[Axis<'_>], place: u64) -> Result<Made, NoMemory>
    requires within { place < length (choices_of axes.now) }
    requires small { place < 2 ^ 32 }
    ensures exact { IfOk result (λ made. slice_get (map spec.choice_made (choices_of axes.now)) place ≡ Some made) }
{
    let choice = choice_at(alloc, axes, place)?;
    made_of(alloc, choice.as_slice())
}

// The first axis is the outermost: each of its items comes with all choices of the others.
fn choice_at<'a>(
    alloc: Global,
    axes: &[Axis<'a>],
    place: u64,
) -> Result<Plural<Picked<'a>>, NoMemory>
    requires within { place < length (choices_of axes.now) }
    requires small { place < 2 ^ 32 }
    ensures exact { IfOk result (λ choice. slice_get (choices_of axes.now) place ≡ Some (choice_of choice)) }
{
    let mut choice = Plural::new(alloc);
    let mut left = place;
    for i in 0..axes.len() {
        let axis = &axes[i];
        let (first, behind) = cut_place(&axes[i + 1..], left);
        choice.push(picked_at(axis, first))?;
        left = behind;
    }
    Ok(choice)
}

// The place of the first axis's item, and that among the choices of the other axes.
fn cut_place(others: &[Axis<'_>], place: u64) -> (u64, u64)
    requires some { 0 < length (choices_of others.now) }
    requires small { place < 2 ^ 32 }
    ensures first { result.0 ≡ place / length (choices_of others.now) }
    ensures behind { result.1 ≡ place % length (choices_of others.now) }
{
    let count = count_choices(others, u64::MAX);
    (place / count, place % count)
}

fn picked_at<'a>(axis: &Axis<'a>, place: u64) -> Picked<'a>
    requires within { place < length axis.now.items.now }
    ensures exact { slice_get (picks_of axis.now) place ≡ Some (pick_of result) }
{
    Picked {
        name: axis.name,
        place,
        value: &axis.items[place as usize],
    }
}

// ---- what is made of a choice

fn made_of(alloc: Global, choice: &[Picked<'_>]) -> Result<Made, NoMemory>
    ensures exact { IfOk result (λ made. made ≡ spec.choice_made (choice_of choice.now)) }
{
    let text = choice_text(alloc, choice)?;
    made_with(alloc, choice, text.as_str())
}

fn made_with(alloc: Global, choice: &[Picked<'_>], text: &str) -> Result<Made, NoMemory>
    requires text { text.now ≡ spec.choice_text (choice_of choice.now) }
    ensures exact { IfOk result (λ made. made ≡ spec.choice_made (choice_of choice.now)) }
{
    let suffix = marked(alloc, text)?;
    let hiding = choice_vars(alloc, choice, text)?;
    Ok(Made { suffix, hiding })
}

fn choice_vars(alloc: Global, choice: &[Picked<'_>], text: &str) -> Result<Variables, NoMemory>
    ensures exact { IfOk result (λ vars. vars
        ≡ spec.item_pair (spec.choice_node (choice_of choice.now)) ∷ spec.key_pair text.now ∷ []) }
{
    let mut vars = PairList::new(alloc);
    push(alloc, &mut vars, "item", choice_node(alloc, choice)?)?;
    push_text(alloc, &mut vars, "key", text)?;
    Ok(Variables::of_pairs(vars))
}

// The mapping of the items that are chosen.
fn choice_node(alloc: Global, choice: &[Picked<'_>]) -> Result<Node, NoMemory>
    ensures exact { IfOk result (λ node. node ≡ spec.choice_node (choice_of choice.now)) }
{
    let mut pairs = PairList::new(alloc);
    for picked in choice {
        push_copy(alloc, &mut pairs, picked.name.as_str(), picked.value)?;
    }
    Ok(Node::Pairs(pairs))
}

// The parts of the items, with `-` between them.
fn choice_text(alloc: Global, choice: &[Picked<'_>]) -> Result<Text, NoMemory>
    ensures exact { IfOk result (λ text. text ≡ spec.choice_text (choice_of choice.now)) }
{
    let mut text = String::new(alloc);
    if let [first, others @ ..] = choice {
        put_parts(&mut text, first, others)?;
    }
    Ok(Text::from_string(text))
}

fn put_parts(text: &mut String, first: &Picked<'_>, others: &[Picked<'_>]) -> Result<(), NoMemory>
    ensures ok { OnOk result (string_bytes text.new
        ≡ string_bytes text.old ++ spec.choice_text (pick_of first.now ∷ choice_of others.now)) }
{
    put_pick(text, first)?;
    for picked in others {
        text.push('-')?;
        put_pick(text, picked)?;
    }
    Ok(())
}

fn put_pick(text: &mut String, picked: &Picked<'_>) -> Result<(), NoMemory>
    ensures ok { OnOk result (string_bytes text.new ≡ string_bytes text.old ++ (pick_of picked.now).part) }
{
    put_part(text, picked.name.as_str(), picked.place, picked.value)
}
