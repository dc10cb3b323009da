// What stands behind the name of a stage that is made, and the variables that it hides.
ghost use Rattle.std.specs.Prelude.{◌≡◌, ◌∷◌, [], ◌++◌, string_bytes, IfOk, OnOk};
ghost use Rattle.std.specs.Fmt.{decimal};
ghost use Rattle.dvc_base.specs.declared.node.Node.TheVariants as nd;
ghost use Rattle.lock_files.specs.Nodes.{pair};
ghost use Rattle.template_expand.specs.Made as spec;

use crate::made::Made;
use dvc_base::{NoMemory, Node, Pair, PairList, Plain, Text};
use itoa::Buffer;
use std::alloc::Global;
use template_vars::{Variables, scalar_text};

// ---- items of `foreach`

/// The stage of the item at this place of a list.
pub(crate) fn item_made(alloc: Global, place: u64, item: &Node) -> Result<Made, NoMemory>
    ensures exact { IfOk result (λ made. made ≡ spec.item_made place item.now) }
{
    let suffix = item_suffix(alloc, place, item)?;
    let hiding = item_vars(alloc, item)?;
    Ok(Made { suffix, hiding })
}

fn item_suffix(alloc: Global, place: u64, item: &Node) -> Result<Text, NoMemory>
    ensures exact { IfOk result (λ text. text ≡ spec.marked (spec.part_of [] place item.now)) }
{
    let mut text = String::new(alloc);
    text.push('@')?;
    put_part(&mut text, "", place, item)?;
    Ok(Text::from_string(text))
}

fn item_vars(alloc: Global, item: &Node) -> Result<Variables, NoMemory>
    ensures exact { IfOk result (λ vars. vars ≡ spec.item_pair item.now ∷ []) }
{
    let mut vars = PairList::new(alloc);
    push_copy(alloc, &mut vars, "item", item)?;
    Ok(Variables::of_pairs(vars))
}

/// The stage of a pair of a mapping.
pub(crate) fn pair_made(alloc: Global, pair: &Pair) -> Result<Made, NoMemory>
    ensures exact { IfOk result (λ made. made ≡ spec.pair_made pair.now) }
{
    let suffix = marked(alloc, pair.key.as_str())?;
    let hiding = pair_vars(alloc, pair)?;
    Ok(Made { suffix, hiding })
}

fn pair_vars(alloc: Global, pair: &Pair) -> Result<Variables, NoMemory>
    ensures exact { IfOk result (λ vars. vars ≡ (spec.pair_made pair.now).hiding) }
{
    let mut vars = PairList::new(alloc);
    push_copy(alloc, &mut vars, "item", &pair.value)?;
    push_text(alloc, &mut vars, "key", pair.key.as_str())?;
    Ok(Variables::of_pairs(vars))
}

// ---- texts

/// `@` before the text.
pub(crate) fn marked(alloc: Global, text: &str) -> Result<Text, NoMemory>
    ensures exact { IfOk result (λ made. made ≡ spec.marked text.now) }
{
    let mut made = String::new(alloc);
    made.push('@')?;
    made.push_str(text)?;
    Ok(Text::from_string(made))
}

/// Puts the text of a scalar. Of a list or a mapping it puts its place, behind a name.
pub(crate) fn put_part(
    text: &mut String,
    name: &str,
    place: u64,
    item: &Node,
) -> Result<(), NoMemory>
    ensures ok { OnOk result (string_bytes text.new ≡ string_bytes text.old ++ spec.part_of name.now place item.now) }
{
    match scalar_text(item) {
        Some(part) => put(text, part),
        None => put_place(text, name, place),
    }
}

fn put(text: &mut String, part: &str) -> Result<(), NoMemory>
    ensures ok { OnOk result (string_bytes text.new ≡ string_bytes text.old ++ part.now) }
{
    text.push_str(part)?;
    Ok(())
}

fn put_place(text: &mut String, name: &str, place: u64) -> Result<(), NoMemory>
    ensures ok { OnOk result (string_bytes text.new ≡ string_bytes text.old ++ (name.now ++ decimal place)) }
{
    text.push_str(name)?;
    let mut buffer = Buffer::new();
    text.push_str(buffer.format(place))?;
    Ok(())
}

// ---- pairs

/// Puts a pair with a copy of the value.
pub(crate) fn push_copy(
    alloc: Global,
    pairs: &mut PairList,
    key: &str,
    value: &Node,
) -> Result<(), NoMemory>
    ensures ok { OnOk result (pairs.new ≡ pairs.old ++ pair key.now value.now ∷ []) }
{
    push(alloc, pairs, key, value.copy(alloc)?)
}

/// Puts a pair with a text.
pub(crate) fn push_text(
    alloc: Global,
    pairs: &mut PairList,
    key: &str,
    text: &str,
) -> Result<(), NoMemory>
    ensures ok { OnOk result (pairs.new ≡ pairs.old ++ pair key.now (nd.Text text.now) ∷ []) }
{
    push(alloc, pairs, key, Node::Text(Text::of(alloc, text)?))
}

/// Puts a pair.
pub(crate) fn push(
    alloc: Global,
    pairs: &mut PairList,
    key: &str,
    value: Node,
) -> Result<(), NoMemory>
    ensures ok { OnOk result (pairs.new ≡ pairs.old ++ pair key.now value ∷ []) }
{
    let key = Text::of(alloc, key)?;
    pairs.push(Pair { key, value })?;
    Ok(())
}
