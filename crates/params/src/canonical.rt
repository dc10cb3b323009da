// Canonical nodes.
ghost use Rattle.std.specs.Prelude.{◌≡◌, ◌++◌, ℕ, map, string_bytes, IfOk, OnOk};
ghost use Rattle.std.specs.Fmt.{decimal};
ghost use Rattle.dvc_base.specs.declared.node.Node.TheVariants as nd;
ghost use Rattle.yaml_nodes.specs.Part.{key_of};
ghost use Rattle.yaml_print.specs.Print.{value_of};
ghost use Rattle.yaml_print.specs.Sound.{Each, IsSound};
ghost use Rattle.lock_files.specs.Order.{in_order};
ghost use Rattle.params.specs.Canonical as spec;
ghost use Rattle.params.specs.Number as numbers;

use crate::number::{Number, decimal_number, whole_number};
use dvc_base::{NoMemory, Node, Nodes, Pair, PairList, Plain, Text};
use itoa::Buffer;
use std::alloc::Global;

/// The canonical node of a node: each number in canonical form, and the pairs of each mapping in the order of their
/// keys.
#[cycle(canon)]
pub fn canon(alloc: Global, node: &Node) -> Result<Node, NoMemory>
    ensures exact { (d : ℕ) → IsSound d node.now → IfOk result (λ made. made ≡ spec.canonical d node.now) }
{
    match node {
        Node::Null => Ok(Node::Null),
        Node::Bool(bit) => Ok(Node::Bool(*bit)),
        Node::Whole { value, .. } => number_node(alloc, whole_number(*value)),
        Node::Decimal { text } => number_node(alloc, decimal_number(text.as_str().as_bytes())),
        Node::Text(text) => Ok(Node::Text(text.copy(alloc)?)),
        Node::Items(items) => Ok(Node::Items(canon_items(alloc, items.as_slice())?)),
        Node::Pairs(pairs) => pairs_node(alloc, canon_pairs(alloc, pairs.as_slice())?),
    }
}

#[cycle(canon)]
fn canon_items(alloc: Global, items: &[Node]) -> Result<Nodes, NoMemory>
    ensures exact { (d : ℕ) → Each (IsSound d) items.now
        → IfOk result (λ made. made ≡ map (spec.canonical d) items.now) }
{
    let mut made = Nodes::new(alloc);
    for item in items {
        made.push(canon(alloc, item)?)?;
    }
    Ok(made)
}

// The pairs with canonical values, in their order.
#[cycle(canon)]
fn canon_pairs(alloc: Global, pairs: &[Pair]) -> Result<Vec<Pair>, NoMemory>
    ensures exact { (d : ℕ) → Each (λ p. IsSound d (value_of p)) pairs.now
        → IfOk result (λ made. made.items ≡ map (spec.with_value (spec.canonical d)) pairs.now) }
{
    let mut made = Vec::new(alloc);
    for pair in pairs {
        made.push(canon_pair(alloc, pair)?)?;
    }
    Ok(made)
}

#[cycle(canon)]
fn canon_pair(alloc: Global, pair: &Pair) -> Result<Pair, NoMemory>
    ensures exact { (d : ℕ) → IsSound d (value_of pair.now)
        → IfOk result (λ made. made ≡ spec.with_value (spec.canonical d) pair.now) }
{
    Ok(Pair {
        key: pair.key.copy(alloc)?,
        value: canon(alloc, &pair.value)?,
    })
}

// A mapping of these pairs, in the order of their keys.
fn pairs_node(alloc: Global, pairs: Vec<Pair>) -> Result<Node, NoMemory>
    ensures exact { IfOk result (λ node. node ≡ nd.Pairs (in_order key_of pairs.items)) }
{
    let sorted = by_key(pairs)?;
    Ok(Node::Pairs(list_of(alloc, sorted)?))
}

fn by_key(pairs: Vec<Pair>) -> Result<Vec<Pair>, NoMemory>
    ensures exact { IfOk result (λ sorted. sorted.items ≡ in_order key_of pairs.items) }
{
    let mut sorted = pairs;
    sorted.sort_by(|a, b| a.key.as_str().cmp(b.key.as_str()))?;
    Ok(sorted)
}

fn list_of(alloc: Global, pairs: Vec<Pair>) -> Result<PairList, NoMemory>
    ensures exact { IfOk result (λ list. list ≡ pairs.items) }
{
    let mut list = PairList::new(alloc);
    for pair in pairs {
        list.push(pair)?;
    }
    Ok(list)
}

fn number_node(alloc: Global, number: Number) -> Result<Node, NoMemory>
    ensures exact { IfOk result (λ node. node ≡ numbers.number_node number) }
{
    if number.digits == 0 {
        return Ok(Node::Whole {
            value: 0,
            text: Text::of(alloc, "0")?,
        });
    }
    Ok(Node::Decimal {
        text: number_text(alloc, number)?,
    })
}

// The canonical form of a number that isn't zero.
fn number_text(alloc: Global, number: Number) -> Result<Text, NoMemory>
    ensures exact { IfOk result (λ text. text ≡ numbers.number_text number) }
{
    let mut text = String::new(alloc);
    push_signed(&mut text, number.below, number.digits)?;
    text.push('e')?;
    push_signed(&mut text, number.down, number.exponent)?;
    Ok(Text::from_string(text))
}

fn push_signed(text: &mut String, below: bool, size: u128) -> Result<(), NoMemory>
    ensures ok { OnOk result (string_bytes text.new ≡ string_bytes text.old ++ numbers.signed_text below (decimal size)) }
{
    push_sign(text, below)?;
    let mut buffer = Buffer::new();
    text.push_str(buffer.format(size))?;
    Ok(())
}

fn push_sign(text: &mut String, below: bool) -> Result<(), NoMemory>
    ensures ok { OnOk result (string_bytes text.new ≡ string_bytes text.old ++ numbers.sign below) }
{
    if !below {
        return Ok(());
    }
    text.push('-')?;
    Ok(())
}
