// Flow forms.
ghost use Rattle.std.specs.Prelude.{◌≡◌, ◌<◌, ◌≤◌, ◌++◌, [], ◌∷◌, false, length, IfOk, IfErr};
ghost use Rattle.yaml_text.specs.Outcome.{IsRefused, Reads};
ghost use Rattle.yaml_nodes.specs.Flow as spec;
ghost use Rattle.yaml_nodes.specs.Part as parts;

use crate::pairing::Pairing;
use crate::part::{begins_form, is_on_one_line, is_quote, plain_node, quoted_node, too_deep};
use dvc_base::{Node, Nodes, Text};
use std::alloc::Global;
use yaml_scalars::{begins_plain, is_colon, plain_len, quoted_scalar};
use yaml_text::{
    Halt, Refusal, behind, byte, is_bad, is_marker, is_white, past_white, syntax, text_of,
};

// The text from the next part on: white space, line breaks and comments may stand before it.
#[tactic(auto, unfolding(crate::specs::Flow::between_parts))]
fn between_parts(mut text: &[u8]) -> Result<&[u8], Halt>
    ensures exact { Reads (λ rest. rest.now) result (spec.between_parts text.entry.now) }
    ensures within { IfOk result (λ rest. length rest.now ≤ length text.entry.now) }
    ensures refused { IfErr result IsRefused }
{
    let mut may = false;
    let mut inside = false;
    while let [first, rest @ ..] = text {
        if *first == b'\n' {
            if is_marker(rest) {
                return Err(syntax(rest));
            }
            inside = false;
        } else if inside {
            if is_bad(*first) {
                return Err(syntax(text));
            }
        } else if may && *first == b'#' {
            inside = true;
        } else if !is_white(*first) {
            return Ok(text);
        }
        may = true;
        text = rest;
    }
    Ok(text)
}

#[tactic(auto, unfolding(crate::specs::Flow::flow_scalar))]
fn flow_scalar(alloc: Global, text: &[u8]) -> Result<(Node, &[u8]), Halt>
    ensures exact { Reads (λ r. (r.0, r.1.now)) result (spec.flow_scalar text.now) }
    ensures within { IfOk result (λ r. length r.1.now ≤ length text.now) }
{
    if is_quote(text) {
        quoted_node(alloc, text, behind(text, 1))
    } else if begins_plain(true, text) {
        plain_node(alloc, true, 0, text)
    } else {
        Err(syntax(text))
    }
}

// Whether the item, behind which `rest` is left, is the key of a pair.
#[tactic(auto, unfolding(crate::specs::Flow::is_pair))]
fn is_pair(text: &[u8], rest: &[u8], next: &[u8]) -> bool
    ensures { result ≡ spec.is_pair text.now rest.now next.now }
{
    if is_quote(text) {
        byte(next, 0) == b':'
    } else if begins_form(text) {
        false
    } else {
        is_colon(true, next) && is_on_one_line(text, rest)
    }
}

fn behind_item<'a>(
    found: &mut Nodes,
    node: Node,
    text: &[u8],
    rest: &[u8],
    next: &'a [u8],
) -> Result<(bool, &'a [u8]), Halt>
    ensures exact { Reads (λ r. (r.0, (found.new, r.1.now))) result (spec.behind_item (found.old ++ node ∷ []) text.now rest.now next.now) }
    ensures within { IfOk result (λ r. length r.1.now ≤ length next.now) }
    ensures shorter { IfOk result (λ r. length r.1.now < length next.now) }
{
    found.push(node)?;
    if byte(next, 0) == b',' {
        Ok((false, behind(next, 1)))
    } else if byte(next, 0) == b']' {
        Ok((true, behind(next, 1)))
    } else if is_pair(text, rest, next) {
        Err(syntax(text))
    } else {
        Err(syntax(next))
    }
}

// The item that begins here, and what stands behind it.
#[cycle(flow)]
fn item_at<'a>(
    alloc: Global,
    depth: usize,
    found: &mut Nodes,
    text: &'a [u8],
) -> Result<(bool, &'a [u8]), Halt>
    ensures exact { Reads (λ r. (r.0, (found.new, r.1.now))) result (spec.item_at (spec.flow_node depth) found.old text.now) }
    ensures shorter { IfOk result (λ r. length r.1.now < length text.now) }
{
    if byte(text, 0) == b']' {
        return Ok((true, behind(text, 1)));
    }
    let (node, rest) = flow_node(alloc, depth, text)?;
    let next = between_parts(rest)?;
    behind_item(found, node, text, rest, next)
}

#[cycle(flow)]
#[tactic(auto, unfolding(crate::specs::Flow::item_turn))]
fn item_turn<'a>(
    alloc: Global,
    depth: usize,
    found: &mut Nodes,
    text: &'a [u8],
) -> Result<(bool, &'a [u8]), Halt>
    ensures exact { Reads (λ r. (r.0, (found.new, r.1.now))) result (spec.item_turn (spec.flow_node depth) found.old text.now) }
    ensures shorter { IfOk result (λ r. length r.1.now < length text.now) }
{
    let text = between_parts(text)?;
    item_at(alloc, depth, found, text)
}

// The items behind a `[`.
#[cycle(flow)]
fn items(alloc: Global, depth: usize, text: &[u8]) -> Result<(Node, &[u8]), Halt>
    ensures exact { Reads (λ r. (r.0, r.1.now)) result (spec.items (spec.flow_node depth) text.now) }
    ensures within { IfOk result (λ r. length r.1.now ≤ length text.now) }
{
    let mut found = Nodes::new(alloc);
    let mut rest = text;
    'items: loop {
        let (last, left) = item_turn(alloc, depth, &mut found, rest)?;
        rest = left;
        if last {
            return Ok((Node::Items(found), rest));
        }
    }
}

#[tactic(auto, unfolding(crate::specs::Flow::flow_key))]
fn flow_key(alloc: Global, text: &[u8]) -> Result<(Text, &[u8]), Halt>
    ensures exact { Reads (λ r. (r.0, r.1.now)) result (spec.flow_key text.now) }
    ensures within { IfOk result (λ r. length r.1.now ≤ length text.now) }
{
    if is_quote(text) {
        quoted_scalar(alloc, byte(text, 0), true, behind(text, 1))
    } else if begins_plain(true, text) {
        plain_key(alloc, text)
    } else {
        Err(syntax(text))
    }
}

// The plain key that begins here, which ends at no bad character.
fn plain_key(alloc: Global, text: &[u8]) -> Result<(Text, &[u8]), Halt>
    ensures exact { Reads (λ r. (r.0, r.1.now)) result (spec.plain_key text.now) }
    ensures within { IfOk result (λ r. length r.1.now ≤ length text.now) }
{
    let (key, rest) = text.split_at(plain_len(true, text));
    let next = past_white(rest);
    if begins_bad(next) {
        return Err(syntax(next));
    }
    Ok((text_of(alloc, key)?, rest))
}

fn begins_bad(text: &[u8]) -> bool
    ensures { result ≡ spec.begins_bad text.now }
{
    match text {
        [] => false,
        [first, ..] => is_bad(*first),
    }
}

fn is_merge(text: &[u8], key: &Text) -> bool
    ensures { result ≡ spec.is_merge text.now key.now }
{
    !is_quote(text) && key.as_str().as_bytes() == b"<<".as_slice()
}

/// The key, where it may stand behind the keys of these pairs.
#[tactic(auto, unfolding(crate::specs::Flow::new_key))]
pub fn new_key(found: &Pairing, text: &[u8], key: Text) -> Result<Text, Halt>
    ensures exact { Reads (λ key. key) result (spec.new_key found.now text.now key) }
    ensures refused { IfErr result IsRefused }
{
    if is_merge(text, &key) {
        Err(syntax(text))
    } else if found.has(&key) {
        Err(Halt::Refused(Refusal::Duplicate(text.len())))
    } else {
        Ok(key)
    }
}

fn is_key_colon(text: &[u8], next: &[u8]) -> bool
    ensures { result ≡ spec.is_key_colon text.now next.now }
{
    if is_quote(text) {
        byte(next, 0) == b':'
    } else {
        is_colon(true, next)
    }
}

#[cycle(flow)]
fn value_at(alloc: Global, depth: usize, text: &[u8]) -> Result<(Node, &[u8]), Halt>
    ensures exact { Reads (λ r. (r.0, r.1.now)) result (spec.value_at (spec.flow_node depth) text.now) }
    ensures within { IfOk result (λ r. length r.1.now ≤ length text.now) }
{
    if byte(text, 0) == b',' || byte(text, 0) == b'}' {
        Ok((Node::Null, text))
    } else {
        flow_node(alloc, depth, text)
    }
}

// Behind a key: its value, and what is left from the next part on.
#[cycle(flow)]
#[tactic(auto, unfolding(crate::specs::Flow::flow_value))]
fn flow_value<'a>(
    alloc: Global,
    depth: usize,
    text: &[u8],
    next: &'a [u8],
) -> Result<(Node, &'a [u8]), Halt>
    ensures exact { Reads (λ r. (r.0, r.1.now)) result (spec.flow_value (spec.flow_node depth) text.now next.now) }
    ensures within { IfOk result (λ r. length r.1.now ≤ length next.now) }
{
    if !is_key_colon(text, next) {
        return Ok((Node::Null, next));
    }
    let value = between_parts(behind(next, 1))?;
    let (node, rest) = value_at(alloc, depth, value)?;
    Ok((node, between_parts(rest)?))
}

fn behind_pair<'a>(
    alloc: Global,
    found: &mut Pairing,
    key: Text,
    value: Node,
    next: &'a [u8],
) -> Result<(bool, &'a [u8]), Halt>
    ensures exact { Reads (λ r. (r.0, (found.new, r.1.now))) result (spec.behind_pair (parts.with_pair found.old key value) next.now) }
    ensures shorter { IfOk result (λ r. length r.1.now < length next.now) }
{
    found.push(alloc, key, value)?;
    if byte(next, 0) == b',' {
        Ok((false, behind(next, 1)))
    } else if byte(next, 0) == b'}' {
        Ok((true, behind(next, 1)))
    } else {
        Err(syntax(next))
    }
}

#[cycle(flow)]
fn with_key<'a>(
    alloc: Global,
    depth: usize,
    found: &mut Pairing,
    text: &'a [u8],
    key: Text,
    rest: &'a [u8],
) -> Result<(bool, &'a [u8]), Halt>
    ensures exact { Reads (λ r. (r.0, (found.new, r.1.now))) result (spec.with_key (spec.flow_node depth) found.old text.now (key, rest.now)) }
    ensures shorter { IfOk result (λ r. length r.1.now < length rest.now) }
{
    let name = new_key(found, text, key)?;
    let next = between_parts(rest)?;
    let (value, after) = flow_value(alloc, depth, text, next)?;
    behind_pair(alloc, found, name, value, after)
}

// The pair that begins here, and what stands behind it.
#[cycle(flow)]
fn pair_at<'a>(
    alloc: Global,
    depth: usize,
    found: &mut Pairing,
    text: &'a [u8],
) -> Result<(bool, &'a [u8]), Halt>
    ensures exact { Reads (λ r. (r.0, (found.new, r.1.now))) result (spec.pair_at (spec.flow_node depth) found.old text.now) }
    ensures shorter { IfOk result (λ r. length r.1.now < length text.now) }
{
    if byte(text, 0) == b'}' {
        return Ok((true, behind(text, 1)));
    }
    let (key, rest) = flow_key(alloc, text)?;
    with_key(alloc, depth, found, text, key, rest)
}

#[cycle(flow)]
#[tactic(auto, unfolding(crate::specs::Flow::pair_turn))]
fn pair_turn<'a>(
    alloc: Global,
    depth: usize,
    found: &mut Pairing,
    text: &'a [u8],
) -> Result<(bool, &'a [u8]), Halt>
    ensures exact { Reads (λ r. (r.0, (found.new, r.1.now))) result (spec.pair_turn (spec.flow_node depth) found.old text.now) }
    ensures shorter { IfOk result (λ r. length r.1.now < length text.now) }
{
    let text = between_parts(text)?;
    pair_at(alloc, depth, found, text)
}

// The pairs behind a `{`.
#[cycle(flow)]
fn pairs(alloc: Global, depth: usize, text: &[u8]) -> Result<(Node, &[u8]), Halt>
    ensures exact { Reads (λ r. (r.0, r.1.now)) result (spec.pairs (spec.flow_node depth) text.now) }
    ensures within { IfOk result (λ r. length r.1.now ≤ length text.now) }
{
    let mut found = Pairing::new(alloc);
    let mut rest = text;
    'pairs: loop {
        let (last, left) = pair_turn(alloc, depth, &mut found, rest)?;
        rest = left;
        if last {
            return Ok((Node::Pairs(found.into_pairs()), rest));
        }
    }
}

#[cycle(flow)]
#[tactic(auto, unfolding(crate::specs::Flow::flow_form))]
fn flow_form(alloc: Global, depth: usize, text: &[u8]) -> Result<(Node, &[u8]), Halt>
    ensures exact { Reads (λ r. (r.0, r.1.now)) result (spec.flow_form (spec.flow_node depth) text.now) }
    ensures within { IfOk result (λ r. length r.1.now ≤ length text.now) }
{
    if byte(text, 0) == b'[' {
        items(alloc, depth, behind(text, 1))
    } else {
        pairs(alloc, depth, behind(text, 1))
    }
}

/// The flow form or scalar that begins here, with at most `depth` collections in one another.
#[cycle(flow)]
#[tactic(auto, using(crate::proofs::FlowLemmas::flow_shallow, crate::proofs::FlowLemmas::flow_none, crate::proofs::FlowLemmas::flow_deep))]
pub fn flow_node(alloc: Global, depth: usize, text: &[u8]) -> Result<(Node, &[u8]), Halt>
    ensures exact { Reads (λ r. (r.0, r.1.now)) result (spec.flow_node depth text.now) }
    ensures within { IfOk result (λ r. length r.1.now ≤ length text.now) }
{
    if !begins_form(text) {
        return flow_scalar(alloc, text);
    }
    if depth == 0 {
        return Err(too_deep(text));
    }
    flow_form(alloc, depth - 1, text)
}
