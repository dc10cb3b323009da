// Nodes of block style.
ghost use Rattle.std.specs.Prelude.{◌≡◌, ◌<◌, ◌≤◌, ◌+◌, ◌^◌, ◌++◌, [], ◌∷◌, false, length, IfOk, IfErr};
ghost use Rattle.yaml_text.specs.Outcome.{IsRefused, Reads};
ghost use Rattle.yaml_text.specs.Line as lines;
ghost use Rattle.yaml_scalars.specs.Plain as plain;
ghost use Rattle.yaml_nodes.specs.Block as spec;

use crate::flow::{flow_node, new_key};
use crate::pairing::Pairing;
use crate::part::{begins_form, is_on_one_line, is_quote, plain_node, quoted_node, too_deep};
use dvc_base::{Node, Nodes, Text};
use std::alloc::Global;
use yaml_scalars::{begins_plain, block_scalar, is_colon, plain_len, quoted_scalar};
use yaml_text::{
    Halt, behind, byte, is_rest_empty, next_line, past_spaces, past_white, rest_of_line, spaces,
    syntax, text_of,
};

// Behind a node only a comment may follow on its line. What is left begins the next line.
fn line_end(node: Node, rest: &[u8]) -> Result<(Node, &[u8]), Halt>
    ensures exact { Reads (λ r. (r.0, r.1.now)) result (spec.line_end (node, rest.now)) }
    ensures within { IfOk result (λ r. length r.1.now ≤ length rest.now) }
    ensures refused { IfErr result IsRefused }
{
    let below = rest_of_line(false, rest)?;
    Ok((node, next_line(below)?))
}

fn lines_node(alloc: Global, least: usize, text: &[u8]) -> Result<(Node, &[u8]), Halt>
    ensures exact { Reads (λ r. (r.0, r.1.now)) result (spec.lines_node least text.now) }
    ensures within { IfOk result (λ r. length r.1.now ≤ length text.now) }
{
    let (content, rest) = block_scalar(alloc, byte(text, 0) == b'>', least, behind(text, 1))?;
    Ok((Node::Text(content), next_line(rest)?))
}

// A scalar or flow form, whose further lines have at least this indentation.
#[tactic(auto, unfolding(crate::specs::Block::inline))]
fn inline(alloc: Global, depth: usize, least: usize, text: &[u8]) -> Result<(Node, &[u8]), Halt>
    ensures exact { Reads (λ r. (r.0, r.1.now)) result (spec.inline depth least text.now) }
    ensures within { IfOk result (λ r. length r.1.now ≤ length text.now) }
{
    if begins_form(text) {
        let (node, rest) = flow_node(alloc, depth, text)?;
        line_end(node, rest)
    } else if is_quote(text) {
        let (node, rest) = quoted_node(alloc, text, behind(text, 1))?;
        line_end(node, rest)
    } else if byte(text, 0) == b'|' || byte(text, 0) == b'>' {
        lines_node(alloc, least, text)
    } else if begins_plain(false, text) {
        let (node, rest) = plain_node(alloc, false, least, text)?;
        line_end(node, rest)
    } else {
        Err(syntax(text))
    }
}

fn is_gap(text: &[u8]) -> bool
    ensures { result ≡ plain.is_gap text.now }
{
    text.len() == 0 || byte(text, 0) == b' ' || byte(text, 0) == b'\n'
}

// Whether a line begins with a dash and a space, or with a dash at its end.
fn begins_item(text: &[u8]) -> bool
    ensures { result ≡ spec.begins_item text.now }
{
    byte(text, 0) == b'-' && is_gap(behind(text, 1))
}

// The text behind a plain scalar's part on this line.
fn behind_plain(text: &[u8]) -> &[u8]
    ensures value { result.now ≡ spec.behind_plain text.now }
    ensures within { length result.now ≤ length text.now }
{
    past_white(behind(text, plain_len(false, text)))
}

// Whether a line begins with a key.
#[tactic(auto, unfolding(crate::specs::Block::begins_key))]
fn begins_key(alloc: Global, text: &[u8]) -> Result<bool, Halt>
    ensures exact { Reads (λ is_key. is_key) result (spec.begins_key text.now) }
{
    if is_quote(text) {
        let (_, rest) = quoted_scalar(alloc, byte(text, 0), true, behind(text, 1))?;
        Ok(is_colon(false, past_spaces(rest)) && is_on_one_line(text, rest))
    } else {
        Ok(begins_plain(false, text) && is_colon(false, behind_plain(text)))
    }
}

fn behind_key(is_end: bool, key: Text, text: &[u8]) -> Result<(Text, &[u8]), Halt>
    ensures exact { Reads (λ r. (r.0, r.1.now)) result (spec.behind_key is_end key text.now) }
    ensures within { IfOk result (λ r. length r.1.now ≤ length text.now) }
    ensures shorter { IfOk result (λ r. 0 < length text.now → length r.1.now < length text.now) }
    ensures refused { IfErr result IsRefused }
{
    if is_end {
        Ok((key, behind(text, 1)))
    } else {
        Err(syntax(text))
    }
}

// A key on one line, and the text behind its `:`.
#[tactic(auto, unfolding(crate::specs::Block::block_key))]
fn block_key(alloc: Global, text: &[u8]) -> Result<(Text, &[u8]), Halt>
    ensures exact { Reads (λ r. (r.0, r.1.now)) result (spec.block_key text.now) }
    ensures shorter { IfOk result (λ r. length r.1.now < length text.now) }
{
    if is_quote(text) {
        let (key, rest) = quoted_scalar(alloc, byte(text, 0), false, behind(text, 1))?;
        let rest = past_spaces(rest);
        behind_key(is_colon(false, rest), key, rest)
    } else if begins_plain(false, text) {
        let key = text_of(alloc, text.split_at(plain_len(false, text)).0)?;
        let rest = behind_plain(text);
        behind_key(is_colon(false, rest), key, rest)
    } else {
        Err(syntax(text))
    }
}

// Whether nothing but a comment follows on the line.
fn is_below(text: &[u8]) -> bool
    ensures value { result ≡ lines.is_rest_empty text.now }
    ensures some { result ≡ false → 0 < length text.now }
{
    text.len() == 0 || is_rest_empty(text)
}

#[cycle(block)]
fn item_below(
    alloc: Global,
    depth: usize,
    column: usize,
    text: &[u8],
) -> Result<(Node, &[u8]), Halt>
    requires { length text.now < 2 ^ 63 }
    ensures exact { Reads (λ r. (r.0, r.1.now)) result (spec.item_below (spec.block depth) column text.now) }
    ensures within { IfOk result (λ r. length r.1.now ≤ length text.now) }
{
    if column < spaces(text) {
        block(alloc, depth, column + 1, spaces(text), past_spaces(text))
    } else {
        Ok((Node::Null, text))
    }
}

// An item: what follows the dash on its line, or the lines below.
#[cycle(block)]
#[tactic(auto, unfolding(crate::specs::Block::item))]
fn item(alloc: Global, depth: usize, column: usize, text: &[u8]) -> Result<(Node, &[u8]), Halt>
    requires room { 0 < length text.now → column + 1 + length text.now < 2 ^ 63 }
    requires short { length text.now < 2 ^ 63 }
    ensures exact { Reads (λ r. (r.0, r.1.now)) result (spec.item (spec.block depth) column text.now) }
    ensures within { IfOk result (λ r. length r.1.now ≤ length text.now) }
{
    let inner = past_spaces(text);
    if is_below(text) {
        let below = next_line(rest_of_line(false, text)?)?;
        item_below(alloc, depth, column, below)
    } else if byte(inner, 0) == b'\t' {
        Err(syntax(inner))
    } else {
        block(alloc, depth, column + 1, column + 1 + spaces(text), inner)
    }
}

fn next_item(column: usize, text: &[u8]) -> (bool, &[u8])
    ensures value { (result.0, result.1.now) ≡ spec.next_item column text.now }
    ensures within { length result.1.now ≤ length text.now }
    ensures some { result.0 ≡ false → 0 < length result.1.now }
{
    let inner = past_spaces(text);
    if spaces(text) == column && begins_item(inner) {
        (false, inner)
    } else {
        (true, text)
    }
}

// One turn: the item whose dash begins here, and whether another one follows it.
#[cycle(block)]
#[tactic(auto, unfolding(crate::specs::Block::sequence_turn))]
fn sequence_turn<'a>(
    alloc: Global,
    depth: usize,
    column: usize,
    found: &mut Nodes,
    text: &'a [u8],
) -> Result<(bool, &'a [u8]), Halt>
    requires { column + length text.now < 2 ^ 63 }
    ensures exact { Reads (λ r. (r.0, (found.new, r.1.now))) result (spec.sequence_turn (spec.block depth) column found.old text.now) }
    ensures within { IfOk result (λ r. length r.1.now ≤ length text.now) }
    ensures shorter { IfOk result (λ r. r.0 ≡ false → length r.1.now < length text.now) }
{
    let (node, rest) = item(alloc, depth, column, behind(text, 1))?;
    found.push(node)?;
    Ok(next_item(column, rest))
}

#[cycle(block)]
fn sequence(alloc: Global, depth: usize, column: usize, text: &[u8]) -> Result<(Node, &[u8]), Halt>
    requires { column + length text.now < 2 ^ 63 }
    ensures exact { Reads (λ r. (r.0, r.1.now)) result (spec.sequence (spec.block depth) column text.now) }
    ensures within { IfOk result (λ r. length r.1.now ≤ length text.now) }
{
    let mut found = Nodes::new(alloc);
    let mut rest = text;
    'items: loop {
        let (last, left) = sequence_turn(alloc, depth, column, &mut found, rest)?;
        rest = left;
        if last {
            return Ok((Node::Items(found), rest));
        }
    }
}

#[cycle(block)]
fn value_below(
    alloc: Global,
    depth: usize,
    column: usize,
    text: &[u8],
) -> Result<(Node, &[u8]), Halt>
    requires { column + 1 + length text.now < 2 ^ 63 }
    ensures exact { Reads (λ r. (r.0, r.1.now)) result (spec.value_below (spec.block depth) column text.now) }
    ensures within { IfOk result (λ r. length r.1.now ≤ length text.now) }
{
    let inner = past_spaces(text);
    if column < spaces(text) || (spaces(text) == column && begins_item(inner)) {
        block(alloc, depth, column + 1, spaces(text), inner)
    } else {
        Ok((Node::Null, text))
    }
}

// A value, behind the `:`.
#[cycle(block)]
#[tactic(auto, unfolding(crate::specs::Block::value))]
fn value(alloc: Global, depth: usize, column: usize, text: &[u8]) -> Result<(Node, &[u8]), Halt>
    requires { column + 1 + length text.now < 2 ^ 63 }
    ensures exact { Reads (λ r. (r.0, r.1.now)) result (spec.value depth (spec.block depth) column text.now) }
    ensures within { IfOk result (λ r. length r.1.now ≤ length text.now) }
{
    if is_rest_empty(text) {
        let below = next_line(rest_of_line(false, text)?)?;
        value_below(alloc, depth, column, below)
    } else {
        inline(alloc, depth, column + 1, past_white(text))
    }
}

fn next_pair(column: usize, text: &[u8]) -> (bool, &[u8])
    ensures value { (result.0, result.1.now) ≡ spec.next_pair column text.now }
    ensures within { length result.1.now ≤ length text.now }
{
    if text.len() > 0 && spaces(text) == column {
        (false, past_spaces(text))
    } else {
        (true, text)
    }
}

#[cycle(block)]
fn with_value<'a>(
    alloc: Global,
    depth: usize,
    column: usize,
    found: &mut Pairing,
    text: &'a [u8],
    key: Text,
    rest: &'a [u8],
) -> Result<(bool, &'a [u8]), Halt>
    requires { column + 1 + length rest.now < 2 ^ 63 }
    ensures exact { Reads (λ r. (r.0, (found.new, r.1.now))) result (spec.with_value depth (spec.block depth) column found.old text.now (key, rest.now)) }
    ensures within { IfOk result (λ r. length r.1.now ≤ length rest.now) }
{
    let name = new_key(found, text, key)?;
    let (node, below) = value(alloc, depth, column, rest)?;
    found.push(alloc, name, node)?;
    Ok(next_pair(column, below))
}

// One turn: the pair whose key begins here, and whether another one follows it.
#[cycle(block)]
#[tactic(auto, unfolding(crate::specs::Block::mapping_turn))]
fn mapping_turn<'a>(
    alloc: Global,
    depth: usize,
    column: usize,
    found: &mut Pairing,
    text: &'a [u8],
) -> Result<(bool, &'a [u8]), Halt>
    requires { column + length text.now < 2 ^ 63 }
    ensures exact { Reads (λ r. (r.0, (found.new, r.1.now))) result (spec.mapping_turn depth (spec.block depth) column found.old text.now) }
    ensures shorter { IfOk result (λ r. length r.1.now < length text.now) }
{
    let (key, rest) = block_key(alloc, text)?;
    with_value(alloc, depth, column, found, text, key, rest)
}

#[cycle(block)]
fn mapping(alloc: Global, depth: usize, column: usize, text: &[u8]) -> Result<(Node, &[u8]), Halt>
    requires { column + length text.now < 2 ^ 63 }
    ensures exact { Reads (λ r. (r.0, r.1.now)) result (spec.mapping depth (spec.block depth) column text.now) }
    ensures within { IfOk result (λ r. length r.1.now ≤ length text.now) }
{
    let mut found = Pairing::new(alloc);
    let mut rest = text;
    'pairs: loop {
        let (last, left) = mapping_turn(alloc, depth, column, &mut found, rest)?;
        rest = left;
        if last {
            return Ok((Node::Pairs(found.into_pairs()), rest));
        }
    }
}

/// The node that begins here, with at most `depth` collections in one another.
#[cycle(block)]
#[tactic(auto, using(crate::proofs::BlockLemmas::block_none, crate::proofs::BlockLemmas::block_deep))]
pub fn block(
    alloc: Global,
    depth: usize,
    least: usize,
    column: usize,
    text: &[u8],
) -> Result<(Node, &[u8]), Halt>
    requires { column + length text.now < 2 ^ 63 }
    ensures exact { Reads (λ r. (r.0, r.1.now)) result (spec.block depth least column text.now) }
    ensures within { IfOk result (λ r. length r.1.now ≤ length text.now) }
{
    if depth == 0 {
        return block_at_limit(alloc, depth, least, text);
    }
    if begins_item(text) {
        sequence(alloc, depth - 1, column, text)
    } else if begins_key(alloc, text)? {
        mapping(alloc, depth - 1, column, text)
    } else {
        inline(alloc, depth, least, text)
    }
}

// The node that begins here, where no collection may.
fn block_at_limit(
    alloc: Global,
    depth: usize,
    least: usize,
    text: &[u8],
) -> Result<(Node, &[u8]), Halt>
    ensures exact { Reads (λ r. (r.0, r.1.now)) result (spec.block_at_limit depth least text.now) }
    ensures within { IfOk result (λ r. length r.1.now ≤ length text.now) }
{
    if begins_item(text) {
        Err(too_deep(text))
    } else if begins_key(alloc, text)? {
        Err(too_deep(text))
    } else {
        inline(alloc, depth, least, text)
    }
}
