// The document, and the whole text.
ghost use Rattle.std.specs.Prelude.{◌≡◌, ◌<◌, ◌≤◌, ◌+◌, ◌^◌, ◌==◌, Ok, Err, length, count_by, IfOk, IfErr};
ghost use Rattle.yaml_text.specs.Characters.{line_feed};
ghost use Rattle.yaml_text.specs.Outcome.{IsRefused, Reads};
ghost use Rattle.yaml_nodes.specs.Document as spec;
ghost use Rattle.yaml_nodes.specs.DocumentGrammar.{IsParsed};

use crate::block::block;
use dvc_base::{Node, YamlFault};
use std::alloc::Global;
use yaml_text::{
    Halt, Refusal, behind, body_len, first_line, is_marker, line_of, next_line, past_spaces,
    rest_of_line, source, spaces, syntax,
};

// How many collections may stand in one another.
const MAX_DEPTH: usize = 64;

fn root(alloc: Global, text: &[u8]) -> Result<Node, Halt>
    requires { length text.now < 2 ^ 63 }
    ensures exact { Reads (λ node. node) result (spec.root text.now) }
{
    if text.len() == 0 {
        return Ok(Node::Null);
    }
    let (node, rest) = block(alloc, MAX_DEPTH, 0, spaces(text), past_spaces(text))?;
    if rest.len() == 0 {
        Ok(node)
    } else {
        Err(syntax(rest))
    }
}

fn past_marker(text: &[u8]) -> Result<&[u8], Halt>
    ensures exact { Reads (λ rest. rest.now) result (spec.past_marker text.now) }
    ensures within { IfOk result (λ rest. length rest.now ≤ length text.now) }
    ensures refused { IfErr result IsRefused }
{
    if is_marker(text) {
        let below = rest_of_line(false, behind(text, 3))?;
        next_line(below)
    } else {
        next_line(text)
    }
}

// The one node of a text, without its last `...`.
#[tactic(auto, unfolding(crate::specs::Document::document))]
fn document(alloc: Global, text: &[u8]) -> Result<Node, Halt>
    requires { length text.now < 2 ^ 63 }
    ensures exact { Reads (λ node. node) result (spec.document text.now) }
{
    let start = first_line(text)?;
    let start = past_marker(start)?;
    root(alloc, start)
}

// The line `...` with its comment, and the comments behind it.
#[tactic(auto, unfolding(crate::specs::Document::tail))]
fn tail(text: &[u8]) -> Result<&[u8], Halt>
    ensures exact { Reads (λ rest. rest.now) result (spec.tail text.now) }
    ensures refused { IfErr result IsRefused }
{
    if text.len() == 0 {
        return Ok(text);
    }
    let below = rest_of_line(false, behind(text, 3))?;
    first_line(below)
}

// The line on which a refusal shows: with `left` bytes left of the body, or for none of them the text's last line.
fn refusal_line(text: &[u8], body: &[u8], left: usize) -> u32
    requires few { count_by (λ b. b == line_feed) text.now + 1 < 2 ^ 32 }
    requires fewer { count_by (λ b. b == line_feed) body.now + 1 < 2 ^ 32 }
    ensures { result ≡ spec.refusal_line text.now body.now left }
{
    if left == 0 {
        line_of(text, 0)
    } else {
        line_of(body, left)
    }
}

// The fault of a refusal, with its line.
fn fault_on_line(text: &[u8], body: &[u8], why: Refusal) -> YamlFault
    requires few { count_by (λ b. b == line_feed) text.now + 1 < 2 ^ 32 }
    requires fewer { count_by (λ b. b == line_feed) body.now + 1 < 2 ^ 32 }
    ensures { result ≡ spec.fault_on_line (spec.refusal_line text.now body.now) why }
{
    match why {
        Refusal::Syntax(left) => YamlFault::Syntax {
            line: refusal_line(text, body, left),
        },
        Refusal::Duplicate(left) => YamlFault::Duplicate {
            line: refusal_line(text, body, left),
        },
        Refusal::TooDeep(left) => YamlFault::TooDeep {
            line: refusal_line(text, body, left),
        },
        Refusal::TooWide(left) => YamlFault::TooWide {
            line: refusal_line(text, body, left),
        },
    }
}

fn with_tail(text: &[u8], node: Node, rest: &[u8]) -> Result<Node, YamlFault>
    requires { count_by (λ b. b == line_feed) text.now + 1 < 2 ^ 32 }
    ensures { result ≡ spec.with_tail text.now node (spec.tail rest.now) }
{
    match tail(rest) {
        Ok(_) => Ok(node),
        Err(Halt::NoMemory) => Err(YamlFault::NoMemory),
        Err(Halt::Refused(why)) => Err(fault_on_line(text, text, why)),
    }
}

#[tactic(auto, unfolding(crate::specs::Document::read), using(crate::proofs::DocumentLemmas::take_lines))]
fn read(alloc: Global, text: &[u8]) -> Result<Node, YamlFault>
    requires short { length text.now < 2 ^ 63 }
    requires few { count_by (λ b. b == line_feed) text.now + 1 < 2 ^ 32 }
    ensures { spec.IsAnswer result (spec.read text.now) }
{
    let (body, rest) = text.split_at(body_len(text));
    match document(alloc, body) {
        Ok(node) => with_tail(text, node, rest),
        Err(Halt::NoMemory) => Err(YamlFault::NoMemory),
        Err(Halt::Refused(why)) => Err(fault_on_line(text, body, why)),
    }
}

/// The node of a YAML text, or the first fault in it with its line.
#[tactic(auto, unfolding(crate::specs::Document::parse), using(crate::proofs::DocumentLemmas::source_lines))]
pub fn parse(alloc: Global, text: &[u8]) -> Result<Node, YamlFault>
    requires { count_by (λ b. b == line_feed) text.now + 1 < 2 ^ 32 }
    // What the grammar gives for these bytes, the fault and its line included.
    ensures grammar { IsParsed text.now result }
    ensures exact { spec.IsAnswer result (spec.parse text.now) }
{
    let lines = source(alloc, text)?;
    read(alloc, lines.as_slice())
}
