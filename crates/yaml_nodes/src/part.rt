// What nodes of flow and of block style share.
ghost use Rattle.std.specs.Prelude.{◌≡◌, ◌<◌, ◌≤◌, length, IfOk, ◌==◌};
ghost use Rattle.std.specs.List.{list_any};
ghost use Rattle.yaml_text.specs.Characters.{line_feed};
ghost use Rattle.yaml_text.specs.Outcome.{Reads};
ghost use Rattle.yaml_nodes.specs.Part as spec;

use dvc_base::Node;
use std::alloc::Global;
use yaml_scalars::{plain_scalar, quoted_scalar, scalar};
use yaml_text::{Halt, Refusal, byte};

/// Whether the text begins with a quote.
pub fn is_quote(text: &[u8]) -> bool
    ensures { result ≡ spec.is_quote text.now }
{
    byte(text, 0) == b'\'' || byte(text, 0) == b'"'
}

/// Whether the text begins with `[` or `{`.
pub fn begins_form(text: &[u8]) -> bool
    ensures { result ≡ spec.begins_form text.now }
{
    byte(text, 0) == b'[' || byte(text, 0) == b'{'
}

/// A collection begins here in which no further one may stand.
pub fn too_deep(text: &[u8]) -> Halt
    ensures { result ≡ Halt.Refused (Refusal.TooDeep (length text.now)) }
{
    Halt::Refused(Refusal::TooDeep(text.len()))
}

/// Whether no line ends between the text and what is left of it.
pub fn is_on_one_line(text: &[u8], rest: &[u8]) -> bool
    ensures { result ≡ spec.is_on_one_line text.now rest.now }
{
    !has_break(text.split_at(text.len().saturating_sub(rest.len())).0)
}

fn has_break(text: &[u8]) -> bool
    ensures { result ≡ list_any (λ b. b == line_feed) text.now }
{
    text.iter().any(|byte| *byte == b'\n')
}

/// The plain scalar that begins here, as a node.
#[tactic(auto, unfolding(crate::specs::Part::plain_node))]
pub fn plain_node(
    alloc: Global,
    flow: bool,
    least: usize,
    text: &[u8],
) -> Result<(Node, &[u8]), Halt>
    ensures exact { Reads (λ r. (r.0, r.1.now)) result (spec.plain_node flow least text.now) }
    ensures within { IfOk result (λ r. length r.1.now ≤ length text.now) }
{
    let (content, rest) = plain_scalar(alloc, flow, least, text)?;
    Ok((scalar(text.len(), content)?, rest))
}

/// The quoted scalar whose opening quote `at` begins with, as a node.
#[tactic(auto, unfolding(crate::specs::Part::quoted_node))]
pub fn quoted_node<'a>(alloc: Global, at: &[u8], text: &'a [u8]) -> Result<(Node, &'a [u8]), Halt>
    ensures exact { Reads (λ r. (r.0, r.1.now)) result (spec.quoted_node at.now text.now) }
    ensures within { IfOk result (λ r. length r.1.now ≤ length text.now) }
{
    let (content, rest) = quoted_scalar(alloc, byte(at, 0), true, text)?;
    Ok((Node::Text(content), rest))
}
