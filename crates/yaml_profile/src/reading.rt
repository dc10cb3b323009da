// Reading, with what printing asks of a node.
ghost use Rattle.std.specs.Prelude.{◌<◌, ◌+◌, ◌^◌, ◌==◌, count_by, IfOk};
ghost use Rattle.yaml_text.specs.Characters.{line_feed};
ghost use Rattle.yaml_nodes.specs.Document as spec;
ghost use Rattle.yaml_nodes.specs.DocumentGrammar.{IsParsed};
ghost use Rattle.yaml_print.specs.Sound.{IsPrintable};

use dvc_base::{Node, YamlFault};
use std::alloc::Global;

/// The node of a YAML text, or the first fault in it with its line: what the grammar gives. What is read can be printed.
#[tactic(auto, using(yaml_print::proofs::ReadSound::read_printable))]
pub fn parse(alloc: Global, text: &[u8]) -> Result<Node, YamlFault>
    requires { count_by (λ b. b == line_feed) text.now + 1 < 2 ^ 32 }
    ensures grammar { IsParsed text.now result }
    ensures exact { spec.IsAnswer result (spec.parse text.now) }
    ensures printable { IfOk result IsPrintable }
{
    yaml_nodes::parse(alloc, text)
}
