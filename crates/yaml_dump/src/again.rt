// A text, read and printed again.
ghost use Rattle.std.specs.Prelude.{◌≡◌, ◌<◌, ◌+◌, ◌^◌, ◌==◌, count_by, IfOk, IfErr};
ghost use Rattle.yaml_nodes.specs.Document as reading;
ghost use Rattle.yaml_dump.specs.Printed.{IsPrinted, IsFaultOf};

use dvc_base::Bytes;
use std::alloc::Global;
use yaml_profile::{YamlFault, parse, print};

/// The text that the node of a text is printed as, which is read as the same node; or the fault of the text, with its line.
pub fn print_again(alloc: Global, text: &[u8]) -> Result<Bytes, YamlFault>
    requires few { count_by (λ b. b == 10) text.now + 1 < 2 ^ 32 }
    ensures printed { IfOk result (IsPrinted text.now) }
    ensures same { IfOk result (λ bytes. reading.parse bytes ≡ reading.parse text.now) }
    ensures refused { IfErr result (IsFaultOf text.now) }
{
    let node = parse(alloc, text)?;
    Ok(print(alloc, &node)?)
}
