// Refusals of variables, as those of a `dvc.yaml`.
ghost use Rattle.std.specs.Prelude.{◌≡◌, ◌⊎◌};
ghost use Rattle.stage_schema.specs.declared.fault.ExpandFault.TheVariants.{NoKey, NoMemory as Memory};
ghost use Rattle.template_expand.specs.Answer.{fault_of};

use dvc_base::{NoMemory, Plain, Rel, Text};
use stage_schema::ExpandFault;
use std::alloc::Global;
use template_vars::TemplateFault;

/// The refusal of variables that came from this file.
pub(crate) fn fault_of(alloc: Global, file: &Rel, why: TemplateFault) -> ExpandFault
    ensures exact { (result ≡ Memory) ⊎ (result ≡ fault_of file.now why) }
{
    match why {
        TemplateFault::Schema { key } => ExpandFault::Schema { key },
        TemplateFault::NoVariable { key } => ExpandFault::NoVariable { key },
        TemplateFault::NotScalar { key } => ExpandFault::NotScalar { key },
        TemplateFault::NoKey { key } => no_key(alloc, file, key),
        TemplateFault::NoMemory => ExpandFault::NoMemory,
    }
}

fn no_key(alloc: Global, file: &Rel, key: Text) -> ExpandFault
    ensures exact { (result ≡ Memory) ⊎ (result ≡ NoKey file.now key) }
{
    match file.copy(alloc) {
        Ok(file) => ExpandFault::NoKey { file, key },
        Err(NoMemory) => ExpandFault::NoMemory,
    }
}
