// Why variables or a text with templates are refused.
ghost use Rattle.std.specs.Prelude.{◌≡◌};

use dvc_base::{NoMemory, Text};

/// Why variables or a text with templates are refused. The caller knows the file and the stage.
#[derive(Drop)]
pub enum TemplateFault {
    /// Two values meet at the key that can't be merged.
    Schema { key: Text },
    /// No variable has the name.
    NoVariable { key: Text },
    /// A list or a mapping stands where a text is put together.
    NotScalar { key: Text },
    /// A file lacks the key.
    NoKey { key: Text },
    /// Memory ran out.
    NoMemory,
}

impl From<NoMemory> for TemplateFault {
    ghost use Rattle.template_vars.specs.declared.fault.TemplateFault.TheVariants.{NoMemory as Memory};

    ghost from_gives = { λ _ fault. fault ≡ Memory };

    fn from(_: NoMemory) -> TemplateFault {
        TemplateFault::NoMemory
    }
}
