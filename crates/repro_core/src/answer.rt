// The fault that tells why a file holds no parameters.
ghost use Rattle.std.specs.Prelude.{◌≡◌, ◌⊎◌, Bool, Some};
ghost use Rattle.dvc_base.specs.Fault.{MayBe, IsHonest};
ghost use Rattle.dvc_base.specs.declared.fault.Fault.TheVariants.{NoMemory as Memory, WorldFault};
ghost use Rattle.params.specs.Read.{IsChangeFrom};
ghost use Rattle.params.specs.declared.fault.ParamsFault.TheVariants.{Failed};
ghost use Rattle.repro_laws.specs.Params as spec;
ghost use Rattle.repro_core.specs.Steps.{params_kinds};

use dvc_base::{Fault, NoMemory, Plain, Rel, What};
use params::ParamsFault;
use std::alloc::Global;

/// The refusal of a file that holds no parameters.
pub fn params_answer(alloc: Global, at: &Rel, why: ParamsFault) -> Fault
    ensures exact { (result ≡ Memory) ⊎ (result ≡ spec.params_answer at.now why) }
    ensures kinds { MayBe params_kinds (Some result) }
    // A change is told only where one is why.
    ensures honest { (tells : Bool) → IsChangeFrom tells why → IsHonest tells (Some result) }
    ensures failed { result ≡ WorldFault → why ≡ Failed }
{
    match at.copy(alloc) {
        Ok(file) => answer_at(file, why),
        Err(NoMemory) => Fault::NoMemory,
    }
}

fn answer_at(file: Rel, why: ParamsFault) -> Fault
    ensures exact { result ≡ spec.params_answer file why }
{
    match why {
        ParamsFault::NoFile => Fault::NoFile { file },
        ParamsFault::Yaml { fault } => Fault::Yaml { file, fault },
        ParamsFault::Schema { key } => Fault::Schema { file, key },
        ParamsFault::Changed { told, found } => Fault::Changed {
            path: file,
            told,
            found,
        },
        ParamsFault::TooLarge => Fault::TooLarge {
            what: What::YamlText,
            limit: What::YamlText.limit(),
        },
        ParamsFault::Failed => Fault::WorldFault,
        ParamsFault::NoMemory => Fault::NoMemory,
    }
}
