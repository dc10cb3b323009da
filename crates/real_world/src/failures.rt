// The count of the calls that failed.
ghost use Rattle.std.specs.Prelude.{◌≡◌, MatchResult, Ok, Err, IsErr};
ghost use Rattle.world_api.specs.declared.files.ListFault.TheVariants.{Failed as Unlisted, NoMemory as Memory};
ghost use Rattle.real_world.specs.Counting.{Counts, risen};
ghost use Rattle.real_world.specs.Found.{SaysMemory};

use crate::findings::list_fault;
use dvc_base::{Failed, Texts};
use std::io;
use world_api::ListFault;

/// How often a call has failed. The last count stays.
#[derive(Drop)]
pub(crate) struct Failures {
    pub(crate) count: u64,
}

impl Failures {
    pub(crate) fn none() -> Failures
        ensures none { result.count ≡ 0 }
    {
        Failures { count: 0 }
    }

    /// Hands the answer on, and counts it where it is an error.
    pub(crate) fn counted<T: Drop>(&mut self, answer: io::Result<T>) -> Result<T, Failed>
        ensures same { MatchResult answer (λ value. result ≡ Ok value) (λ _. IsErr result) }
        ensures counted { Counts self.old.count self.new.count result }
    {
        match answer {
            Ok(value) => Ok(value),
            Err(_) => {
                self.rise();
                Err(Failed)
            }
        }
    }

    /// The same of the names in a folder. Want of memory is counted too, and told as such.
    pub(crate) fn counted_names(&mut self, answer: io::Result<Texts>) -> Result<Texts, ListFault>
        ensures same { MatchResult answer (λ names. result ≡ Ok names) (λ error.
            (SaysMemory error → result ≡ Err Memory) × (¬ SaysMemory error → result ≡ Err Unlisted)) }
        ensures counted { Counts self.old.count self.new.count result }
    {
        match answer {
            Ok(names) => Ok(names),
            Err(error) => {
                self.rise();
                Err(list_fault(&error))
            }
        }
    }

    fn rise(&mut self)
        ensures risen { self.new.count ≡ risen self.old.count }
    {
        self.count = self.count.saturating_add(1);
    }
}
