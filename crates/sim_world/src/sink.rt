// An output in memory, in which chosen puts fail.
ghost use Rattle.std.specs.Prelude.{◌≡◌, [], ◌==◌, IsTrue, true};
ghost use Rattle.std.specs.List.{list_any};
ghost use Rattle.world_api.specs.History.{HasCause};
ghost use Rattle.world_api.specs.Calls.{Takes};
ghost use Rattle.sim_world.specs.Sunk.{IsPut, faults_of};

use dvc_base::{Failed, Numbers};
use std::alloc::Global;
use std::marker::Model;
use world_api::Sink;

/// Takes lines into memory. It tells what it took.
#[derive(Drop)]
pub struct MemSink {
    bytes: Vec<u8>,
    fails: Numbers,
    puts: u64,
    failed: u64,
    starved: u64,
}

impl Model for MemSink {
    ghost use Rattle.sim_world.specs.Sunk.{Sunk};

    ghost Value = { Sunk };

    ghost view = { λ s. record { taken = s.bytes.items; fails = s.fails; puts = s.puts; failed = s.failed; starved = s.starved } };
}

impl MemSink {
    /// An empty sink in which the puts of these numbers fail, the first put being 1. It takes no memory.
    pub fn new(alloc: Global, fails: Numbers) -> MemSink
        ensures empty { result ≡ record { taken = []; fails = fails; puts = 0; failed = 0; starved = 0 } }
    {
        MemSink {
            bytes: Vec::new(alloc),
            fails,
            puts: 0,
            failed: 0,
            starved: 0,
        }
    }

    /// All that was taken.
    pub fn bytes(&self) -> &[u8]
        ensures told { result.now ≡ self.now.taken }
    {
        self.bytes.as_slice()
    }

    /// How many puts found no memory.
    pub fn starved(&self) -> u64
        ensures told { result ≡ self.now.starved }
    {
        self.starved
    }
}

impl Sink for MemSink {
    ghost tells = { true };

    ghost taken = { λ s. s.taken };

    ghost faults = { faults_of };

    fn put(&mut self, bytes: &[u8]) -> Result<(), Failed>
        ensures taken { Takes self.old.taken bytes.now self.new.taken result }
        ensures cause { HasCause (faults_of self.old) (faults_of self.new) result }
        ensures counted { IsPut self.old bytes.now self.new result }
    {
        self.puts = self.puts.saturating_add(1);
        if is_listed(&self.fails, self.puts) {
            self.failed = self.failed.saturating_add(1);
            return Err(Failed);
        }
        match self.bytes.extend_from_slice(bytes) {
            Ok(()) => Ok(()),
            Err(_) => {
                self.failed = self.failed.saturating_add(1);
                self.starved = self.starved.saturating_add(1);
                Err(Failed)
            }
        }
    }
}

fn is_listed(numbers: &Numbers, number: u64) -> bool
    ensures any { result ≡ list_any (λ n. n == number) numbers.now }
{
    for listed in numbers.as_slice() {
        if u64::from(*listed) == number {
            return true;
        }
    }
    false
}
