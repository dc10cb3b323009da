// The pairs of a mapping as they are read, with their keys in order beside them, so that a look for a key is fast.
ghost use Rattle.std.specs.Prelude.{◌≡◌, [], OnOk, string_bytes};
ghost use Rattle.yaml_nodes.specs.Part as spec;
ghost use Rattle.yaml_nodes.specs.Keyed.{HasKeys};

use dvc_base::{NoMemory, Node, Pair, PairList, Text};
use std::alloc::Global;
use std::collections::BTreeSet;
use std::marker::Model;

/// Pairs so far.
#[derive(Drop)]
pub struct Pairing {
    pairs: PairList,
    keys: BTreeSet<String>,
}

impl Model for Pairing {
    ghost use Rattle.std.specs.Prelude.{List};
    ghost use Rattle.dvc_base.specs.declared.node.Pair.{Pair};
    ghost use Rattle.yaml_nodes.specs.Keyed.{HasKeys};
    ghost use Rattle.std.specs.Coded.{coded_list};
    ghost use Rattle.dvc_base.specs.contracts.node.Pair as pair;

    ghost Value = { List Pair };

    ghost coded = { coded_list pair.the_row.coded };

    ghost view = { λ p. p.pairs };

    ghost invariant = { λ p. HasKeys p.keys p.pairs };
}

impl Pairing {
    /// No pair.
    pub fn new(alloc: Global) -> Pairing
        ensures { result ≡ [] }
    {
        Pairing {
            pairs: PairList::new(alloc),
            keys: BTreeSet::new(alloc),
        }
    }

    /// Whether one of the pairs has this key.
    pub fn has(&self, key: &Text) -> bool
        ensures { result ≡ spec.has_key key.now self.now }
    {
        self.keys.contains(key.as_str())
    }

    /// Adds a pair at the end. Where memory runs out no pair is left.
    pub fn push(&mut self, alloc: Global, key: Text, value: Node) -> Result<(), NoMemory>
        ensures { OnOk result (self.new ≡ spec.with_pair self.old key value) }
    {
        let copy = String::from_str(alloc, key.as_str())?;
        match add(&mut self.keys, &mut self.pairs, copy, key, value) {
            Ok(()) => Ok(()),
            Err(none) => {
                self.keys = BTreeSet::new(alloc);
                self.pairs = PairList::new(alloc);
                Err(none)
            }
        }
    }

    pub fn into_pairs(self) -> PairList
        ensures { result ≡ self }
    {
        let Pairing { pairs, .. } = self;
        pairs
    }
}

// Adds a pair, and a copy of its key to the keys.
fn add(
    keys: &mut BTreeSet<String>,
    pairs: &mut PairList,
    copy: String,
    key: Text,
    value: Node,
) -> Result<(), NoMemory>
    requires same { string_bytes copy ≡ key }
    requires held { HasKeys keys.old pairs.old }
    ensures ok { OnOk result (pairs.new ≡ spec.with_pair pairs.old key value) }
    ensures holds { OnOk result (HasKeys keys.new pairs.new) }
{
    let pair = Pair { key, value };
    keys.insert(copy)?;
    pairs.push(pair)?;
    Ok(())
}
