// Variables: a mapping into which further mappings are merged.
ghost use Rattle.std.specs.Prelude.{◌≡◌, [], OnErr};
ghost use Rattle.dvc_base.specs.declared.node.Node.TheVariants as nd;
ghost use Rattle.template_vars.specs.Answer.{Leaves};
ghost use Rattle.template_vars.specs.Merge.{merge_answer};

use crate::TemplateFault;
use crate::merge::merge_answer;
use dvc_base::{NoMemory, Node, Pair, PairList, Plain};
use std::alloc::Global;
use std::marker::Model;

/// The variables of templates: pairs in order, of which the first with a key counts.
#[derive(Drop)]
pub struct Variables {
    root: Node,
}

impl Model for Variables {
    ghost use Rattle.std.specs.Prelude.{◌≡◌, List};
    ghost use Rattle.std.specs.Coded.{codes};
    ghost use Rattle.dvc_base.specs.declared.node.Node.TheVariants as nd;
    ghost use Rattle.dvc_base.specs.declared.node.Pair.{Pair};
    ghost use Rattle.dvc_base.specs.contracts.node.Pair as pair;
    ghost use Rattle.lock_files.specs.Value.{pairs_or_none};

    ghost Value = { List Pair };

    ghost coded = { Prim.hlevel (codes, pair.the_row.coded) };

    ghost view = { λ v. pairs_or_none v.root };

    ghost invariant = { λ v. v.root ≡ nd.Pairs (pairs_or_none v.root) };
}

impl Variables {
    /// No variables, which takes no memory.
    pub fn new(alloc: Global) -> Variables
        ensures empty { result ≡ [] }
    {
        Variables::of_pairs(PairList::new(alloc))
    }

    /// The variables of these pairs, which are not copied.
    pub fn of_pairs(pairs: PairList) -> Variables
        ensures same { result ≡ pairs }
    {
        Variables {
            root: Node::Pairs(pairs),
        }
    }

    /// The pairs in their order.
    pub fn pairs(&self) -> &[Pair]
        ensures same { result.now ≡ self.now }
    {
        match &self.root {
            Node::Pairs(pairs) => pairs.as_slice(),
            _ => &[],
        }
    }

    /// The mapping as a node.
    pub fn node(&self) -> &Node
        ensures same { result.now ≡ nd.Pairs self.now }
    {
        &self.root
    }

    /// Merges a mapping of these pairs into the variables: mappings under one key are merged inside, and any other key that is
    /// there twice is refused. After a refusal they are as before.
    pub fn merge(&mut self, alloc: Global, pairs: &[Pair]) -> Result<(), TemplateFault>
        ensures answer { Leaves result self.new (merge_answer self.old pairs.now) }
        ensures err { OnErr result (self.new ≡ self.old) }
    {
        let made = merge_answer(alloc, self.pairs(), pairs)?;
        *self = Variables::of_pairs(made);
        Ok(())
    }
}

impl Plain for Variables {
    fn copy(&self, alloc: Global) -> Result<Variables, NoMemory> {
        Ok(Variables {
            root: self.root.copy(alloc)?,
        })
    }
}
