// Variables as a stage sees them: some may be hidden by others.
ghost use Rattle.std.specs.Prelude.{◌≡◌, ◌++◌, ◌==◌, option_copied};
ghost use Rattle.std.specs.List.{before_first};
ghost use Rattle.template_vars.specs.Resolve.{node_at, first_name};

use crate::Variables;
use crate::merge::value_at;
use dvc_base::Node;
use params::lookup;
use std::marker::Model;

/// Variables, and others before them that hide those of their names. Neither is copied.
#[derive(Drop)]
pub struct Scope<'a> {
    hiding: &'a Variables,
    variables: &'a Variables,
}

impl<'a> Model for Scope<'a> {
    ghost use Rattle.std.specs.Prelude.{◌++◌, List};
    ghost use Rattle.std.specs.Coded.{codes};
    ghost use Rattle.dvc_base.specs.declared.node.Pair.{Pair};
    ghost use Rattle.dvc_base.specs.contracts.node.Pair as pair;

    ghost Value = { List Pair };

    ghost coded = { Prim.hlevel (codes, pair.the_row.coded) };

    ghost view = { λ s. s.hiding.now ++ s.variables.now };
}

impl<'a> Scope<'a> {
    /// The variables behind those that hide. None hides where these are empty.
    pub fn of(hiding: &'a Variables, variables: &'a Variables) -> Scope<'a>
        ensures same { result ≡ hiding.now ++ variables.now }
    {
        Scope { hiding, variables }
    }

    /// What a key such as `a.b[0]` leads to, if there is something.
    pub fn find(&self, key: &str) -> Option<&'a Node>
        ensures exact { option_copied result ≡ node_at self.now key.now }
    {
        let hides = value_at(self.hiding.pairs(), first_name(key)).is_some();
        let seen = if hides { self.hiding } else { self.variables };
        lookup(seen.node(), key)
    }
}

// The name that a key begins with.
fn first_name(key: &str) -> &str
    ensures exact { result.now ≡ first_name key.now }
{
    before_bracket(before_dot(key))
}

// What stands before the first dot, or all of it.
fn before_dot(text: &str) -> &str
    ensures exact { result.now ≡ before_first (λ b. b == 46) text.now }
{
    match text.split_once('.') {
        Some((front, _)) => front,
        None => text,
    }
}

fn before_bracket(text: &str) -> &str
    ensures exact { result.now ≡ before_first (λ b. b == 91) text.now }
{
    match text.split_once('[') {
        Some((front, _)) => front,
        None => text,
    }
}
