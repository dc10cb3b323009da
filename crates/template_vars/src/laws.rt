// Laws of merges, texts and hidden names.
ghost use Rattle.std.specs.Prelude.{◌≡◌, ◌++◌, ℕ, List, [], false, if◌then◌else◌, None, Ok};
ghost use Rattle.dvc_base.specs.declared.node.Pair.{Pair};
ghost use Rattle.lock_files.specs.Mapping.{has};
ghost use Rattle.template_vars.specs.Merge.{clash, merged, max_depth};
ghost use Rattle.template_vars.specs.Resolve.{first_name, node_at, resolved};
ghost use Rattle.template_vars.specs.Template.{has_template};

/// A mapping merged into none is itself. A text without `${` stands for itself. A key leads into the pairs that hide where one of
/// them has the name that it begins with, and else into those behind them.
pub fn variable_laws()
    ensures first_clash { (b : List Pair) → clash max_depth [] b ≡ None }
    ensures first_merge { (b : List Pair) → merged max_depth [] b ≡ b }
    ensures plain { (vars : List Pair) (t : List ℕ) → has_template t ≡ false → resolved vars t ≡ Ok t }
    ensures hides { (key : List ℕ) (a b : List Pair)
        → node_at (a ++ b) key ≡ node_at (if has (first_name key) a then a else b) key }
{}
