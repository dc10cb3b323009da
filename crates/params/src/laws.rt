// What canonical nodes keep.
ghost use Rattle.std.specs.Prelude.{◌≡◌, ℕ};
ghost use Rattle.dvc_base.specs.declared.node.Node.{Node};
ghost use Rattle.yaml_print.specs.Sound.{IsSound};
ghost use Rattle.params.specs.Canonical.{canonical};

/// The canonical node of a canonical node is that node, and what can be printed can be as its canonical node.
pub fn canon_law()
    ensures again { (d : ℕ) (v : Node) → IsSound d v → canonical d (canonical d v) ≡ canonical d v }
    ensures sound { (d : ℕ) (v : Node) → IsSound d v → IsSound d (canonical d v) }
{}
