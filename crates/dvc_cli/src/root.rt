// The node of `dvc.yaml`.
ghost use Rattle.std.specs.Prelude.{◌≡◌, ◌≤◌, length, IsTrue, IfOk, IsErrOf};
ghost use Rattle.dvc_base.specs.Answer.{fault_in};
ghost use Rattle.dvc_base.specs.Fault.{MayBe, IsHonest};
ghost use Rattle.dvc_base.specs.Limits.{limit_of};
ghost use Rattle.dvc_base.specs.declared.fault.Fault.TheVariants.{WorldFault};
ghost use Rattle.dvc_base.specs.declared.limits.What.TheVariants.{YamlText};
ghost use Rattle.world_api.specs.Tree.{item_at};
ghost use Rattle.world_api.specs.History.{IsCaused};
ghost use Rattle.world_api.specs.Layout.{yaml_path};
ghost use Rattle.world_api.specs.Outside.{tree_of, IsUntouched};
ghost use Rattle.yaml_nodes.specs.Document as yaml;
ghost use Rattle.yaml_print.specs.Sound.{IsPrintable};
ghost use Rattle.workspace_files.specs.Read.{IsRead};
ghost use Rattle.dvc_cli.specs.Read.{node_or, root_at};
ghost use Rattle.dvc_cli.specs.Workspace.{file_kinds, parse_kinds};

use dvc_base::{Bytes, Fault, Node, Rel, YamlFault};
use std::alloc::Global;
use workspace_files::read_text;
use world_api::{ReadFiles, yaml_path};
use yaml_profile::parse;

/// The node of `dvc.yaml`. A file that is missing says what an empty one does.
pub(crate) fn read_root<F: ReadFiles>(alloc: Global, files: &mut F) -> Result<Node, Fault>
    ensures read { IsTrue F.tells →
        IsRead result (root_at (item_at (tree_of (F.history files.old)) yaml_path)) }
    // The keys of each mapping are distinct.
    ensures printable { IfOk result IsPrintable }
    ensures unchanged { IsUntouched F.tells (F.history files.old) (F.history files.new) }
    ensures kinds { MayBe file_kinds (fault_in result) }
    ensures honest { IsHonest F.tells (fault_in result) }
    ensures cause { IsCaused (F.faults files.old) (F.faults files.new) (IsErrOf result WorldFault) }
{
    let at = yaml_path(alloc)?;
    match read_text(alloc, files, &at)? {
        None => Ok(Node::Null),
        Some(text) => node_of(alloc, at, &text),
    }
}

fn node_of(alloc: Global, at: Rel, text: &Bytes) -> Result<Node, Fault>
    requires path { at ≡ yaml_path }
    requires short { length text.now ≤ limit_of YamlText }
    ensures read { IsRead result (node_or (yaml.parse text.now)) }
    ensures printable { IfOk result IsPrintable }
    ensures kinds { MayBe parse_kinds (fault_in result) }
{
    match parse(alloc, text.as_slice()) {
        Ok(root) => Ok(root),
        Err(YamlFault::NoMemory) => Err(Fault::NoMemory),
        Err(fault) => Err(Fault::Yaml { file: at, fault }),
    }
}
