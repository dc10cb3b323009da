// A file of parameters: no text past the limit is read, and no value that `dvc.lock` has no room for.
ghost use Rattle.std.specs.Prelude.{◌≡◌, ◌⊎◌, ◌≤◌, length, IsTrue, IfOk, IfErr, IsErrOf, Some, None, vec_len};
ghost use Rattle.dvc_base.specs.Limits.{limit_of};
ghost use Rattle.dvc_base.specs.declared.limits.What.TheVariants.{YamlText};
ghost use Rattle.dvc_base.specs.declared.node.Node.{out-Node};
ghost use Rattle.yaml_print.specs.Sound.{IsPrintable};
ghost use Rattle.world_api.specs.Tree.{item_at, file};
ghost use Rattle.world_api.specs.History.{IsCaused};
ghost use Rattle.world_api.specs.Outside.{tree_of, IsUntouched};
ghost use Rattle.file_bytes.specs.Reading.{IsTold};
ghost use Rattle.params.specs.Read as spec;
ghost use Rattle.params.specs.Read.{IsRead, IsFreeFault, IsChangeFrom, IsToldAs};
ghost use Rattle.params.specs.declared.fault.ParamsFault.TheVariants.{Failed as Blamed, NoMemory as Memory, Schema};

use crate::ParamsFault;
use crate::depth::is_within;
use dvc_base::{NoMemory, Node, Pair, PairList, Plain, Rel, Text, What, YamlFault};
use file_bytes::{ReadFault, read_whole};
use std::alloc::Global;
use world_api::{Kind, ReadFiles};
use yaml_profile::parse;

/// The most collections that stand in one another in a parameter's value.
const DEPTH: usize = 59;

/// The node of a file of parameters, in YAML or JSON. A text that is Null gives no pairs.
pub fn read_params<F: ReadFiles>(
    alloc: Global,
    files: &mut F,
    at: &Rel,
) -> Result<Node, ParamsFault>
    ensures read { IsTrue F.tells →
        IsRead result (spec.params_at (item_at (tree_of (F.history files.old)) at.now)) }
    ensures printable { IfOk result IsPrintable }
    // No top-level value has more collections in one another than `dvc.lock` has room for.
    ensures shallow { IfOk result (λ root. spec.refused_key (out-Node root) ≡ None) }
    ensures unchanged { IsUntouched F.tells (F.history files.old) (F.history files.new) }
    // A change is told with two sizes, and never where the world tells its tree.
    ensures changed { IfErr result (IsChangeFrom F.tells) }
    ensures cause { IsCaused (F.faults files.old) (F.faults files.new) (IsErrOf result Blamed) }
{
    match files.kind(at) {
        Ok(Kind::File { size }) => read_short(alloc, files, at, size),
        Ok(Kind::Missing | Kind::Folder) => Err(ParamsFault::NoFile),
        Err(_) => Err(ParamsFault::Failed),
    }
}

// What a file that was told to have this size holds, unless that is past the limit.
fn read_short<F: ReadFiles>(
    alloc: Global,
    files: &mut F,
    at: &Rel,
    size: u64,
) -> Result<Node, ParamsFault>
    requires told { IsTrue F.tells → IsTold (item_at (tree_of (F.history files.old)) at.now) size }
    ensures read { IsTrue F.tells →
        IsRead result (spec.params_at (item_at (tree_of (F.history files.old)) at.now)) }
    ensures printable { IfOk result IsPrintable }
    ensures shallow { IfOk result (λ root. spec.refused_key (out-Node root) ≡ None) }
    ensures unchanged { IsUntouched F.tells (F.history files.old) (F.history files.new) }
    ensures changed { IfErr result (IsChangeFrom F.tells) }
    ensures cause { IsCaused (F.faults files.old) (F.faults files.new) (IsErrOf result Blamed) }
{
    if size > What::YamlText.limit() {
        return Err(ParamsFault::TooLarge);
    }
    let text = read_told(alloc, files, at, size)?;
    params_in(alloc, text.as_slice())
}

// The bytes of a file that was told to have this size.
fn read_told<F: ReadFiles>(
    alloc: Global,
    files: &mut F,
    at: &Rel,
    size: u64,
) -> Result<Vec<u8>, ParamsFault>
    requires told { IsTrue F.tells → IsTold (item_at (tree_of (F.history files.old)) at.now) size }
    ensures read { IsTrue F.tells → IfOk result (λ text.
        item_at (tree_of (F.history files.old)) at.now ≡ Some (file text.items)) }
    ensures sized { IfOk result (λ text. vec_len text ≡ size) }
    ensures unchanged { IsUntouched F.tells (F.history files.old) (F.history files.new) }
    ensures free { IfErr result (IsFreeFault F.tells) }
    ensures told { IfErr result (IsToldAs size) }
    ensures cause { IsCaused (F.faults files.old) (F.faults files.new) (IsErrOf result Blamed) }
{
    match read_whole(alloc, files, at, size) {
        Ok(text) => Ok(text),
        Err(ReadFault::Changed { told, found }) => Err(ParamsFault::Changed { told, found }),
        Err(ReadFault::Failed) => Err(ParamsFault::Failed),
        Err(ReadFault::NoMemory) => Err(ParamsFault::NoMemory),
    }
}

// What a text of parameters holds.
fn params_in(alloc: Global, text: &[u8]) -> Result<Node, ParamsFault>
    requires short { length text.now ≤ limit_of YamlText }
    ensures read { IsRead result (spec.params_in text.now) }
    ensures printable { IfOk result IsPrintable }
    ensures shallow { IfOk result (λ root. spec.refused_key (out-Node root) ≡ None) }
    ensures steady { IfErr result spec.IsSteady }
{
    match parse(alloc, text) {
        Ok(root) => params_of(alloc, root),
        Err(YamlFault::NoMemory) => Err(ParamsFault::NoMemory),
        Err(fault) => Err(ParamsFault::Yaml { fault }),
    }
}

fn params_of(alloc: Global, root: Node) -> Result<Node, ParamsFault>
    requires { IsPrintable root }
    ensures read { IsRead result (spec.params_of root) }
    ensures printable { IfOk result IsPrintable }
    ensures shallow { IfOk result (λ root. spec.refused_key (out-Node root) ≡ None) }
    ensures steady { IfErr result spec.IsSteady }
{
    check(alloc, &root)?;
    Ok(pairs_or_none(alloc, root))
}

fn pairs_or_none(alloc: Global, root: Node) -> Node
    ensures exact { result ≡ spec.pairs_or_none (out-Node root) root }
{
    match root {
        Node::Null => Node::Pairs(PairList::new(alloc)),
        other => other,
    }
}

// Whether the node is refused as a root, and at which key.
fn check(alloc: Global, root: &Node) -> Result<(), ParamsFault>
    ensures looks { spec.Looks result (spec.refused_key (out-Node root.now)) }
{
    match root {
        Node::Null => Ok(()),
        Node::Pairs(pairs) => check_values(alloc, pairs.as_slice()),
        _ => Err(ParamsFault::Schema {
            key: Text::from_string(String::new(alloc)),
        }),
    }
}

fn check_values(alloc: Global, pairs: &[Pair]) -> Result<(), ParamsFault>
    ensures looks { spec.Looks result (spec.deep_key pairs.now) }
{
    let mut rest = pairs;
    while let [pair, more @ ..] = rest {
        if !is_within(DEPTH, &pair.value) {
            return Err(schema_at(alloc, &pair.key));
        }
        rest = more;
    }
    Ok(())
}

fn schema_at(alloc: Global, key: &Text) -> ParamsFault
    ensures exact { (result ≡ Memory) ⊎ (result ≡ Schema key.now) }
{
    match key.copy(alloc) {
        Ok(key) => ParamsFault::Schema { key },
        Err(NoMemory) => ParamsFault::NoMemory,
    }
}
