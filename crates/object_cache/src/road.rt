// Files that are in the way of a folder.
ghost use Rattle.std.specs.Prelude.{◌≡◌, ◌++◌, true, IsTrue, IfOk, IfErr, IfSome, IsErrOf, length, ◌≤◌, None};
ghost use Rattle.dvc_base.specs.Path.{under};
ghost use Rattle.dvc_base.specs.Normal.{IsNormal};
ghost use Rattle.world_api.specs.Tree.{item_at};
ghost use Rattle.world_api.specs.History.{IsCaused, HasCause};
ghost use Rattle.world_api.specs.Outside.{tree_of, IsUntouched};
ghost use Rattle.world_api.specs.Calls.{parent};
ghost use Rattle.object_cache.specs.Due.{is_file, first_file_from, fault_of, IsDue, IsFree, HasHonestSizes, IsOnRoad, not_folder};
ghost use Rattle.object_cache.specs.declared.fault.CacheFault.TheVariants.{Failed as Blamed};

use crate::CacheFault;
use crate::paths::below;
use dvc_base::{Failed, Rel, Text};
use std::alloc::Global;
use world_api::{Kind, ReadFiles};

/// Refuses where a file stands above the path: by the first one, from above down.
pub fn find_road<F: ReadFiles>(alloc: Global, files: &mut F, at: &Rel) -> Result<(), CacheFault>
    ensures answer { IsTrue F.tells → IsDue (fault_of result)
        (not_folder (tree_of (F.history files.old)) (parent at.now)) }
    ensures told { IfErr result (IsOnRoad (parent at.now)) }
    ensures honest { IfErr result (HasHonestSizes F.tells) }
    ensures unchanged { IsUntouched F.tells (F.history files.old) (F.history files.new) }
    ensures cause { IsCaused (F.faults files.old) (F.faults files.new) (IsErrOf result Blamed) }
{
    let Some((_, folder)) = at.parts().split_last() else {
        return Ok(());
    };
    match first_file(alloc, files, &Rel::root(alloc), folder)? {
        None => Ok(()),
        Some(path) => Err(CacheFault::NotFolder { path }),
    }
}

// The first file on the way that these components lead, from a folder on.
fn first_file<F: ReadFiles>(
    alloc: Global,
    files: &mut F,
    here: &Rel,
    parts: &[Text],
) -> Result<Option<Rel>, CacheFault>
    requires { IsNormal parts.now }
    ensures exact { IsTrue F.tells → IfOk result (λ found.
        found ≡ first_file_from (tree_of (F.history files.old)) here.now parts.now) }
    ensures way { IfOk result (λ found. IfSome found (λ path. under path (here.now ++ parts.now) ≡ true)) }
    ensures free { IfErr result IsFree }
    ensures unchanged { IsUntouched F.tells (F.history files.old) (F.history files.new) }
    ensures cause { IsCaused (F.faults files.old) (F.faults files.new) (IsErrOf result Blamed) }
{
    let Some((part, rest)) = parts.split_first() else {
        return Ok(None);
    };
    let next = below(alloc, here, part.as_str())?;
    if is_file(files, &next)? {
        return Ok(Some(next));
    }
    first_file(alloc, files, &next, rest)
}

fn is_file<F: ReadFiles>(files: &mut F, at: &Rel) -> Result<bool, Failed>
    ensures exact { IsTrue F.tells → IfOk result (λ file.
        file ≡ is_file (item_at (tree_of (F.history files.old)) at.now)) }
    ensures unchanged { IsUntouched F.tells (F.history files.old) (F.history files.new) }
    ensures cause { HasCause (F.faults files.old) (F.faults files.new) result }
{
    Ok(matches!(files.kind(at)?, Kind::File { .. }))
}
