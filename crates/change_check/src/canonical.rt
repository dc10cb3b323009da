// Parameters with canonical values.
ghost use Rattle.std.specs.Prelude.{◌≡◌, map, IfOk};
ghost use Rattle.yaml_print.specs.Sound.{Each};
ghost use Rattle.change_check.specs.Same as spec;
ghost use Rattle.change_check.specs.Sound.{IsSoundPair, AreSound};

use dvc_base::{NoMemory, Pair, PairList, ParamFile, ParamFiles, Plain};
use params::canon;
use std::alloc::Global;

/// The parameters with canonical values, by which they are compared.
pub fn canonical_files(alloc: Global, files: &[ParamFile]) -> Result<ParamFiles, NoMemory>
    requires sound { AreSound files.now }
    ensures exact { IfOk result (λ made. made ≡ spec.canonical_files files.now) }
{
    let mut made = ParamFiles::new(alloc);
    for file in files {
        made.push(canonical_file(alloc, file)?)?;
    }
    Ok(made)
}

fn canonical_file(alloc: Global, file: &ParamFile) -> Result<ParamFile, NoMemory>
    requires sound { Each IsSoundPair file.now.keys }
    ensures exact { IfOk result (λ made. made ≡ spec.canonical_file file.now) }
{
    Ok(ParamFile {
        file: file.file.copy(alloc)?,
        keys: canonical_pairs(alloc, file.keys.as_slice())?,
    })
}

fn canonical_pairs(alloc: Global, pairs: &[Pair]) -> Result<PairList, NoMemory>
    requires sound { Each IsSoundPair pairs.now }
    ensures exact { IfOk result (λ made. made ≡ map spec.canonical_pair pairs.now) }
{
    let mut made = PairList::new(alloc);
    for pair in pairs {
        made.push(canonical_pair(alloc, pair)?)?;
    }
    Ok(made)
}

fn canonical_pair(alloc: Global, pair: &Pair) -> Result<Pair, NoMemory>
    requires sound { IsSoundPair pair.now }
    ensures exact { IfOk result (λ made. made ≡ spec.canonical_pair pair.now) }
{
    Ok(Pair {
        key: pair.key.copy(alloc)?,
        value: canon(alloc, &pair.value)?,
    })
}
