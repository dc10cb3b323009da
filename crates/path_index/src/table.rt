// The places of paths, in the order of the paths' components.
ghost use Rattle.std.specs.Prelude.{◌≡◌, ℕ, ◌<◌, length, nat_lt, take, IfOk};
ghost use Rattle.path_index.specs.Table.{IsTable, path_at, path_cmp, is_in};

use dvc_base::{NoMemory, Rel, Text};
use std::alloc::Global;
use std::cmp::Ordering;

// The places of the paths, sorted by the paths.
pub(crate) fn table_of(alloc: Global, paths: &[Rel]) -> Result<Vec<usize>, NoMemory>
    ensures table { IfOk result (λ order. IsTable paths.now order.items) }
{
    let mut order = places_of(alloc, paths.len())?;
    order.sort_by(|a, b| parts_at(paths, *a).cmp(parts_at(paths, *b)))?;
    Ok(order)
}

fn places_of(alloc: Global, count: usize) -> Result<Vec<usize>, NoMemory>
    ensures all { IfOk result (λ places. (n : ℕ) → is_in places.items n ≡ nat_lt n count) }
{
    let mut places = Vec::new(alloc);
    for place in 0..count {
        places.push(place)?;
    }
    Ok(places)
}

// Where the first `depth` components of a path stand against these.
pub(crate) fn side(paths: &[Rel], place: usize, front: &[Text], depth: usize) -> Ordering
    ensures exact { result ≡ path_cmp (take depth (path_at paths.now place)) front.now }
{
    let parts = parts_at(paths, place);
    let shown = parts.len().min(depth);
    parts[..shown].cmp(front)
}

fn parts_at(paths: &[Rel], place: usize) -> &[Text]
    ensures exact { result.now ≡ path_at paths.now place }
{
    match paths.get(place) {
        Some(path) => path.parts(),
        None => &[],
    }
}
