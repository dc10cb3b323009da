// Whether a path lies in one of many.
ghost use Rattle.std.specs.Prelude.{◌≡◌};
ghost use Rattle.std.specs.List.{list_any};
ghost use Rattle.dvc_base.specs.Path.{is_within};
ghost use Rattle.path_index.specs.First.{IsFirst};
ghost use Rattle.path_index.specs.Table.{is_at};

use crate::PathIndex;
use crate::least::{earlier, least};
use dvc_base::Rel;

impl PathIndex {
    /// Whether the path lies in one of the paths, and is none of them itself.
    pub fn has_around(&self, path: &Rel) -> bool
        ensures exact { result ≡ list_any (is_within path.now) self.now }
    {
        self.first_around(path).is_some()
    }

    // The place of the first path in which this one lies.
    pub(crate) fn first_around(&self, path: &Rel) -> Option<usize>
        ensures first { IsFirst (is_at (is_within path.now) self.now) result }
    {
        let parts = path.parts();
        let mut first = None;
        for depth in 0..parts.len() {
            first = earlier(first, least(self.run(&parts[..depth], depth + 1)));
        }
        first
    }
}
