// The places of the paths that begin with the same components.
ghost use Rattle.std.specs.Prelude.{◌≡◌, ℕ};
ghost use Rattle.path_index.specs.Table.{is_in, is_at, is_cut};

use crate::PathIndex;
use crate::table::side;
use dvc_base::Text;

impl PathIndex {
    // The places of the paths of which the first `depth` components are these.
    pub(crate) fn run(&self, front: &[Text], depth: usize) -> &[usize]
        ensures exact { (n : ℕ) → is_in result.now n ≡ is_at (is_cut depth front.now) self.now n }
    {
        let paths = self.paths.as_slice();
        let order = self.order.as_slice();
        let start = order.partition_point(|place| side(paths, *place, front, depth).is_lt());
        let end = order.partition_point(|place| side(paths, *place, front, depth).is_le());
        &order[start..end]
    }
}
