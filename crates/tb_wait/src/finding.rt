//! Where a task is, by the ordinals of its name.

ghost use Rattle.std.specs.Prelude.{◌<◌, ◌++◌, List, length};
ghost use Rattle.tb_model.specs.Names.{Name};
ghost use Rattle.tb_wait.specs.Kin.{Slot};
ghost use Rattle.tb_wait.specs.Rows.{key, Fits, IsPlaceOf};

use crate::tree::Tree;
use tb_model::TaskName;

impl Tree {
    /// The index of the task, from the root down: each ordinal of its name leads to a child. So it
    /// costs as much as the task is deep.
    #[inline(never)]
    pub fn place_of(&self, name: &TaskName) -> Option<usize>
        ensures { (names : List Name) (slots : List Slot) → Fits names slots self.now.nodes → IsPlaceOf names name.now result }
    {
        let mut parts = name.parts();
        let mut run = parts.take_run();
        let mut at = 0;
        'runs: while !run.as_slice().is_empty() {
            match self.place_below(at, run.as_slice()) {
                Some(below) => at = below,
                None => return None,
            }
            run = parts.take_run();
        }
        Some(at)
    }

    /// The index of the task to which these ordinals lead down from the task at the index `start`.
    fn place_below(&self, start: usize, numbers: &[u32]) -> Option<usize>
        ensures { (names : List Name) (slots : List Slot) → Fits names slots self.now.nodes → start < length names → IsPlaceOf names (numbers.now ++ key names start) result }
    {
        let mut at = start;
        let mut left = numbers.len();
        while 0 < left {
            left -= 1;
            match self.child(at, numbers[left]) {
                Some(child) => at = child,
                None => return None,
            }
        }
        Some(at)
    }
}
