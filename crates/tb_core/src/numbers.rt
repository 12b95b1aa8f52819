//! The id by which a task is stored.

ghost use Rattle.std.specs.Prelude.{◌≡◌, Some, is_some, true};
ghost use Rattle.tb_wait.specs.Kin.{place};

use tb_model::TaskName;
use tb_undo::Tables;

/// The index of the task, which was generated, among the names of the tables.
#[inline(always)]
pub fn number_in(tables: &Tables, task: &TaskName) -> u32
    requires { is_some (place tables.now.waits.tasks task.now) ≡ true }
    ensures { place tables.now.waits.tasks task.now ≡ Some result }
{
    let at = tables.place(task).unwrap();
    // for the proof: an index fits in 32 bits
    let _ = tables.name(at);
    at as u32
}
