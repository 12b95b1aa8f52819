//! The tasks that haven't ended.

ghost use Rattle.std.specs.Prelude.{IfOk, IsTrue};
ghost use Rattle.tb_model.specs.State.{is_unended};
ghost use Rattle.tb_core.specs.Listed.{AreAll};
ghost use Rattle.tb_core.specs.Seen.{history};

use std::alloc::{AllocError, Global};
use tb_core::Core;
use tb_model::TaskName;

/// The tasks that haven't ended, in the order of their names: a view of what they do, or wait for, costs nothing for
/// those that have.
pub(crate) fn unended_tasks(alloc: Global, core: &Core) -> Result<Vec<TaskName>, AllocError>
    ensures { IfOk result (λ tasks. AreAll (λ t. IsTrue (is_unended (history core.now.run) t)) tasks.items) }
{
    let mut tasks = Vec::new(alloc);
    let mut walk = 0;
    let mut near = None;
    let mut after: Option<&TaskName> = None;
    'tasks: while let Some(task) = core.walk_unended(&mut walk, &mut near, after) {
        tasks.push(task.clone()?)?;
        after = Some(task);
    }
    Ok(tasks)
}
