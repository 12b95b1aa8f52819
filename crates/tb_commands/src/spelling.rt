//! Names of tasks and steps, as words of a command.

ghost use Rattle.std.specs.Prelude.{◌≡◌, IfOk};
ghost use Rattle.tb_commands.specs.Commands.{task_of, step_of};

use std::alloc::{AllocError, Global};
use tb_model::{NameRefusal, StepId, TaskName};

/// The task that a word names.
pub fn read_name(alloc: Global, word: &[u8]) -> Result<Option<TaskName>, AllocError>
    ensures { IfOk result (λ name. name ≡ task_of word.now) }
{
    match TaskName::parse(alloc, word) {
        Ok(name) => Ok(Some(name)),
        Err(NameRefusal::BadName) => Ok(None),
        Err(NameRefusal::Memory) => Err(AllocError),
    }
}

/// The step that a word names.
pub fn read_step_id(alloc: Global, word: &[u8]) -> Result<Option<StepId>, AllocError>
    ensures { IfOk result (λ id. id ≡ step_of word.now) }
{
    match StepId::parse(alloc, word) {
        Ok(id) => Ok(Some(id)),
        Err(NameRefusal::BadName) => Ok(None),
        Err(NameRefusal::Memory) => Err(AllocError),
    }
}
