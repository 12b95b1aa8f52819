//! The unended tasks of a run.

ghost use Rattle.std.specs.Prelude.{IfOk};
ghost use Rattle.tb_taskcheck.specs.Listing.{ListsUnended};
ghost use Rattle.tb_verdict.specs.Held.{IsBehind};
ghost use Rattle.tb_verdict.specs.Texts.{Sofar};

use std::alloc::{AllocError, Global};
use tb_draft::Draft;
use tb_model::TaskName;
use tb_verdict::Judge;

/// The names of the unended tasks in their order, each on a line, and how many they are. Memory
/// goes by them.
pub fn unended_names(alloc: Global, judge: &Judge) -> Result<(Draft, u32), AllocError>
    ensures { IfOk result (λ listed. (s : Sofar) → IsBehind judge.now s → ListsUnended s listed.0 listed.1) }
{
    let mut names = Draft::new(alloc);
    let mut count: u32 = 0;
    let mut after: Option<&TaskName> = None;
    'names: while let Some(task) = judge.next_unended(after) {
        if count == u32::MAX {
            return Err(AllocError);
        }
        names.push_name(task)?;
        names.push_str("\n")?;
        count += 1;
        after = Some(task);
    }
    Ok((names, count))
}
