//! The step that a task would take next.

ghost use Rattle.std.specs.Prelude.{◌≡◌, IfOk, IfErr, IsTrue, IsFalse};
ghost use Rattle.tb_model.specs.Facts.{is_spawned};
ghost use Rattle.tb_core.specs.Seen.{history};
ghost use Rattle.tb_core.specs.Naming.{config_with};
ghost use Rattle.tb_core.specs.Situation.{config_of};
ghost use Rattle.tb_core.specs.Outcomes.{has_ended};
ghost use Rattle.tb_next.specs.Fitting.{Fits};
ghost use Rattle.tb_read.specs.Meaning.{IsPosition};
ghost use Rattle.tb_read.specs.Strips.{IsStripOf};
ghost use Rattle.tb_next.specs.Plans.{IsComing, IsSituatedOf, IsWorkOf, HasNone};

use crate::coming::Coming;
use crate::situated::Situated;
use crate::work::Work;
use std::alloc::{AllocError, Global};
use tb_core::{Core, StepRefusal};
use tb_model::TaskName;
use tb_plan::{Config, Strip, evaluate, line_behind};
use tb_read::{Program, strip_around};
use tb_undo::Standing;

/// What a task does next, whether it may do it now or not.
pub fn coming_of(
    alloc: Global,
    program: &Program,
    core: &Core,
    task: &TaskName,
) -> Result<Coming, StepRefusal>
    requires { Fits program.now core.now.run }
    ensures ok { IfOk result (IsComing program.now core.now.run task.now) }
    ensures err { IfErr result (HasNone core.now.run task.now) }
{
    let Some(standing) = core.standing(task) else {
        return Err(StepRefusal::NoSuchTask);
    };
    if core.has_ended_at(&standing, task) {
        return Err(StepRefusal::Ended);
    }
    match coming_at(alloc, program, core, task, &standing) {
        Ok(coming) => Ok(coming),
        Err(_) => Err(StepRefusal::Memory),
    }
}

/// Evaluates the statement at which a task is that isn't over.
#[inline(always)]
pub fn coming_at(
    alloc: Global,
    program: &Program,
    core: &Core,
    task: &TaskName,
    standing: &Standing<'_>,
) -> Result<Coming, AllocError>
    requires fits { Fits program.now core.now.run }
    requires there { IsTrue (is_spawned (history core.now.run) task.now) }
    requires going { IsFalse (has_ended core.now.run task.now) }
    requires here { config_of core.now.run task.now ≡ config_with task.now standing.now }
    ensures { IfOk result (IsComing program.now core.now.run task.now) }
{
    let at = standing.at();
    match program.instr(at) {
        Some(instr) => {
            let action = evaluate(alloc, instr, task, standing.regs())?;
            let to = line_behind(instr, at, &action);
            Ok(Coming {
                action,
                at,
                to,
                steps: standing.steps(),
            })
        }
        None => unreachable!(),
    }
}

/// The statement of a task that is there and goes on, whether it may execute it now or not, and the private ones around it.
pub fn work_of(program: &Program, core: &Core, task: &TaskName) -> Result<Work, AllocError>
    requires fits { Fits program.now core.now.run }
    requires there { IsTrue (is_spawned (history core.now.run) task.now) }
    requires going { IsFalse (has_ended core.now.run task.now) }
    ensures { IfOk result (IsWorkOf program.now core.now.run task.now) }
{
    let Situated { instr, config } = situated_of(program, core, task)?;
    let strip = strip_at(program, config.at);
    Ok(Work {
        instr,
        config,
        strip,
    })
}

/// The statement of a task that is there and goes on, whether it may execute it now or not.
pub fn situated_of(program: &Program, core: &Core, task: &TaskName) -> Result<Situated, AllocError>
    requires fits { Fits program.now core.now.run }
    requires there { IsTrue (is_spawned (history core.now.run) task.now) }
    requires going { IsFalse (has_ended core.now.run task.now) }
    ensures { IfOk result (IsSituatedOf program.now core.now.run task.now) }
{
    match core.config(task)? {
        Some(config) => situated_at(program, core, config),
        None => unreachable!(),
    }
}

/// The statement at which a task is that isn't over.
fn situated_at(program: &Program, core: &Core, config: Config) -> Result<Situated, AllocError>
    requires fits { Fits program.now core.now.run }
    requires here { config ≡ config_of core.now.run config.task }
    requires going { IsFalse (has_ended core.now.run config.task) }
    ensures { IfOk result (IsSituatedOf program.now core.now.run config.task) }
{
    match program.instr(config.at) {
        Some(instr) => Ok(Situated {
            instr: instr.clone()?,
            config,
        }),
        None => unreachable!(),
    }
}

/// The private statements around a line of the program at which a task can be.
pub fn strip_at(program: &Program, at: u32) -> Strip
    requires { IsPosition program.now at }
    ensures { IsStripOf program.now at result }
{
    // for the proof: what the program retains of its lines
    let _lines = program.line_count();
    strip_around(program, at)
}
