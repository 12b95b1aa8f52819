//! Whether a task can step and what blocks that, found without memory: where it is refused for what
//! the task's statement evaluates to.

ghost use Rattle.std.specs.Prelude.{◌≡◌, IfNone, IfSome, IsTrue, IsFalse, None, is_some, option_map};
ghost use Rattle.std.specs.List.{list_any, list_all};
ghost use Rattle.tb_model.specs.Facts.{is_spawned};
ghost use Rattle.tb_model.specs.Program.{value, cell_at, place_at, items_at};
ghost use Rattle.tb_model.specs.Hindrances.{Children as TheChildren, can_step, in_the_way, least_ready, refusal_of};
ghost use Rattle.tb_core.specs.Naming.{config_with, IsNamed};
ghost use Rattle.tb_core.specs.Outcomes.{has_ended, IsKeptBy};
ghost use Rattle.tb_core.specs.Seen.{history};
ghost use Rattle.tb_core.specs.Situation.{config_of};
ghost use Rattle.tb_next.specs.Fitting.{Fits};
ghost use Rattle.tb_next.specs.Unevaluated.{follows_some, hindrance_at, holding, is_good, is_named, stand_in, waited_for, IsKeptAt, IsNaming, IsWanting, IsLeastWanting};

use tb_core::{Core, StepRefusal};
use tb_model::{Action, Address, Clause, Item, Operand, Place, Statement, TaskName, some_before};
use tb_read::Program;
use tb_undo::Standing;

/// Why a task that goes on executes no step where memory was refused for its statement: what blocks
/// its step comes first, then a full journal.
#[inline(never)]
pub fn wanting(program: &Program, core: &Core, full: bool, task: &TaskName) -> StepRefusal
    requires fits { Fits program.now core.now.run }
    requires there { IsTrue (is_spawned (history core.now.run) task.now) }
    requires going { IsFalse (has_ended core.now.run task.now) }
    ensures { IsWanting program.now core.now.run full task.now result }
{
    let Some(standing) = core.standing(task) else {
        unreachable!();
    };
    match kept_from(program, core, task, &standing) {
        Some(refusal) => refusal,
        None => {
            if full {
                StepRefusal::Full
            } else {
                StepRefusal::Memory
            }
        }
    }
}

/// Why no least task that can step is returned where memory was refused in the look for it: a full
/// journal comes first.
#[inline(never)]
pub fn least_wanting(program: &Program, core: &Core, full: bool) -> StepRefusal
    requires { Fits program.now core.now.run }
    ensures { IsLeastWanting program.now core.now.run full result }
{
    if full && some_can_step(program, core) {
        StepRefusal::Full
    } else {
        StepRefusal::Memory
    }
}

fn some_can_step(program: &Program, core: &Core) -> bool
    requires { Fits program.now core.now.run }
    ensures { result ≡ is_some (least_ready program.now (history core.now.run)) }
{
    let mut after: Option<&TaskName> = None;
    'tasks: while let Some(task) = core.next_unended(after) {
        if can_step(program, core, task) {
            return true;
        }
        after = Some(task);
    }
    false
}

/// Whether the task can step, a full journal aside.
fn can_step(program: &Program, core: &Core, task: &TaskName) -> bool
    requires { Fits program.now core.now.run }
    ensures { result ≡ can_step program.now (history core.now.run) task.now }
{
    let Some(standing) = core.standing(task) else {
        return false;
    };
    if core.has_ended(task) {
        return false;
    }
    kept_from(program, core, task, &standing).is_none()
}

/// What blocks the step of a task with this situation, which isn't over, by name.
fn kept_from(
    program: &Program,
    core: &Core,
    task: &TaskName,
    standing: &Standing<'_>,
) -> Option<StepRefusal>
    requires fits { Fits program.now core.now.run }
    requires there { IsTrue (is_spawned (history core.now.run) task.now) }
    requires going { IsFalse (has_ended core.now.run task.now) }
    requires here { config_of core.now.run task.now ≡ config_with task.now standing.now }
    ensures some { IfSome result (IsKeptAt program.now core.now.run task.now) }
    ensures none { IfNone result (refusal_of program.now (history core.now.run) task.now ≡ None) }
{
    match program.instr(standing.at()) {
        Some(instr) => kept_by(program, core, task, standing, &instr.statement),
        None => unreachable!(),
    }
}

/// What blocks this statement of a task with this situation, at which it is, by name.
fn kept_by(
    program: &Program,
    core: &Core,
    task: &TaskName,
    standing: &Standing<'_>,
    statement: &Statement,
) -> Option<StepRefusal>
    requires there { IsTrue (is_spawned (history core.now.run) task.now) }
    requires going { IsFalse (has_ended core.now.run task.now) }
    ensures some { IfSome result (IsNaming (hindrance_at program.now.cells (history core.now.run)
        task.now standing.now.regs statement.now)) }
    ensures none { IfNone result (hindrance_at program.now.cells (history core.now.run)
        task.now standing.now.regs statement.now ≡ None) }
{
    match kept_in_front(core, task, standing, statement) {
        Some(refusal) => Some(refusal),
        None => held_up(program, core, task, standing.regs(), statement),
    }
}

/// What blocks the task's statement, but for what a `taskwait` waits for.
fn kept_in_front(
    core: &Core,
    task: &TaskName,
    standing: &Standing<'_>,
    statement: &Statement,
) -> Option<StepRefusal>
    requires there { IsTrue (is_spawned (history core.now.run) task.now) }
    requires going { IsFalse (has_ended core.now.run task.now) }
    ensures some { IfSome result (IsKeptBy core.now.run task.now (stand_in statement.now)) }
    ensures none { IfNone result (in_the_way (history core.now.run) task.now
        (stand_in statement.now) ≡ None) }
{
    match statement {
        Statement::Start => core.hindrance(standing, task, &Action::Start),
        Statement::EndTaskgroup => core.hindrance(standing, task, &Action::Close),
        _ => core.hindrance(standing, task, &Action::Open),
    }
}

/// The least child for which the statement waits, where it is a `taskwait`.
fn held_up(
    program: &Program,
    core: &Core,
    task: &TaskName,
    regs: &[i64; 16],
    statement: &Statement,
) -> Option<StepRefusal>
    ensures some { IfSome result (IsNaming (option_map TheChildren (holding program.now.cells
        (history core.now.run) task.now regs.now statement.now))) }
    ensures none { IfNone result (holding program.now.cells (history core.now.run) task.now
        regs.now statement.now ≡ None) }
{
    match statement {
        Statement::Taskwait { depends } => waits(program, core, task, regs, depends.as_slice()),
        _ => None,
    }
}

/// The least child for which a `taskwait` with these clauses waits. A bad address is a fault, which doesn't.
fn waits(
    program: &Program,
    core: &Core,
    task: &TaskName,
    regs: &[i64; 16],
    clauses: &[Clause],
) -> Option<StepRefusal>
    ensures some { IfSome result (IsNaming (option_map TheChildren (waited_for
        (history core.now.run) task.now (items_at program.now.cells regs.now clauses.now)))) }
    ensures none { IfNone result (waited_for (history core.now.run) task.now
        (items_at program.now.cells regs.now clauses.now) ≡ None) }
{
    if !are_good(program, regs, clauses) {
        return None;
    }
    let mut after: Option<&TaskName> = None;
    'tasks: while let Some(child) = core.next_unended(after) {
        if is_named(program, core, task, regs, clauses, child) {
            return Some(waits_for(child));
        }
        after = Some(child);
    }
    None
}

/// The refusal that names the child.
fn waits_for(child: &TaskName) -> StepRefusal
    ensures { IsNamed (TheChildren child.now) result }
{
    match child.clone() {
        Ok(first) => StepRefusal::Children { first },
        Err(_) => StepRefusal::Memory,
    }
}

fn are_good(program: &Program, regs: &[i64; 16], clauses: &[Clause]) -> bool
    ensures { result ≡ list_all (is_good program.now.cells regs.now) clauses.now }
{
    clauses
        .iter()
        .all(|clause| place_at(program, regs, clause.address).is_some())
}

/// Whether it is a child of the task with an item on which one of the clauses depends, or any child
/// where there are no clauses.
fn is_named(
    program: &Program,
    core: &Core,
    task: &TaskName,
    regs: &[i64; 16],
    clauses: &[Clause],
    child: &TaskName,
) -> bool
    ensures { result ≡ is_named program.now.cells (history core.now.run) task.now regs.now clauses.now child.now }
{
    task.is_parent_of(child)
        && (clauses.is_empty() || some_follows(program, regs, clauses, core.items(child)))
}

fn some_follows(program: &Program, regs: &[i64; 16], clauses: &[Clause], earlier: &[Item]) -> bool
    ensures { result ≡ list_any (follows_some program.now.cells regs.now earlier.now) clauses.now }
{
    clauses
        .iter()
        .any(|clause| follows_some(program, regs, clause, earlier))
}

fn follows_some(program: &Program, regs: &[i64; 16], clause: &Clause, earlier: &[Item]) -> bool
    ensures { result ≡ follows_some program.now.cells regs.now earlier.now clause.now }
{
    match place_at(program, regs, clause.address) {
        Some(place) => {
            let kind = clause.kind;
            some_before(&[Item { kind, place }], earlier)
        }
        None => false,
    }
}

/// What an address names, where it is good.
fn place_at(program: &Program, regs: &[i64; 16], address: Address) -> Option<Place>
    ensures { result ≡ place_at program.now.cells regs.now address }
{
    match address {
        Address::All => Some(Place::All),
        Address::Cell(operand) => match cell_at(program, value(regs, operand)) {
            Some(cell) => Some(Place::Cell(cell)),
            None => None,
        },
    }
}

fn cell_at(program: &Program, address: i64) -> Option<u32>
    ensures { result ≡ cell_at program.now.cells address }
{
    let cells = program.cells();
    match u32::try_from(address) {
        Ok(cell) if (cell as usize) < cells.len() => Some(cell),
        _ => None,
    }
}

fn value(regs: &[i64; 16], operand: Operand) -> i64
    ensures { result ≡ value regs.now operand }
{
    match operand {
        Operand::Number(x) => x,
        Operand::Register(reg) => regs.get(reg as usize).copied().unwrap_or(0),
    }
}
