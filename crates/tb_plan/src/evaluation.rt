//! Evaluates one statement for one task.

ghost use Rattle.std.specs.Prelude.{◌≡◌, ℕ, ℤ, List, length, map, IfOk, IfSome, IsTrue, ◌<◌, ◌≤◌};
ghost use Rattle.std.specs.List.{list_all};
ghost use Rattle.tb_model.specs.Program.{value, computed, compared, is_met, is_deferred, cell_at, place_at, items_at, action_of, zero_ℤ};
ghost use Rattle.tb_model.specs.Names.{child};
ghost use Rattle.tb_model.specs.declared.action.Action.TheVariants.{Spawn as AsSpawn};
ghost use Rattle.tb_model.specs.declared.statement.Statement.TheVariants.{Load as AsLoad, Store as AsStore, Taskwait as AsTaskwait};
ghost use Rattle.tb_plan.specs.Statements.{is_sound};
ghost use Rattle.tb_plan.specs.Plans.{is_place, is_placed, names_allowed, line_behind, IsActionOf};
ghost use Rattle.tb_plan.specs.declared.config.Config.{Config as Situation};

use crate::config::Config;
use crate::instr::Instr;
use crate::planned::Plan;
use std::alloc::{AllocError, Global};
use tb_model::{
    Action, Address, Args, Clause, Comparison, Condition, Item, Items, Operand, Operator, Place,
    Spawn, Spawned, Statement, TaskName, WaitItems,
};

/// The value of an operand.
#[inline(always)]
fn value(regs: &[i64; 16], operand: Operand) -> i64
    ensures { result ≡ value regs.now operand }
{
    match operand {
        Operand::Number(x) => x,
        Operand::Register(reg) => regs.get(reg as usize).copied().unwrap_or(0),
    }
}

#[inline(always)]
fn computed(operator: Operator, left: i64, right: i64) -> i64
    ensures { result ≡ computed operator left right }
{
    match operator {
        Operator::Plus => left.wrapping_add(right),
        Operator::Minus => left.wrapping_sub(right),
        Operator::Times => left.wrapping_mul(right),
    }
}

#[inline(always)]
fn computed_by(regs: &[i64; 16], operator: Operator, left: Operand, right: Operand) -> i64
    ensures { result ≡ computed operator (value regs.now left) (value regs.now right) }
{
    computed(operator, value(regs, left), value(regs, right))
}

#[inline(always)]
fn compared(comparison: Comparison, left: i64, right: i64) -> bool
    ensures { result ≡ compared comparison left right }
{
    match comparison {
        Comparison::Equal => left == right,
        Comparison::Unequal => left != right,
        Comparison::Less => left < right,
        Comparison::AtMost => left <= right,
    }
}

#[inline(always)]
fn is_met(regs: &[i64; 16], condition: Condition) -> bool
    ensures { result ≡ is_met regs.now condition }
{
    compared(
        condition.comparison,
        value(regs, condition.left),
        value(regs, condition.right),
    )
}

/// Whether a task is deferred by its `if` clause (OpenMP 5.2, section 12.5).
fn is_deferred(regs: &[i64; 16], clause: Option<Condition>) -> bool
    ensures { result ≡ is_deferred regs.now clause }
{
    match clause {
        Some(condition) => is_met(regs, condition),
        None => true,
    }
}

/// The cell at an address, where it is one of that many.
fn cell_at(cells: u32, address: i64) -> Option<u32>
    ensures cell { (all : List ℤ) → length all ≡ cells → result ≡ cell_at all address }
    ensures within { IfSome result (λ cell. cell < cells) }
{
    match u32::try_from(address) {
        Ok(cell) if cell < cells => Some(cell),
        _ => None,
    }
}

/// What an address names, where it is good.
fn place_at(cells: u32, regs: &[i64; 16], address: Address) -> Option<Place>
    ensures place { (all : List ℤ) → length all ≡ cells → result ≡ place_at all regs.now address }
    ensures within { IfSome result (λ place. IsTrue (is_place cells place)) }
{
    match address {
        Address::All => Some(Place::All),
        Address::Cell(operand) => match cell_at(cells, value(regs, operand)) {
            Some(cell) => Some(Place::Cell(cell)),
            None => None,
        },
    }
}

/// The items of depend clauses, where all their addresses are good.
fn items_at(
    alloc: Global,
    cells: u32,
    regs: &[i64; 16],
    clauses: &[Clause],
) -> Result<Option<Items>, AllocError>
    ensures items { (all : List ℤ) → length all ≡ cells → IfOk result (λ found. found ≡ items_at all regs.now clauses.now) }
    ensures within { IfOk result (λ found. IfSome found (λ items. IsTrue (list_all (is_placed cells) items))) }
{
    let mut items = Items::new(alloc);
    for clause in clauses {
        match place_at(cells, regs, clause.address) {
            Some(place) => items.push(Item {
                kind: clause.kind,
                place,
            })?,
            None => return Ok(None),
        }
    }
    Ok(Some(items))
}

fn args_at(alloc: Global, regs: &[i64; 16], operands: &[Operand]) -> Result<Args, AllocError>
    ensures { IfOk result (λ args. args ≡ map (value regs.now) operands.now) }
{
    let mut args = Args::new(alloc);
    for operand in operands {
        args.push(value(regs, *operand))?;
    }
    Ok(args)
}

fn let_action(reg: u8, value: i64) -> Action
    ensures { result ≡ Action.Let reg value }
{
    Action::Let { reg, value }
}

/// A load of the cell at an address. The number is read when the step is executed.
fn load_action(cells: u32, regs: &[i64; 16], reg: u8, address: Operand) -> Action
    requires { reg < 16 }
    ensures evaluated { (all : List ℤ) (t : List ℕ) → length all ≡ cells → result ≡ action_of all t 1 regs.now zero_ℤ (AsLoad reg address) }
    ensures allowed { IsTrue (names_allowed cells result) }
{
    match cell_at(cells, value(regs, address)) {
        Some(cell) => Action::Load {
            reg,
            cell,
            value: 0,
        },
        None => Action::Fault,
    }
}

fn store_action(cells: u32, regs: &[i64; 16], address: Operand, operand: Operand) -> Action
    ensures evaluated { (all : List ℤ) (t : List ℕ) → length all ≡ cells → result ≡ action_of all t 1 regs.now zero_ℤ (AsStore address operand) }
    ensures allowed { IsTrue (names_allowed cells result) }
{
    match cell_at(cells, value(regs, address)) {
        Some(cell) => Action::Store {
            cell,
            value: value(regs, operand),
        },
        None => Action::Fault,
    }
}

fn wait_action(
    alloc: Global,
    cells: u32,
    regs: &[i64; 16],
    depends: &[Clause],
) -> Result<Action, AllocError>
    ensures evaluated { (all : List ℤ) (t : List ℕ) → length all ≡ cells → IfOk result (λ a. a ≡ action_of all t 1 regs.now zero_ℤ (AsTaskwait depends.now)) }
    ensures allowed { IfOk result (λ a. IsTrue (names_allowed cells a)) }
{
    Ok(match items_at(alloc, cells, regs, depends)? {
        Some(items) => Action::Wait {
            items: WaitItems::new(alloc, items)?,
        },
        None => Action::Fault,
    })
}

/// A spawn of the task's first child.
fn spawn_action(
    alloc: Global,
    task: &TaskName,
    body: u32,
    args: Args,
    items: Items,
    deferred: bool,
) -> Result<Action, AllocError>
    ensures { IfOk result (λ a. a ≡ AsSpawn (record { child = child task.now 1; body = body; args = args; items = items; deferred = deferred })) }
{
    let spawn = Spawn {
        child: task.child(1)?,
        body,
        args,
        items,
        deferred,
    };
    Ok(Action::Spawn(Spawned::new(alloc, spawn)?))
}

/// The action that a statement makes for a task with these registers.
#[inline(always)]
fn action(
    alloc: Global,
    statement: &Statement,
    cells: u32,
    task: &TaskName,
    regs: &[i64; 16],
) -> Result<Action, AllocError>
    requires { IsTrue (is_sound statement.now) }
    ensures evaluated { (all : List ℤ) → length all ≡ cells → IfOk result (λ a. a ≡ action_of all task.now 1 regs.now zero_ℤ statement.now) }
    ensures allowed { IfOk result (λ a. IsTrue (names_allowed cells a)) }
{
    match statement {
        Statement::Start => Ok(Action::Start),
        Statement::Let {
            reg,
            value: operand,
        } => Ok(let_action(*reg, value(regs, *operand))),
        Statement::Compute {
            reg,
            left,
            operator,
            right,
        } => Ok(let_action(*reg, computed_by(regs, *operator, *left, *right))),
        Statement::Load { reg, address } => Ok(load_action(cells, regs, *reg, *address)),
        Statement::Store { address, value } => Ok(store_action(cells, regs, *address, *value)),
        Statement::Print { value: operand } => Ok(Action::Print {
            value: value(regs, *operand),
        }),
        Statement::Task {
            body,
            args,
            depends,
            condition,
        } => match items_at(alloc, cells, regs, depends.as_slice())? {
            Some(items) => {
                let args = args_at(alloc, regs, args.as_slice())?;
                spawn_action(
                    alloc,
                    task,
                    *body,
                    args,
                    items,
                    is_deferred(regs, condition.get()),
                )
            }
            None => Ok(Action::Fault),
        },
        Statement::Taskwait { depends } => wait_action(alloc, cells, regs, depends.as_slice()),
        Statement::Taskgroup => Ok(Action::Open),
        Statement::EndTaskgroup => Ok(Action::Close),
        Statement::Test { condition } => Ok(Action::Test {
            yes: is_met(regs, *condition),
        }),
        Statement::End => Ok(Action::End),
    }
}

/// The action that the statement of an instruction makes for a task with these registers.
#[inline(always)]
pub fn evaluate(
    alloc: Global,
    instr: &Instr,
    task: &TaskName,
    regs: &[i64; 16],
) -> Result<Action, AllocError>
    ensures evaluated { IfOk result (IsActionOf instr.now task.now regs.now) }
    ensures allowed { IfOk result (λ a. IsTrue (names_allowed instr.now.cells a)) }
{
    action(alloc, &instr.statement, instr.cells, task, regs)
}

/// The line at which the action leaves a task that was at this one, at the instruction. A task that
/// is over retains its line.
#[inline]
pub fn line_behind(instr: &Instr, at: u32, action: &Action) -> u32
    ensures { (c : Situation) → c.at ≡ at → result ≡ line_behind instr.now c action.now }
{
    match action {
        Action::Fault | Action::End => at,
        Action::Test { yes: false } => instr.otherwise,
        _ => instr.next,
    }
}

/// Evaluates the statement of an instruction for the task that is at its line.
pub fn plan(alloc: Global, instr: &Instr, config: &Config) -> Result<Plan, AllocError>
    requires { instr.now.line ≡ config.now.at }
    ensures instr { IfOk result (λ p. p.instr ≡ instr.now) }
    ensures config { IfOk result (λ p. p.config ≡ config.now) }
{
    Ok(Plan {
        instr: instr.clone()?,
        config: config.clone()?,
        action: evaluate(alloc, instr, &config.task, &config.regs)?,
    })
}
