//! Whether two instructions are the same.

ghost use Rattle.std.specs.Prelude.{◌≡◌, ◌↔◌, IsTrue};
ghost use Rattle.tb_next.specs.Statements.{IsCompute, IsTask};

use tb_model::{Clause, Condition, Operand, Statement};
use tb_plan::Instr;

/// Whether the instructions are at one line, say the same and lead to the same lines.
pub fn is_same_instr(a: &Instr, b: &Instr) -> bool
    ensures { IsTrue result ↔ (a.now ≡ b.now) }
{
    a.line == b.line
        && a.next == b.next
        && a.otherwise == b.otherwise
        && a.cells == b.cells
        && is_same_statement(&a.statement, &b.statement)
}

fn is_same_statement(a: &Statement, b: &Statement) -> bool
    ensures { IsTrue result ↔ (a.now ≡ b.now) }
{
    match (a, b) {
        (
            Statement::Let { reg, value },
            Statement::Let {
                reg: other,
                value: operand,
            },
        ) => reg == other && value == operand,
        (Statement::Compute { .. }, Statement::Compute { .. }) => is_same_compute(a, b),
        (
            Statement::Load { reg, address },
            Statement::Load {
                reg: other,
                address: operand,
            },
        ) => reg == other && address == operand,
        (
            Statement::Store { address, value },
            Statement::Store {
                address: place,
                value: operand,
            },
        ) => address == place && value == operand,
        (Statement::Print { value }, Statement::Print { value: operand }) => value == operand,
        (Statement::Task { .. }, Statement::Task { .. }) => is_same_task(a, b),
        (Statement::Taskwait { depends }, Statement::Taskwait { depends: clauses }) => {
            are_same_clauses(depends.as_slice(), clauses.as_slice())
        }
        (Statement::Test { condition }, Statement::Test { condition: test }) => condition == test,
        (Statement::Start, Statement::Start)
        | (Statement::Taskgroup, Statement::Taskgroup)
        | (Statement::EndTaskgroup, Statement::EndTaskgroup)
        | (Statement::End, Statement::End) => true,
        _ => false,
    }
}

/// Whether both are a `let` with an operator, and the same.
fn is_same_compute(a: &Statement, b: &Statement) -> bool
    ensures same { IsTrue result → a.now ≡ b.now }
    ensures found { IsCompute a.now → a.now ≡ b.now → IsTrue result }
{
    match (a, b) {
        (
            Statement::Compute {
                reg,
                left,
                operator,
                right,
            },
            Statement::Compute {
                reg: other,
                left: first,
                operator: sign,
                right: second,
            },
        ) => reg == other && left == first && operator == sign && right == second,
        _ => false,
    }
}

/// Whether both are a `task` line, and the same.
fn is_same_task(a: &Statement, b: &Statement) -> bool
    ensures same { IsTrue result → a.now ≡ b.now }
    ensures found { IsTask a.now → a.now ≡ b.now → IsTrue result }
{
    match (a, b) {
        (
            Statement::Task {
                body,
                args,
                depends,
                condition,
            },
            Statement::Task {
                body: line,
                args: operands,
                depends: clauses,
                condition: test,
            },
        ) => {
            body == line
                && are_same_operands(args.as_slice(), operands.as_slice())
                && are_same_clauses(depends.as_slice(), clauses.as_slice())
                && is_same_test(&condition.get(), &test.get())
        }
        _ => false,
    }
}

fn are_same_operands(a: &[Operand], b: &[Operand]) -> bool
    ensures { IsTrue result ↔ (a.now ≡ b.now) }
{
    if a.len() != b.len() {
        return false;
    }
    for at in 0..a.len() {
        if a[at] != b[at] {
            return false;
        }
    }
    true
}

fn are_same_clauses(a: &[Clause], b: &[Clause]) -> bool
    ensures { IsTrue result ↔ (a.now ≡ b.now) }
{
    if a.len() != b.len() {
        return false;
    }
    for at in 0..a.len() {
        if a[at] != b[at] {
            return false;
        }
    }
    true
}

fn is_same_test(a: &Option<Condition>, b: &Option<Condition>) -> bool
    ensures { IsTrue result ↔ (a.now ≡ b.now) }
{
    a == b
}
