//! A statement as it is written, but for a task's body, which is shown by its line.

use std::alloc::AllocError;
use tb_model::{Address, Clause, Comparison, Condition, Kind, Operand, Operator, Statement};

fn append_operand(text: &mut String, operand: Operand) -> Result<(), AllocError> {
    match operand {
        Operand::Number(x) => write!(text, " {x}"),
        Operand::Register(reg) => write!(text, " r{reg}"),
    }
}

fn operator_text(operator: Operator) -> &'static str {
    match operator {
        Operator::Plus => "+",
        Operator::Minus => "-",
        Operator::Times => "*",
    }
}

fn comparison_text(comparison: Comparison) -> &'static str {
    match comparison {
        Comparison::Equal => "==",
        Comparison::Unequal => "!=",
        Comparison::Less => "<",
        Comparison::AtMost => "<=",
    }
}

fn kind_text(kind: Kind) -> &'static str {
    match kind {
        Kind::In => "in",
        Kind::Out => "out",
        Kind::Inout => "inout",
        Kind::Mutexinoutset => "mutexinoutset",
        Kind::Inoutset => "inoutset",
    }
}

fn append_condition(text: &mut String, condition: Condition) -> Result<(), AllocError> {
    append_operand(text, condition.left)?;
    write!(text, " {}", comparison_text(condition.comparison))?;
    append_operand(text, condition.right)
}

fn append_clauses(text: &mut String, clauses: &[Clause]) -> Result<(), AllocError> {
    for clause in clauses {
        write!(text, " depend {}", kind_text(clause.kind))?;
        match clause.address {
            Address::Cell(operand) => append_operand(text, operand)?,
            Address::All => text.push_str(" all")?,
        }
    }
    Ok(())
}

fn append_task(
    text: &mut String,
    body: u32,
    args: &[Operand],
    depends: &[Clause],
    condition: Option<Condition>,
) -> Result<(), AllocError> {
    write!(text, "task {body}")?;
    for operand in args {
        append_operand(text, *operand)?;
    }
    append_clauses(text, depends)?;
    match condition {
        Some(condition) => {
            text.push_str(" if")?;
            append_condition(text, condition)
        }
        None => Ok(()),
    }
}

fn append_let(text: &mut String, reg: u8, value: Operand) -> Result<(), AllocError> {
    write!(text, "let r{reg}")?;
    append_operand(text, value)
}

fn append_compute(
    text: &mut String,
    reg: u8,
    left: Operand,
    operator: Operator,
    right: Operand,
) -> Result<(), AllocError> {
    append_let(text, reg, left)?;
    write!(text, " {}", operator_text(operator))?;
    append_operand(text, right)
}

fn append_load(text: &mut String, reg: u8, address: Operand) -> Result<(), AllocError> {
    write!(text, "load r{reg}")?;
    append_operand(text, address)
}

fn append_store(text: &mut String, address: Operand, value: Operand) -> Result<(), AllocError> {
    text.push_str("store")?;
    append_operand(text, address)?;
    append_operand(text, value)
}

fn append_print(text: &mut String, value: Operand) -> Result<(), AllocError> {
    text.push_str("print")?;
    append_operand(text, value)
}

fn append_wait(text: &mut String, depends: &[Clause]) -> Result<(), AllocError> {
    text.push_str("taskwait")?;
    append_clauses(text, depends)
}

fn append_test(text: &mut String, condition: Condition) -> Result<(), AllocError> {
    text.push_str("test")?;
    append_condition(text, condition)
}

/// Appends a statement.
pub(crate) fn append_statement(text: &mut String, statement: &Statement) -> Result<(), AllocError> {
    match statement {
        Statement::Start => text.push_str("body"),
        Statement::Let { reg, value } => append_let(text, *reg, *value),
        Statement::Compute {
            reg,
            left,
            operator,
            right,
        } => append_compute(text, *reg, *left, *operator, *right),
        Statement::Load { reg, address } => append_load(text, *reg, *address),
        Statement::Store { address, value } => append_store(text, *address, *value),
        Statement::Print { value } => append_print(text, *value),
        Statement::Task {
            body,
            args,
            depends,
            condition,
        } => append_task(
            text,
            *body,
            args.as_slice(),
            depends.as_slice(),
            condition.get(),
        ),
        Statement::Taskwait { depends } => append_wait(text, depends.as_slice()),
        Statement::Taskgroup => text.push_str("taskgroup"),
        Statement::EndTaskgroup => text.push_str("end taskgroup"),
        Statement::Test { condition } => append_test(text, *condition),
        Statement::End => text.push_str("end"),
    }
}
