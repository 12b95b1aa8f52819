//! Evaluates private statements one after another, for one task.

ghost use Rattle.std.specs.Prelude.{◌≡◌, IfOk};
ghost use Rattle.tb_plan.specs.Bursts.{IsBurst, IsFollower, config_behind, regs_behind};

use crate::config::Config;
use crate::evaluation::{evaluate, plan};
use crate::instr::Instr;
use crate::planned::Plan;
use crate::private_instr::instr_of;
use crate::strip::Strip;
use std::alloc::{AllocError, Global};
use tb_model::Action;

/// The task's registers after a `let` or a test.
fn regs_behind(plan: &Plan) -> Option<[i64; 16]>
    ensures { result ≡ regs_behind plan.now }
{
    let mut regs = plan.config.regs;
    match &plan.action {
        Action::Let { reg, value } => {
            regs[*reg as usize] = *value;
            Some(regs)
        }
        Action::Test { .. } => Some(regs),
        _ => None,
    }
}

/// The task's situation after a `let` or a test, where its steps can be counted.
fn config_behind(plan: &Plan) -> Result<Option<Config>, AllocError>
    ensures { IfOk result (λ c. c ≡ config_behind plan.now) }
{
    let Some(regs) = regs_behind(plan) else {
        return Ok(None);
    };
    if plan.config.steps == u32::MAX {
        return Ok(None);
    }
    Ok(Some(Config {
        task: plan.config.task.clone()?,
        steps: plan.config.steps + 1,
        at: plan.to(),
        regs,
    }))
}

/// Evaluates the statement of an instruction for the task that is at its line.
fn planned(alloc: Global, instr: Instr, config: Config) -> Result<Plan, AllocError>
    requires { instr.line ≡ config.at }
    ensures instr { IfOk result (λ p. p.instr ≡ instr) }
    ensures config { IfOk result (λ p. p.config ≡ config) }
{
    let action = evaluate(alloc, &instr, &config.task, &config.regs)?;
    Ok(Plan {
        instr,
        config,
        action,
    })
}

/// The plan that follows, where this one's statement is private and so is the next, in the strip.
fn follower(alloc: Global, strip: &Strip, plan: &Plan) -> Result<Option<Plan>, AllocError>
    ensures { IfOk result (IsFollower strip.now plan.now) }
{
    let Some(config) = config_behind(plan)? else {
        return Ok(None);
    };
    let Some(line) = strip.at(config.at) else {
        return Ok(None);
    };
    let instr = instr_of(line, config.at, plan.instr.cells);
    Ok(Some(planned(alloc, instr, config)?))
}

/// Evaluates the statement of an instruction for the task that is at its line, and the private
/// statements of the strip that follow it.
pub fn plan_burst(
    alloc: Global,
    instr: &Instr,
    strip: &Strip,
    config: &Config,
) -> Result<Vec<Plan>, AllocError>
    requires { instr.now.line ≡ config.now.at }
    ensures { IfOk result (λ plans. IsBurst 63 strip.now instr.now config.now plans.items) }
{
    let mut plans = Vec::new(alloc);
    let mut last = plan(alloc, instr, config)?;
    for _ in 0..63u32 {
        match follower(alloc, strip, &last)? {
            Some(next) => {
                plans.push(last)?;
                last = next;
            }
            None => break,
        }
    }
    plans.push(last)?;
    Ok(plans)
}
