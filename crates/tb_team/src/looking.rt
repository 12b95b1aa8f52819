//! Looks through what workers left.

ghost use Rattle.std.specs.Prelude.{◌≡◌, ◌-◌, ◌<◌, ◌≤◌, ◌↔◌, IsTrue, is_some, not, length, take, drop, get_or};
ghost use Rattle.std.specs.List.{list_all};
ghost use Rattle.tb_steps.specs.Entries.{Entry as Step};
ghost use Rattle.tb_live.specs.Breaks.{met};
ghost use Rattle.tb_live.specs.Session.{history};
ghost use Rattle.tb_journal.specs.Journals.{is_turn};
ghost use Rattle.tb_team.specs.Looking.{is_met, meets_newest, none_met, IsCourse};
ghost use Rattle.tb_work.specs.Changes.{entries};

use tb_core::History;
use tb_live::{Breakpoint, Live};
use tb_model::{Action, TaskName};

/// Whether a step of the task with this action meets a breakpoint. The task was at this line.
fn meets_some(points: &[Breakpoint], line: u32, task: &TaskName, action: &Action) -> bool
    ensures { result ≡ is_some (met line (record { task = task.now; action = action.now }) points.now) }
{
    for point in points {
        if point.at.meets(line, task, action) {
            return true;
        }
    }
    false
}

/// Whether the step at this index met a breakpoint, by its own record.
fn is_met(points: &[Breakpoint], steps: &History<'_>, at: usize) -> bool
    requires { at < length steps.now }
    ensures { (step : Step) → step ≡ get_or steps.now at step → result ≡ is_met points.now step }
{
    meets_some(points, steps.line(at), steps.task(at), steps.action(at))
}

/// Whether none of the steps from the one index on met a breakpoint, as far as the other.
fn none_met(points: &[Breakpoint], steps: &History<'_>, from: usize, to: usize) -> bool
    requires rises { from ≤ to }
    requires within { to ≤ length steps.now }
    ensures { result ≡ list_all (λ step. not (is_met points.now step)) (take (to - from) (drop from steps.now)) }
{
    for at in from..to {
        if is_met(points, steps, at) {
            return false;
        }
    }
    true
}

/// Whether the entries of the journal from the slot on are turns of so many workers.
fn are_turns_from(live: &Live, workers: u32, from: usize) -> bool
    requires { from ≤ length live.now.session.journal }
    ensures { result ≡ list_all (is_turn workers) (drop from (entries live.now.session)) }
{
    live.journal().are_turns(workers, from)
}

/// Whether none of so many of the newest steps met a breakpoint, the newest aside.
fn none_met_before(live: &Live, count: usize) -> bool
    requires { count ≤ length (history live.now.session) }
    ensures { result ≡ none_met live.now.session.program
        live.now.session.control.breakpoints.standing (count - 1) (drop 1 (history live.now.session)) }
{
    if count < 2 {
        return true;
    }
    let steps = live.core().legal_entries();
    let all = steps.len();
    none_met(live.breakpoints(), &steps, all - count, all - 1)
}

/// Whether the newest step met a breakpoint.
pub fn newest_is_met(live: &Live) -> bool
    ensures { result ≡ meets_newest live.now.session.program live.now.session.control.breakpoints.standing (history live.now.session) }
{
    let steps = live.core().legal_entries();
    let all = steps.len();
    if all == 0 {
        return false;
    }
    is_met(live.breakpoints(), &steps, all - 1)
}

/// Whether the entries from the slot on are turns of so many workers, and no step but the newest
/// met a breakpoint.
pub fn is_course(live: &Live, workers: u32, from: usize) -> bool
    requires { from ≤ length live.now.session.journal }
    ensures { IsTrue result ↔ IsCourse workers from live.now.session }
{
    if !are_turns_from(live, workers, from) {
        return false;
    }
    none_met_before(live, live.journal().len() - from)
}
