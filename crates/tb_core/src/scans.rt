//! What the events in front of a step say of a task, found by a scan from the newest stored step.

ghost use Rattle.std.specs.Prelude.{◌≡◌, ◌∷◌, List};
ghost use Rattle.tb_model.specs.declared.action.Action.{Action};
ghost use Rattle.tb_model.specs.Facts;
ghost use Rattle.tb_steps.specs.Scans.{AreLegal, history_of};

use crate::history::History;
use tb_model::{Action, TaskName};

/// Whether the newest action of `t` generated the undeferred child `u`.
#[tactic(auto, using(tb_steps::proofs::NeedsLemmas::held_within))]
pub fn holds(front: &History<'_>, t: &TaskName, u: &TaskName) -> bool
    ensures { AreLegal front.now →
        result ≡ Facts.holds (Facts.own t.now (history_of front.now)) u.now }
{
    // Comparing the names is cheap.
    t.is_parent_of(u) && newest_generated(front, t, u)
}

fn newest_generated(front: &History<'_>, t: &TaskName, u: &TaskName) -> bool
    ensures { result ≡ Facts.holds (Facts.own t.now (history_of front.now)) u.now }
{
    let mut rest = front.again();
    'back: while let Some((older, task, action)) = rest.split_newest() {
        if *task == *t {
            return is_undeferred(action, u);
        }
        rest = older;
    }
    false
}

fn is_undeferred(action: &Action, u: &TaskName) -> bool
    ensures { (acts : List Action) → result ≡ Facts.holds (action.now ∷ acts) u.now }
{
    match action {
        Action::Spawn(spawned) => {
            let spawn = spawned.get();
            !spawn.deferred && spawn.child == *u
        }
        _ => false,
    }
}

/// Whether the task is a member of the innermost group that `t` has open.
#[tactic(auto, using(tb_steps::proofs::NeedsLemmas::member_within))]
pub fn is_member(front: &History<'_>, t: &TaskName, m: &TaskName) -> bool
    ensures { AreLegal front.now →
        result ≡ Facts.is_member (Facts.own t.now (history_of front.now)) m.now }
{
    // Comparing the names is cheap.
    m.is_within(t) && is_in_innermost(front, t, m)
}

fn is_in_innermost(front: &History<'_>, t: &TaskName, m: &TaskName) -> bool
    ensures { result ≡ Facts.is_member (Facts.own t.now (history_of front.now)) m.now }
{
    let mut rest = front.again();
    let mut closed = 0_usize;
    let mut found = false;
    'back: while let Some((older, task, action)) = rest.split_newest() {
        if *task == *t {
            match action {
                Action::Open => {
                    if closed == 0 {
                        return found;
                    }
                    closed -= 1;
                }
                Action::Close => closed += 1,
                Action::Spawn(spawned) => {
                    if m.is_within(&spawned.get().child) {
                        found = true;
                    }
                }
                _ => {}
            }
        }
        rest = older;
    }
    false
}
