//! Which event of the stored steps needs which. What tasks named at their spawns is known to the
//! tables, and where a step may be needed mostly to the indexes; all else is found by scans. Memory
//! is taken for names alone, and where it is refused there is a scan too.

ghost use Rattle.std.specs.Prelude.{◌≡◌, ◌<◌, ◌≤◌, IfOk, IfSome, IsFalse, IsTrue, Some, length, take, get_or};
ghost use Rattle.tb_model.specs.declared.step_id.StepId.{StepId};
ghost use Rattle.tb_model.specs.Facts.{apart, before, covers, is_end, is_spawned};
ghost use Rattle.tb_model.specs.Needs;
ghost use Rattle.tb_model.specs.Needers;
ghost use Rattle.tb_steps.specs.Entries.{Entry as AnEntry};
ghost use Rattle.tb_core.specs.Lending.{IsNoneBetween};
ghost use Rattle.tb_core.specs.Needing.{NoStartWaits, NoneNeeds, NoneOf, may_wait_for, meets};
ghost use Rattle.tb_steps.specs.Scans.{AreLegal, history_of, step_at, found_step};

use crate::history::History;
use crate::scans::{holds, is_member};
use std::alloc::AllocError;
use tb_model::{Action, Item, TaskName, some_apart, some_before};

/// The index of the earliest stored step that needs the one at this index.
pub fn first_needer(entries: &History<'_>, at: usize) -> Option<usize>
    requires { at < length entries.now }
    ensures needer { (id : StepId) → AreLegal entries.now → step_at entries.now at ≡ Some id →
        found_step entries.now result ≡ Needers.first_needer id (history_of entries.now) }
    ensures within { IfSome result (λ by. by < length entries.now) }
{
    let end = entries.len();
    let mut later = next_chance(entries, at, at + 1);
    'forth: while later < end {
        if needs(entries, later, at) {
            return Some(later);
        }
        later = next_chance(entries, at, later + 1);
    }
    None
}

/// An index from this one on, in front of which no stored step needs the one at `at`. Unless that
/// is an end, what needs it is a step of its task, or one that has to do with what it did.
fn next_chance(entries: &History<'_>, at: usize, from: usize) -> usize
    requires at { at < from }
    requires from { from ≤ length entries.now }
    ensures from { from ≤ result }
    ensures within { result ≤ length entries.now }
    ensures none { NoneNeeds entries.now at from result }
{
    let action = entries.action(at);
    if action.is_end() {
        return next_wait(entries, at, from);
    }
    let own = entries.next_of(entries.task(at), from);
    own.min(next_met(entries, action, from))
}

/// Whether a start may wait for the end of the task of the step at this index: some sibling may
/// depend on it or exclude it.
fn is_met(entries: &History<'_>, at: usize) -> bool
    requires { at < length entries.now }
    ensures { IsFalse result → NoStartWaits entries.now at }
{
    entries.is_legal();
    entries.is_met(entries.task(at))
}

/// An index from this one on, in front of which no stored step needs the end at `at`. Where no start
/// may wait for it, only the steps of tasks above it are looked at. Those of a task far from the root
/// are not: each is found by a walk down to it.
fn next_wait(entries: &History<'_>, at: usize, from: usize) -> usize
    requires at { at < from }
    requires from { from ≤ length entries.now }
    requires end { (e : AnEntry) → e ≡ get_or entries.now at e → IsTrue (is_end e.event.action) }
    ensures from { from ≤ result }
    ensures within { result ≤ length entries.now }
    ensures none { NoneNeeds entries.now at from result }
{
    let is_met = is_met(entries, at);
    if is_met || entries.task(at).is_deep() {
        return scanned_wait(entries, at, from, is_met);
    }
    match next_above(entries, at, from) {
        Ok(next) => next,
        Err(_) => scanned_wait(entries, at, from, is_met),
    }
}

/// The first index from this one on at which the end at `at` is needed, for which no start waits, else
/// how many there are: what needs it is a step of its task or of one above.
fn next_above(entries: &History<'_>, at: usize, from: usize) -> Result<usize, AllocError>
    requires at { at < from }
    requires from { from ≤ length entries.now }
    requires end { (e : AnEntry) → e ≡ get_or entries.now at e → IsTrue (is_end e.event.action) }
    requires starts { NoStartWaits entries.now at }
    ensures from { IfOk result (λ next. from ≤ next) }
    ensures within { IfOk result (λ next. next ≤ length entries.now) }
    ensures none { IfOk result (λ next. NoneNeeds entries.now at from next) }
{
    entries.is_legal();
    let ended = entries.task(at);
    let mut next = entries.next_of(ended, from);
    let mut above = ended.parent()?;
    'up: while let Some(task) = above {
        next = next_needer_of(entries, at, &task, from, next);
        above = task.parent()?;
    }
    Ok(next)
}

/// The first index from `from` on at which a step of the task needs that at `at`, else the index `to`.
fn next_needer_of(
    entries: &History<'_>,
    at: usize,
    task: &TaskName,
    from: usize,
    to: usize,
) -> usize
    requires at { at < from }
    requires from { from ≤ to }
    requires to { to ≤ length entries.now }
    ensures from { from ≤ result }
    ensures to { result ≤ to }
    ensures none { NoneOf task.now entries.now at from result }
{
    let mut next = entries.next_of(task, from).min(to);
    'own: while next < to {
        if needs(entries, next, at) {
            return next;
        }
        next = entries.next_of(task, next + 1).min(to);
    }
    next
}

/// The first index from this one on at which the end at `at` may be waited for, else how many there
/// are.
fn scanned_wait(entries: &History<'_>, at: usize, from: usize, is_met: bool) -> usize
    requires at { at < from }
    requires from { from ≤ length entries.now }
    requires end { (e : AnEntry) → e ≡ get_or entries.now at e → IsTrue (is_end e.event.action) }
    requires starts { IsFalse is_met → NoStartWaits entries.now at }
    ensures from { from ≤ result }
    ensures within { result ≤ length entries.now }
    ensures none { NoneNeeds entries.now at from result }
{
    entries.is_legal();
    let ended = entries.task(at);
    let end = entries.len();
    let mut next = from;
    'past: while next < end {
        if may_wait_for(entries.action(next), entries.task(next), ended, is_met) {
            return next;
        }
        next += 1;
    }
    next
}

/// Whether the action of `t` may need the end of `u`, by what is read off the action and the names,
/// and by whether a start may.
#[inline(always)]
fn may_wait_for(action: &Action, t: &TaskName, u: &TaskName, is_met: bool) -> bool
    ensures { result ≡ may_wait_for is_met action.now t.now u.now }
{
    let waits = match action {
        Action::Start => is_met,
        Action::Wait { .. } | Action::Close => true,
        _ => false,
    };
    waits || t.is_parent_of(u) || *t == *u
}

/// The first index from this one on whose step has to do with the action, else how many there are.
fn next_met(entries: &History<'_>, action: &Action, from: usize) -> usize
    requires { from ≤ length entries.now }
    ensures from { from ≤ result }
    ensures within { result ≤ length entries.now }
    ensures none { IsNoneBetween (meets action.now) entries.now from result }
{
    match action {
        Action::Load { cell, .. } | Action::Store { cell, .. } => entries.next_touch(*cell, from),
        Action::Print { .. } => entries.next_print(from),
        Action::Spawn(spawned) => entries.next_of(&spawned.get().child, from),
        _ => entries.len(),
    }
}

/// Whether the step at the index `later` directly needs that at the index `earlier`.
pub fn needs(entries: &History<'_>, later: usize, earlier: usize) -> bool
    requires later { later < length entries.now }
    requires earlier { earlier < later }
    ensures { (v u : AnEntry) → v ≡ get_or entries.now later v → u ≡ get_or entries.now earlier u →
        result ≡ Needs.needs (history_of (take later entries.now)) v.event u.event }
{
    entries.is_legal();
    let found = needs_event(
        &entries.front(later),
        entries.task(later),
        entries.action(later),
        entries.task(earlier),
        entries.action(earlier),
    );
    found
}

/// Whether the action `a` of `t`, which comes after these steps, directly needs the action `b` of `u` among them.
fn needs_event(front: &History<'_>, t: &TaskName, a: &Action, u: &TaskName, b: &Action) -> bool
    requires legal { AreLegal front.now }
    requires later { IsTrue (is_spawned (history_of front.now) t.now) }
    requires earlier { IsTrue (is_spawned (history_of front.now) u.now) }
    ensures { result ≡ Needs.needs (history_of front.now)
        (record { task = t.now; action = a.now }) (record { task = u.now; action = b.now }) }
{
    *u == *t
        || (b.is_spawn_of(t)
            || (a.conflicts_with(b)
                || ((b.is_end() && needs_end_of(front, t, a, u))
                    || (a.is_print() && b.is_print()))))
}

/// Whether the action of `t` comes after the end of `u`.
fn needs_end_of(front: &History<'_>, t: &TaskName, action: &Action, u: &TaskName) -> bool
    requires legal { AreLegal front.now }
    requires later { IsTrue (is_spawned (history_of front.now) t.now) }
    requires earlier { IsTrue (is_spawned (history_of front.now) u.now) }
    ensures { result ≡ Needs.needs_end_of (history_of front.now) t.now action.now u.now }
{
    holds(front, t, u) || waits_for(front, t, action, u)
}

/// Whether the action of `t` waits for the end of `u`.
fn waits_for(front: &History<'_>, t: &TaskName, action: &Action, u: &TaskName) -> bool
    requires legal { AreLegal front.now }
    requires later { IsTrue (is_spawned (history_of front.now) t.now) }
    requires earlier { IsTrue (is_spawned (history_of front.now) u.now) }
    ensures { result ≡ Needs.waits_for (history_of front.now) t.now action.now u.now }
{
    match action {
        Action::Start => is_before(front, u, t) || is_apart(front, u, t),
        Action::Wait { items } => is_covered(front, t, items.as_slice(), u),
        Action::Close => is_member(front, t, u),
        _ => false,
    }
}

/// Whether `u` is an elder sibling on which `t` depends.
pub fn is_before(front: &History<'_>, u: &TaskName, t: &TaskName) -> bool
    requires elder { IsTrue (is_spawned (history_of front.now) u.now) }
    requires younger { IsTrue (is_spawned (history_of front.now) t.now) }
    ensures { result ≡ before (history_of front.now) u.now t.now }
{
    u.is_elder_of(t) && some_before(front.items(t), front.items(u))
}

/// Whether the siblings `u` and `t` exclude each other.
pub fn is_apart(front: &History<'_>, u: &TaskName, t: &TaskName) -> bool
    requires one { IsTrue (is_spawned (history_of front.now) u.now) }
    requires other { IsTrue (is_spawned (history_of front.now) t.now) }
    ensures { result ≡ apart (history_of front.now) u.now t.now }
{
    (u.is_elder_of(t) && some_apart(front.items(t), front.items(u)))
        || (t.is_elder_of(u) && some_apart(front.items(u), front.items(t)))
}

/// Whether a `taskwait` of `t` with these items waits for `u`.
pub fn is_covered(front: &History<'_>, t: &TaskName, items: &[Item], u: &TaskName) -> bool
    requires { IsTrue (is_spawned (history_of front.now) u.now) }
    ensures { result ≡ covers (history_of front.now) t.now items.now u.now }
{
    t.is_parent_of(u) && (items.is_empty() || some_before(items, front.items(u)))
}
