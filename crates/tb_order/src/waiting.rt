//! For which ends a step waits.

ghost use Rattle.std.specs.Prelude.{◌≡◌, ◌<◌, ◌≤◌, ◌∷◌, ℕ, List, Bool, length, take, slice_get, IsFalse, IsTrue, Some, false};
ghost use Rattle.tb_model.specs.declared.action.Action.{Action};
ghost use Rattle.tb_steps.specs.Entries.{Entry};
ghost use Rattle.tb_steps.specs.Scans.{AreLegal, history_of};
ghost use Rattle.tb_model.specs.Facts;
ghost use Rattle.tb_model.specs.Names.{Name};
ghost use Rattle.tb_model.specs.State.{items_in};
ghost use Rattle.tb_races.specs.Kinds;
ghost use Rattle.tb_lanes.specs.Clocks.{AreTasks, both_at, is_end_at, links_at, of_one};
ghost use Rattle.tb_lanes.specs.Linking;
ghost use Rattle.tb_lanes.specs.Linking.{order_of};

use crate::kinds::{counts, shared};
use tb_core::{History, is_member};
use tb_lanes::{Tasks, covers, step_before, waits_by_itself};
use tb_model::{Action, Item, TaskName, some_apart, some_before};
use tb_races::NeedKind;

/// Whether the step at this index may be linked to ends of others. A start without depend items
/// isn't.
pub fn may_wait(entries: &History<'_>, tasks: &Tasks, at: usize) -> bool
    requires legal { AreLegal entries.now }
    requires tasks { AreTasks entries.now tasks.now }
    requires at { at < length entries.now }
    ensures { IsFalse result → (exclusion : Bool) (x : ℕ) → x < at → IsTrue (is_end_at entries.now x)
        → IsTrue (links_at (order_of exclusion) entries.now at x) → IsTrue (both_at of_one entries.now at x) }
{
    let items = items_of(entries, tasks, at);
    waits_by_itself(entries.action(at), items) || is_held(entries, tasks, at)
}

/// Whether the task generated an undeferred child right in front of the step at this index.
pub fn is_held(entries: &History<'_>, tasks: &Tasks, at: usize) -> bool
    requires tasks { AreTasks entries.now tasks.now }
    requires at { at < length entries.now }
    ensures { IsFalse result → (v : Entry) → slice_get entries.now at ≡ Some v → (u : Name) →
        Facts.holds (Facts.own v.event.task (history_of (take at entries.now))) u ≡ false }
{
    match step_before(tasks, at) {
        Some(before) => holds_some(entries.action(before)),
        None => false,
    }
}

fn holds_some(action: &Action) -> bool
    ensures { IsFalse result → (acts : List Action) (u : Name) → Facts.holds (action.now ∷ acts) u ≡ false }
{
    match action {
        Action::Spawn(spawned) => !spawned.get().deferred,
        _ => false,
    }
}

/// Whether the task of the step at this index was at its undeferred child `u`.
fn holds(entries: &History<'_>, tasks: &Tasks, at: usize, u: &TaskName) -> bool
    requires tasks { AreTasks entries.now tasks.now }
    requires at { at < length entries.now }
    ensures { (v : Entry) → slice_get entries.now at ≡ Some v →
        result ≡ Facts.holds (Facts.own v.event.task (history_of (take at entries.now))) u.now }
{
    match step_before(tasks, at) {
        Some(before) => is_undeferred(entries.action(before), u),
        None => false,
    }
}

fn is_undeferred(action: &Action, u: &TaskName) -> bool
    ensures { (acts : List Action) → result ≡ Facts.holds (action.now ∷ acts) u.now }
{
    match action {
        Action::Spawn(spawned) => {
            let spawn = spawned.get();
            !spawn.deferred && spawn.child == *u
        }
        _ => false,
    }
}

/// Whether the step at this index is linked to the end at the other, where exclusion counts or
/// doesn't.
pub fn waits(exclusion: bool, entries: &History<'_>, tasks: &Tasks, at: usize, end: usize) -> bool
    requires legal { AreLegal entries.now }
    requires tasks { AreTasks entries.now tasks.now }
    requires at { at < length entries.now }
    requires end { end < at }
    ensures { IsTrue (is_end_at entries.now end) → result ≡ links_at (order_of exclusion) entries.now at end }
{
    if entries.are_of_one(at, end) {
        return true;
    }
    counts(exclusion, waiting_kind(entries, tasks, at, end))
}

/// Why the step at this index needs the one at the other directly.
pub fn kind_at(entries: &History<'_>, tasks: &Tasks, at: usize, earlier: usize) -> Option<NeedKind>
    requires legal { AreLegal entries.now }
    requires tasks { AreTasks entries.now tasks.now }
    requires at { at < length entries.now }
    requires earlier { earlier < at }
    ensures { (v u : Entry) → slice_get entries.now at ≡ Some v → slice_get entries.now earlier ≡ Some u
        → result ≡ Kinds.need_kind (history_of (take at entries.now)) v.event u.event }
{
    let action = entries.action(earlier);
    if entries.are_of_one(at, earlier) {
        return Some(NeedKind::Task);
    }
    if action.is_spawn_of(entries.task(at)) {
        return Some(NeedKind::Spawn);
    }
    if let Some(shares) = shared(entries.action(at), action) {
        return Some(NeedKind::Conflict(shares));
    }
    if action.is_end() {
        waiting_kind(entries, tasks, at, earlier)
    } else {
        None
    }
}

/// Why the step at this index comes after the end of the task of the step at the other.
fn waiting_kind(entries: &History<'_>, tasks: &Tasks, at: usize, end: usize) -> Option<NeedKind>
    requires legal { AreLegal entries.now }
    requires tasks { AreTasks entries.now tasks.now }
    requires at { at < length entries.now }
    requires end { end < at }
    ensures { (v u : Entry) → slice_get entries.now at ≡ Some v → slice_get entries.now end ≡ Some u
        → result ≡ Kinds.end_kind (history_of (take at entries.now)) v.event.task v.event.action
        u.event.task }
{
    let front = entries.front(at);
    let ended = entries.task(end);
    let items = items_of(entries, tasks, at);
    let others = items_of(entries, tasks, end);
    let held = holds(entries, tasks, at, ended);
    end_kind(
        &front,
        entries.task(at),
        items,
        entries.action(at),
        ended,
        others,
        held,
    )
}

/// Why the action of `t` comes after the end of `u`, where these are their items, and `t` was at
/// `u` or didn't.
fn end_kind(
    front: &History<'_>,
    t: &TaskName,
    items: &[Item],
    action: &Action,
    u: &TaskName,
    others: &[Item],
    held: bool,
) -> Option<NeedKind>
    requires legal { AreLegal front.now }
    requires items { items.now ≡ Facts.items_of t.now (history_of front.now) }
    requires others { others.now ≡ Facts.items_of u.now (history_of front.now) }
    requires held { held ≡ Facts.holds (Facts.own t.now (history_of front.now)) u.now }
    ensures { result ≡ Kinds.end_kind (history_of front.now) t.now action.now u.now }
{
    match wait_kind(front, t, items, action, u, others) {
        Some(kind) => Some(kind),
        None => {
            if held {
                Some(NeedKind::Undeferred)
            } else {
                None
            }
        }
    }
}

/// Why it waits for that end.
fn wait_kind(
    front: &History<'_>,
    t: &TaskName,
    items: &[Item],
    action: &Action,
    u: &TaskName,
    others: &[Item],
) -> Option<NeedKind>
    requires legal { AreLegal front.now }
    requires items { items.now ≡ Facts.items_of t.now (history_of front.now) }
    requires others { others.now ≡ Facts.items_of u.now (history_of front.now) }
    ensures { result ≡ Kinds.wait_kind (history_of front.now) t.now action.now u.now }
{
    match action {
        Action::Start => start_kind(front, t, items, u, others),
        Action::Wait { items } => {
            if t.is_parent_of(u) && covers(items.as_slice(), others) {
                Some(NeedKind::Wait)
            } else {
                None
            }
        }
        Action::Close => {
            if is_member(front, t, u) {
                Some(NeedKind::Group)
            } else {
                None
            }
        }
        _ => None,
    }
}

/// Why the start of `t` waits for the end of `u`.
fn start_kind(
    front: &History<'_>,
    t: &TaskName,
    items: &[Item],
    u: &TaskName,
    others: &[Item],
) -> Option<NeedKind>
    requires items { items.now ≡ Facts.items_of t.now (history_of front.now) }
    requires others { others.now ≡ Facts.items_of u.now (history_of front.now) }
    ensures { result ≡ Linking.start_kind (history_of front.now) t.now u.now }
{
    // mostly no items meet, and names take longer to compare
    if some_before(items, others) && u.is_elder_of(t) {
        Some(NeedKind::Before)
    } else if (some_apart(items, others) && u.is_elder_of(t))
        || (some_apart(others, items) && t.is_elder_of(u))
    {
        Some(NeedKind::Apart)
    } else {
        None
    }
}

/// The depend items of the task of the step at this index.
pub fn items_of<'a>(entries: &History<'a>, tasks: &Tasks, at: usize) -> &'a [Item]
    requires legal { AreLegal entries.now }
    requires tasks { AreTasks entries.now tasks.now }
    requires at { at < length entries.now }
    ensures { (n : ℕ) → at ≤ n → n < length entries.now → (v : Entry) → slice_get entries.now at ≡ Some v →
        result.now ≡ Facts.items_of v.event.task (history_of (take n entries.now)) }
{
    let origin = tasks.origins[at];
    if origin == 0 {
        return &[];
    }
    named_items(entries, origin - 1)
}

fn named_items<'a>(entries: &History<'a>, at: usize) -> &'a [Item]
    requires { at < length entries.now }
    ensures { (v : Entry) → slice_get entries.now at ≡ Some v → result.now ≡ items_in (Some v.event.action) }
{
    action_items(entries.action(at))
}

/// The depend items that the action gives to a child.
fn action_items(action: &Action) -> &[Item]
    ensures { result.now ≡ items_in (Some action.now) }
{
    match action {
        Action::Spawn(spawned) => spawned.get().items.as_slice(),
        _ => &[],
    }
}
