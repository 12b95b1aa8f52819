//! Why a step directly needs an earlier one, found by scans: nothing is stored for it.

ghost use Rattle.std.specs.Prelude.{◌≡◌, IsTrue};
ghost use Rattle.tb_model.specs.Facts.{is_spawned};
ghost use Rattle.tb_steps.specs.Scans.{AreLegal, history_of};
ghost use Rattle.tb_races.specs.Kinds;
ghost use Rattle.tb_lanes.specs.Linking;

use tb_core::{History, holds, is_apart, is_before, is_covered, is_member};
use tb_model::{Action, TaskName};
use tb_races::{Conflict, NeedKind};

/// Whether a need of the kind is one of synchronisation, where exclusion counts or doesn't.
pub fn counts(exclusion: bool, kind: Option<NeedKind>) -> bool
    ensures { result ≡ Linking.counts_in exclusion kind }
{
    match kind {
        None => false,
        Some(NeedKind::Conflict(_)) => false,
        Some(NeedKind::Apart) => exclusion,
        Some(_) => true,
    }
}

/// Why the action `a` of `t`, which comes after these steps, directly needs the action `b` of `u`
/// among them.
pub fn need_kind(
    front: &History<'_>,
    t: &TaskName,
    a: &Action,
    u: &TaskName,
    b: &Action,
) -> Option<NeedKind>
    requires legal { AreLegal front.now }
    requires later { IsTrue (is_spawned (history_of front.now) t.now) }
    requires earlier { IsTrue (is_spawned (history_of front.now) u.now) }
    ensures { result ≡ Kinds.need_kind (history_of front.now)
        (record { task = t.now; action = a.now }) (record { task = u.now; action = b.now }) }
{
    if *u == *t {
        return Some(NeedKind::Task);
    }
    if b.is_spawn_of(t) {
        return Some(NeedKind::Spawn);
    }
    if let Some(shares) = shared(a, b) {
        return Some(NeedKind::Conflict(shares));
    }
    if b.is_end() {
        end_kind(front, t, a, u)
    } else {
        None
    }
}

/// What a later and an earlier action share: a cell that one of them stores to, or the output.
pub fn shared(later: &Action, earlier: &Action) -> Option<Conflict>
    ensures { result ≡ Kinds.shared later.now earlier.now }
{
    match later {
        Action::Store { cell, .. } | Action::Load { cell, .. } => {
            if later.conflicts_with(earlier) {
                Some(Conflict::Cell { cell: *cell })
            } else {
                None
            }
        }
        Action::Print { .. } => {
            if earlier.is_print() {
                Some(Conflict::Print)
            } else {
                None
            }
        }
        _ => None,
    }
}

/// Why the action of `t` comes after the end of `u`.
fn end_kind(front: &History<'_>, t: &TaskName, action: &Action, u: &TaskName) -> Option<NeedKind>
    requires legal { AreLegal front.now }
    requires later { IsTrue (is_spawned (history_of front.now) t.now) }
    requires earlier { IsTrue (is_spawned (history_of front.now) u.now) }
    ensures { result ≡ Kinds.end_kind (history_of front.now) t.now action.now u.now }
{
    match wait_kind(front, t, action, u) {
        Some(kind) => Some(kind),
        None => {
            if holds(front, t, u) {
                Some(NeedKind::Undeferred)
            } else {
                None
            }
        }
    }
}

/// Why the action of `t` waits for the end of `u`.
fn wait_kind(front: &History<'_>, t: &TaskName, action: &Action, u: &TaskName) -> Option<NeedKind>
    requires legal { AreLegal front.now }
    requires later { IsTrue (is_spawned (history_of front.now) t.now) }
    requires earlier { IsTrue (is_spawned (history_of front.now) u.now) }
    ensures { result ≡ Kinds.wait_kind (history_of front.now) t.now action.now u.now }
{
    match action {
        Action::Start => start_kind(front, t, u),
        Action::Wait { items } => {
            if is_covered(front, t, items.as_slice(), u) {
                Some(NeedKind::Wait)
            } else {
                None
            }
        }
        Action::Close => {
            if is_member(front, t, u) {
                Some(NeedKind::Group)
            } else {
                None
            }
        }
        _ => None,
    }
}

/// Why the start of `t` waits for the end of `u`.
fn start_kind(front: &History<'_>, t: &TaskName, u: &TaskName) -> Option<NeedKind>
    requires later { IsTrue (is_spawned (history_of front.now) t.now) }
    requires earlier { IsTrue (is_spawned (history_of front.now) u.now) }
    ensures { result ≡ Linking.start_kind (history_of front.now) t.now u.now }
{
    if is_before(front, u, t) {
        Some(NeedKind::Before)
    } else if is_apart(front, u, t) {
        Some(NeedKind::Apart)
    } else {
        None
    }
}
