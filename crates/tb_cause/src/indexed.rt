//! The stored steps of a history, with what is looked up in them.

ghost use Rattle.std.specs.Prelude.{◌≡◌, ◌≤◌, ◌<◌, ◌+◌, ◌-◌, ◌∷◌, IfSome, IsTrue, List, length, take, get_or};
ghost use Rattle.std.specs.Option.{option_copied};
ghost use Rattle.tb_model.specs.declared.action.Action.{Action as AnAction};
ghost use Rattle.tb_model.specs.Facts.{is_of, is_print, is_spawned, own, touches};
ghost use Rattle.tb_model.specs.State.{spawn_of};
ghost use Rattle.tb_steps.specs.Entries.{Entry as AnEntry};
ghost use Rattle.tb_core.specs.Lending.{IsNoneBetween};
ghost use Rattle.tb_steps.specs.Scans.{AreLegal, history_of};
ghost use Rattle.tb_cause.specs.Indexes.{items_told, placed_action};
ghost use Rattle.tb_cause.specs.Keys.{IsOfTask, has, held_by};

use crate::cone::Cone;
use crate::keys::{Keys, has_task};
use std::marker::Model;
use tb_core::History;
use tb_model::{Action, Item, TaskName};

/// The stored steps of a legal history, with what is looked up in them by index and by name.
#[derive(Drop)]
pub(crate) struct Indexed<'a> {
    entries: History<'a>,
}

impl<'a> Model for Indexed<'a> {
    ghost use Rattle.std.specs.Prelude.{◌≤◌, List, length};
    ghost use Rattle.tb_steps.specs.Entries.{Entry as AnEntry};

    ghost Value = { List AnEntry };

    ghost view = { λ i. i.entries };

    ghost invariant = { λ i. length i.entries ≤ 1000000 };
}

impl<'a> Indexed<'a> {
    pub fn of(entries: &History<'a>) -> Indexed<'a>
        requires { length entries.now ≤ 1000000 }
        ensures { result ≡ entries.now }
    {
        Indexed {
            entries: entries.again(),
        }
    }

    /// What always holds, for a caller to cite. It does nothing.
    pub fn history_is_legal(&self)
        ensures legal { AreLegal self.now }
        ensures bound { length self.now ≤ 1000000 }
    {
        self.entries.is_legal();
    }

    /// How many stored steps there are.
    pub fn len(&self) -> usize
        ensures { result ≡ length self.now }
    {
        self.entries.len()
    }

    /// The index as answers store it.
    pub fn place(&self, at: usize) -> u32
        requires { at < length self.now }
        ensures { result ≡ at }
    {
        self.history_is_legal();
        at as u32
    }

    /// The stored steps in front of this index.
    pub fn front(&self, at: usize) -> History<'_>
        requires { at < length self.now }
        ensures { result ≡ take at self.now }
    {
        self.entries.front(at)
    }

    /// The task of the stored step at this index.
    pub fn task_at(&self, at: usize) -> &TaskName
        requires { at < length self.now }
        ensures { (e : AnEntry) → e ≡ get_or self.now at e → result.now ≡ e.event.task }
    {
        self.entries.task(at)
    }

    /// The action of the stored step at this index.
    pub fn action_at(&self, at: usize) -> &Action
        requires { at < length self.now }
        ensures { (e : AnEntry) → e ≡ get_or self.now at e → result.now ≡ e.event.action }
    {
        self.entries.action(at)
    }

    /// Whether one task executed the steps at this index and at the one in front of it.
    #[inline(always)]
    pub fn follows_its_own(&self, at: usize) -> bool
        requires within { at < length self.now }
        requires behind { 0 < at }
        ensures { (e d : AnEntry) → e ≡ get_or self.now at e → d ≡ get_or self.now (at - 1) d →
            result ≡ is_of e.event.task d.event }
    {
        self.entries.are_of_one(at, at - 1)
    }

    /// Whether there is a key of the task of the stored step at this index.
    pub fn is_of_task(&self, keys: &Keys, at: usize) -> bool
        requires { at < length self.now }
        ensures { IsOfTask self.now at (has keys.now) result }
    {
        has_task(&keys.tasks, self.task_at(at))
    }

    /// Whether there is a key of the task of the stored step at this index. `of_last` says it of
    /// the stored step in front, which mostly is of the same task: then no hash is taken.
    #[inline(always)]
    pub fn is_of_next(&self, keys: &Keys, at: usize, of_last: bool) -> bool
        requires within { at < length self.now }
        requires behind { 0 < at }
        requires last { IsOfTask self.now (at - 1) (has keys.now) of_last }
        ensures { IsOfTask self.now at (has keys.now) result }
    {
        if self.entries.are_of_one(at, at - 1) {
            return of_last;
        }
        self.is_of_task(keys, at)
    }

    /// Whether there is a key of the task of the stored step at this index. `of_last` says it of
    /// the stored step after it, which mostly is of the same task: then no hash is taken.
    #[inline(always)]
    pub fn is_of_earlier(&self, keys: &Keys, at: usize, of_last: bool) -> bool
        requires within { at + 1 < length self.now }
        requires last { IsOfTask self.now (at + 1) (has keys.now) of_last }
        ensures { IsOfTask self.now at (has keys.now) result }
    {
        self.history_is_legal();
        if self.entries.are_of_one(at, at + 1) {
            return of_last;
        }
        self.is_of_task(keys, at)
    }

    /// The first index from this one on at which the task stepped, else how many stored steps there
    /// are.
    pub fn next_of(&self, task: &TaskName, from: usize) -> usize
        requires { from ≤ length self.now }
        ensures from { from ≤ result }
        ensures none { IsNoneBetween (is_of task.now) self.now from result }
    {
        self.entries.next_of(task, from)
    }

    /// The first index from this one on at which the cell was loaded from or stored to, else how
    /// many stored steps there are.
    pub fn next_touch(&self, cell: u32, from: usize) -> usize
        requires { from ≤ length self.now }
        ensures from { from ≤ result }
        ensures none { IsNoneBetween (λ v. touches cell v.action) self.now from result }
    {
        self.entries.next_touch(cell, from)
    }

    /// The first index from this one on at which a step printed, else how many stored steps there
    /// are.
    pub fn next_print(&self, from: usize) -> usize
        requires { from ≤ length self.now }
        ensures from { from ≤ result }
        ensures none { IsNoneBetween (λ v. is_print v.action) self.now from result }
    {
        self.entries.next_print(from)
    }

    /// The undeferred child that the newest step of this one's task had generated before it.
    pub fn held_at(&self, at: usize) -> Option<&TaskName>
        requires { at < length self.now }
        ensures { (e : AnEntry) → e ≡ get_or self.now at e →
            option_copied result ≡ held_by (own e.event.task (history_of (take at self.now))) }
    {
        match self.entries.previous(at) {
            Some(before) => undeferred(self.entries.action(before)),
            None => None,
        }
    }

    /// The index of the task's spawn, looked for from the newest stored step on.
    pub fn spawn_of(&self, task: &TaskName) -> Option<usize>
        ensures spawn { spawn_of task.now (history_of self.now) ≡ placed_action self.now result }
        ensures within { IfSome result (λ at. at < length self.now) }
    {
        let mut left = self.entries.len();
        'back: while 0 < left {
            left -= 1;
            if self.entries.action(left).is_spawn_of(task) {
                return Some(left);
            }
        }
        None
    }

    /// The depend items of a task that is there.
    pub fn items_of(&self, task: &TaskName) -> &[Item]
        requires { IsTrue (is_spawned (history_of self.now) task.now) }
        ensures { result.now ≡ items_told self.now task.now }
    {
        self.history_is_legal();
        self.entries.items(task)
    }
}

/// The undeferred child that the action generates.
fn undeferred(action: &Action) -> Option<&TaskName>
    ensures { (acts : List AnAction) → option_copied result ≡ held_by (action.now ∷ acts) }
{
    match action {
        Action::Spawn(spawned) => {
            let spawn = spawned.get();
            if spawn.deferred {
                None
            } else {
                Some(&spawn.child)
            }
        }
        _ => None,
    }
}

/// The patterns name every field: what is found and what is looked up holds no program, and no copy
/// of a state; the stored steps are lent. They are compiled with the crate, so that a further field
/// is refused until it is named here.
fn name_every_field(indexed: &Indexed<'_>, keys: &Keys, cone: &Cone) {
    let Indexed { entries: _ } = indexed;
    let Keys {
        tasks: _,
        ended: _,
        parents: _,
        within: _,
        items: _,
        stored: _,
        touched: _,
        printed: _,
    } = keys;
    let Cone {
        places: _,
        steps: _,
    } = cone;
}
