//! A history that is lent: its steps by their indexes.

ghost use Rattle.std.specs.Prelude.{◌≡◌, ◌<◌, ◌≤◌, [], ◌∷◌, suc, IfSome, IfNone, IsFalse, IsTrue, length, take, get_or};
ghost use Rattle.tb_model.specs.declared.action.Action.TheVariants.{Start};
ghost use Rattle.tb_model.specs.Names.{Name};
ghost use Rattle.tb_model.specs.Facts.{IsSpawned, is_of, is_print, is_spawned, items_of, own, touches};
ghost use Rattle.tb_model.specs.Needs.{waits_for};
ghost use Rattle.tb_steps.specs.Entries.{Entry as AnEntry};
ghost use Rattle.tb_core.specs.Lending.{AreLeft, IsLast, IsNoneBetween};
ghost use Rattle.tb_steps.specs.Scans.{AreLegal, history_of};
ghost use Rattle.tb_core.specs.Soundness.{names_in};
ghost use Rattle.tb_core.specs.Storing.{IsStored, entries_in};
ghost use Rattle.std.specs.List.{AllZip};

use crate::entry::Entry;
use std::marker::Model;
use tb_model::{Action, Item, TaskName};
use tb_places::{Places, last_place, next_place};
use tb_undo::Tables;

/// The steps of a core that are there, from the oldest on: all of them, or those in front of an
/// index. Contracts see the list of these steps, each with the lines between which it moved its
/// task.
#[derive(Drop)]
pub struct History<'a> {
    // all that the core has
    entries: &'a [Entry],
    // which say the tasks' names
    tables: &'a Tables,
    // where they are, by task and by what they touch
    places: &'a Places,
    count: usize,
}

impl<'a> Model for History<'a> {
    ghost use Rattle.std.specs.Prelude.{◌≤◌, List, length, take};
    ghost use Rattle.std.specs.List.{AllZip};
    ghost use Rattle.tb_steps.specs.Entries.{Entry as AnEntry};
    ghost use Rattle.tb_core.specs.Lending.{AreLeft};
    ghost use Rattle.tb_core.specs.Soundness.{names_in};
    ghost use Rattle.tb_core.specs.Storing.{IsStored, entries_in};

    ghost Value = { List AnEntry };

    ghost view = { λ h. take h.count (entries_in h.tables.now h.entries.now) };

    ghost invariant = { λ h. (h.count ≤ length h.entries.now)
        × AllZip (IsStored (names_in h.tables.now)) h.entries.now (entries_in h.tables.now h.entries.now)
        × AreLeft h.tables.now h.places.now (entries_in h.tables.now h.entries.now) };
}

impl<'a> History<'a> {
    /// All the stored steps, which are those of the tables.
    #[inline(always)]
    pub(crate) fn of(entries: &'a [Entry], tables: &'a Tables, places: &'a Places) -> History<'a>
        requires stored { AllZip (IsStored (names_in tables.now)) entries.now (entries_in tables.now entries.now) }
        requires left { AreLeft tables.now places.now (entries_in tables.now entries.now) }
        ensures { result ≡ entries_in tables.now entries.now }
    {
        History {
            entries,
            tables,
            places,
            count: entries.len(),
        }
    }

    /// What always holds, for a caller to cite: the steps are a legal history.
    pub fn is_legal(&self)
        ensures { AreLegal self.now }
    {
        // for the proof: what the type retains is known where a field is read
        let _count = self.count;
    }

    /// A second loan of these steps. No step is copied.
    pub fn again(&self) -> History<'a>
        ensures { result ≡ self.now }
    {
        History {
            entries: self.entries,
            tables: self.tables,
            places: self.places,
            count: self.count,
        }
    }

    /// How many steps there are.
    #[inline(always)]
    pub fn len(&self) -> usize
        ensures { result ≡ length self.now }
    {
        self.count
    }

    /// The steps in front of this index.
    #[inline(always)]
    pub fn front(&self, at: usize) -> History<'a>
        requires { at ≤ length self.now }
        ensures { result ≡ take at self.now }
    {
        History {
            entries: self.entries,
            tables: self.tables,
            places: self.places,
            count: at,
        }
    }

    /// The task that executed the step at this index.
    #[inline(always)]
    pub fn task(&self, at: usize) -> &'a TaskName
        requires { at < length self.now }
        ensures { (e : AnEntry) → e ≡ get_or self.now at e → result.now ≡ e.event.task }
    {
        name_in(self.tables, entry_in(self.entries, at))
    }

    /// What the step at this index did.
    #[inline(always)]
    pub fn action(&self, at: usize) -> &'a Action
        requires { at < length self.now }
        ensures { (e : AnEntry) → e ≡ get_or self.now at e → result.now ≡ e.event.action }
    {
        &entry_in(self.entries, at).action
    }

    /// The depend items of a task that is the root, or that one of these steps generated.
    pub fn items(&self, task: &TaskName) -> &'a [Item]
        ensures { IsTrue (is_spawned (history_of self.now) task.now) →
            result.now ≡ items_of task.now (history_of self.now) }
    {
        self.tables.items(task)
    }

    /// Whether a start may wait for the end of the task, as far as the items of siblings say.
    pub fn is_met(&self, task: &TaskName) -> bool
        ensures { IsFalse result → (t : Name) →
            IsSpawned (history_of self.now) task.now → IsSpawned (history_of self.now) t →
            IsFalse (waits_for (history_of self.now) t Start task.now) }
    {
        self.tables.is_met(task)
    }

    /// The first index from this one on at which the task stepped, else how many steps there are.
    pub fn next_of(&self, task: &TaskName, from: usize) -> usize
        requires { from ≤ length self.now }
        ensures from { from ≤ result }
        ensures within { result ≤ length self.now }
        ensures none { IsNoneBetween (is_of task.now) self.now from result }
    {
        let own = self.places.events_of(self.tables.place(task));
        next_place(own, from, self.len())
    }

    /// The first index from this one on at which a step loaded from the cell or stored to it, else
    /// how many steps there are.
    pub fn next_touch(&self, cell: u32, from: usize) -> usize
        requires { from ≤ length self.now }
        ensures from { from ≤ result }
        ensures within { result ≤ length self.now }
        ensures none { IsNoneBetween (λ v. touches cell v.action) self.now from result }
    {
        next_place(self.places.touches(cell), from, self.len())
    }

    /// The first index from this one on at which a step printed, else how many steps there are.
    pub fn next_print(&self, from: usize) -> usize
        requires { from ≤ length self.now }
        ensures from { from ≤ result }
        ensures within { result ≤ length self.now }
        ensures none { IsNoneBetween (λ v. is_print v.action) self.now from result }
    {
        next_place(self.places.prints(), from, self.len())
    }

    /// The index of the step that the same task took last in front of this index.
    pub fn previous(&self, at: usize) -> Option<usize>
        requires { at < length self.now }
        ensures some { (e : AnEntry) → e ≡ get_or self.now at e → IfSome result (IsLast (is_of e.event.task) self.now at) }
        ensures none { (e : AnEntry) → e ≡ get_or self.now at e → IfNone result (IsNoneBetween (is_of e.event.task) self.now 0 at) }
    {
        if 0 < at && self.are_of_one(at, at - 1) {
            return Some(at - 1);
        }
        let own = self.places.events_of(self.tables.place(self.task(at)));
        last_place(own, at)
    }

    /// How many steps the task of the step at this index took in front of it.
    pub fn rank(&self, at: usize) -> Option<usize>
        requires { at < length self.now }
        ensures { (e : AnEntry) → e ≡ get_or self.now at e →
            IfSome result (λ n. n ≡ length (own e.event.task (history_of (take at self.now)))) }
    {
        let own = self.places.events_of(self.tables.place(self.task(at)));
        let Ok(place) = u32::try_from(at) else {
            return None;
        };
        match own.binary_search(&place) {
            Ok(before) => Some(before),
            Err(_) => None,
        }
    }

    /// The line at which its task was before the step at this index.
    pub fn line(&self, at: usize) -> u32
        requires { at < length self.now }
        ensures { (e : AnEntry) → e ≡ get_or self.now at e → result ≡ e.at }
    {
        entry_in(self.entries, at).at
    }

    /// The newest step, by its task and by what it did, apart from those in front of it.
    #[inline(always)]
    pub fn split_newest(&self) -> Option<(History<'a>, &'a TaskName, &'a Action)>
        ensures some { IfSome result (λ p. history_of self.now ≡ record { task = p.1.now; action = p.2.now } ∷ history_of p.0) }
        ensures fewer { IfSome result (λ p. suc (length p.0) ≡ length self.now) }
        ensures none { IfNone result (self.now ≡ []) }
    {
        if self.count == 0 {
            return None;
        }
        let at = self.count - 1;
        Some((self.front(at), self.task(at), self.action(at)))
    }

    /// Whether the task executed the step at this index.
    #[inline(always)]
    pub fn is_of(&self, at: usize, task: &TaskName) -> bool
        requires { at < length self.now }
        ensures { (e : AnEntry) → e ≡ get_or self.now at e → result ≡ is_of task.now e.event }
    {
        *self.task(at) == *task
    }

    /// Whether one task executed the steps at both indexes.
    #[inline(always)]
    pub fn are_of_one(&self, at: usize, other: usize) -> bool
        requires at { at < length self.now }
        requires other { other < length self.now }
        ensures { (e d : AnEntry) → e ≡ get_or self.now at e → d ≡ get_or self.now other d →
            result ≡ is_of e.event.task d.event }
    {
        *self.task(other) == *self.task(at)
    }
}

#[inline(always)]
fn entry_in(entries: &[Entry], at: usize) -> &Entry
    requires { at < length entries.now }
    ensures { result.now ≡ get_or entries.now at result.now }
{
    &entries[at]
}

/// The name of the stored step's task.
#[inline(always)]
fn name_in<'a>(tables: &'a Tables, entry: &Entry) -> &'a TaskName
    requires { (e : AnEntry) × IsStored (names_in tables.now) entry.now e }
    ensures { (e : AnEntry) → IsStored (names_in tables.now) entry.now e → result.now ≡ e.event.task }
{
    tables.name(entry.task as usize).unwrap()
}
