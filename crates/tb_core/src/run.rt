//! The history, step by step.

mod clear;
mod planned;
mod reading;
mod state;
mod undoing;

ghost use Rattle.std.specs.Prelude.{◌≡◌, ◌≢◌, ◌<◌, ◌≤◌, ◌+◌, ◌↔◌, [], ◌∷◌, OnOk, IfOk, IfErr, OnErr, IfSome, IfNone, IsOk, IsTrue, IsFalse, length, reverse, slice_get, Some, None, if◌then◌else◌, map, vec_len, vec_capacity};
ghost use Rattle.std.specs.Option.{option_copied};
ghost use Rattle.tb_model.specs.Facts.{is_spawned};
ghost use Rattle.tb_model.specs.Legal.{Legal, MayFollow};
ghost use Rattle.tb_model.specs.Hindrances.{in_the_way};
ghost use Rattle.tb_steps.specs.Entries.{departure};
ghost use Rattle.tb_core.specs.Naming.{config_with};
ghost use Rattle.tb_core.specs.Seen.{history, with_limit};
ghost use Rattle.tb_core.specs.Situation.{config_of};
ghost use Rattle.tb_core.specs.Outcomes.{event_of, has_ended, Fits, IsOpen, IsKept, IsKeptBy, Takes, grown_by, Refuses, Steps, Stepped};
ghost use Rattle.tb_core.specs.Soundness.{AreRecords, seen};
ghost use Rattle.tb_steps.specs.Scans.{AreLegal};

use crate::answers::{config, named, stale, stands_so};
use crate::entry::Entry;
use crate::filling::{action_of, forget};
use crate::history::History;
use crate::numbers::number_in;
use crate::step_refusal::StepRefusal;
use std::alloc::{AllocError, Global};
use std::marker::Model;
use tb_model::{Action, Event, StepId, TaskName};
use tb_places::Places;
use tb_plan::{Config, Plan};
use tb_undo::{Standing, Tables};

/// The history of a run, with what each step replaced, and the state that it leaves. It holds no
/// program.
#[derive(Drop)]
pub struct Core {
    alloc: Global,
    first: Vec<i64>,
    root_line: u32,
    limit: u32,
    entries: Vec<Entry>,
    places: Places,
    tables: Tables,
    // the event for which all capacity is reserved
    reserved: Option<Event>,
}

impl Model for Core {
    ghost use Rattle.std.specs.Prelude.{◌-◌, reverse, vec_len, vec_capacity};
    ghost use Rattle.tb_core.specs.Seen.{Held};
    ghost use Rattle.tb_core.specs.Soundness.{seen, names_in, IsSound, HasReserved};
    ghost use Rattle.tb_core.specs.Renumbering.{events_in};
    ghost use Rattle.std.specs.List.{AllZip};
    ghost use Rattle.tb_core.specs.Storing.{IsStored, entries_in};
    ghost use Rattle.tb_places.specs.Places.{IsIndexOf};

    ghost Value = { Held };

    ghost view = { λ c. record { run = seen c.first.items c.root_line c.limit (reverse (entries_in c.tables c.entries.items)); reserved = c.reserved } };

    ghost invariant = { λ c. IsSound c.first.items c.root_line c.limit (reverse (entries_in c.tables c.entries.items)) c.tables
        × HasReserved c.reserved (vec_capacity c.entries - vec_len c.entries) c.tables c.places
        × IsIndexOf (names_in c.tables) (events_in (entries_in c.tables c.entries.items)) c.places
        × AllZip (IsStored (names_in c.tables)) c.entries.items (entries_in c.tables c.entries.items) };
}

impl Core {
    /// A core with no events, for a history of at most `limit` of them.
    pub fn open(
        alloc: Global,
        cells: &[i64],
        root_line: u32,
        limit: u32,
    ) -> Result<Core, AllocError>
        requires { limit ≤ 1000000 }
        ensures { IfOk result (λ c. c.run ≡ record { cells = cells.now; root_line = root_line; limit = limit; steps = [] }) }
    {
        Ok(Core {
            alloc,
            first: Vec::from_slice(alloc, cells)?,
            root_line,
            limit,
            entries: Vec::new(alloc),
            places: Places::new(alloc),
            tables: Tables::open(alloc, cells, root_line)?,
            reserved: None,
        })
    }

    /// What always holds, for a caller to cite: the history is legal, and within its limit. What each
    /// reader shows is said of that history by its own clause.
    pub fn history_is_legal(&self)
        ensures legal { Legal self.now.run.cells (history self.now.run) }
        ensures within { length self.now.run.steps ≤ self.now.run.limit }
        ensures bound { self.now.run.limit ≤ 1000000 }
    {
        // for the proof: what the type retains is known where a field is read
        let _limit = self.limit;
    }

    /// Sets how many events the history may have: at least as many as it has. What is reserved stays
    /// so.
    pub fn set_limit(&mut self, limit: u32)
        requires within { length self.old.run.steps ≤ limit }
        requires bound { limit ≤ 1000000 }
        ensures run { self.new.run ≡ with_limit limit self.old.run }
        ensures reserved { self.new.reserved ≡ self.old.reserved }
    {
        self.limit = limit;
    }

    /// How many events the history has.
    pub fn count(&self) -> u32
        ensures count { result ≡ length self.now.run.steps }
        ensures bound { result ≤ 1000000 }
    {
        self.entries.as_slice().len() as u32
    }

    /// Whether the task is there: the root is, and what was spawned.
    pub fn is_there(&self, task: &TaskName) -> bool
        ensures { result ≡ is_spawned (history self.now.run) task.now }
    {
        self.tables.is_there(task)
    }

    /// Whether the task has ended or faulted.
    #[inline(always)]
    pub fn has_ended(&self, task: &TaskName) -> bool
        ensures { result ≡ has_ended self.now.run task.now }
    {
        self.tables.has_ended(task)
    }

    /// Whether the task has ended or faulted. Its situation says where it is looked for first.
    #[inline(always)]
    pub fn has_ended_at(&self, standing: &Standing<'_>, task: &TaskName) -> bool
        ensures { result ≡ has_ended self.now.run task.now }
    {
        self.tables.has_ended_at(standing, task)
    }

    /// The situation of a task that is there.
    #[inline(always)]
    pub fn standing(&self, task: &TaskName) -> Option<Standing<'_>>
        ensures some { IfSome result (λ k. IsTrue (is_spawned (history self.now.run) task.now) × (config_of self.now.run task.now ≡ config_with task.now k)) }
        ensures none { IfNone result (IsFalse (is_spawned (history self.now.run) task.now)) }
    {
        self.tables.standing(task)
    }

    /// The situation of a task that is there, in a walk over tasks: `near` hands on where the last
    /// one was found, at first none.
    pub fn walk_standing(&self, near: &mut Option<usize>, task: &TaskName) -> Option<Standing<'_>>
        ensures some { IfSome result (λ k. IsTrue (is_spawned (history self.now.run) task.now) × (config_of self.now.run task.now ≡ config_with task.now k)) }
        ensures none { IfNone result (IsFalse (is_spawned (history self.now.run) task.now)) }
    {
        self.tables.walk_standing(near, task)
    }

    /// Turns to the task that steps next, which a walk found here. Nothing that the core says
    /// changes: what is stored of the task is looked for where it is.
    pub fn turn_to(&mut self, near: Option<usize>, task: &TaskName)
        ensures { self.new ≡ self.old }
    {
        if let Some(near) = near {
            self.tables.turn_near(near, task);
        }
    }

    /// The situation of a task that is there.
    pub fn config(&self, task: &TaskName) -> Result<Option<Config>, AllocError>
        ensures { IfOk result (λ o. o ≡ (if is_spawned (history self.now.run) task.now then Some (config_of self.now.run task.now) else None)) }
    {
        match self.tables.standing(task) {
            Some(standing) => Ok(Some(config(task.clone()?, &standing))),
            None => Ok(None),
        }
    }

    /// The newest event.
    #[inline(always)]
    pub fn newest(&self) -> Option<(&TaskName, &Action)>
        ensures some { IfSome result (λ p. slice_get (history self.now.run) 0 ≡ Some (record { task = p.0.now; action = p.1.now })) }
        ensures none { IfNone result (slice_get (history self.now.run) 0 ≡ None) }
    {
        match self.legal_entries().split_newest() {
            Some((_, task, action)) => Some((task, action)),
            None => None,
        }
    }

    /// Whether nothing blocks the action of a task that goes on. It takes no memory.
    pub fn is_clear(&self, task: &TaskName, action: &Action) -> bool
        requires there { IsTrue (is_spawned (history self.now.run) task.now) }
        requires going { IsFalse (has_ended self.now.run task.now) }
        ensures { IsTrue result ↔ (in_the_way (history self.now.run) task.now action.now ≡ None) }
    {
        self.tables.is_clear(task, action)
    }

    /// Whether nothing blocks the action of a task that goes on. Its situation says where it is
    /// looked for first. It takes no memory.
    #[inline(always)]
    pub fn is_clear_at(&self, standing: &Standing<'_>, task: &TaskName, action: &Action) -> bool
        requires there { IsTrue (is_spawned (history self.now.run) task.now) }
        requires going { IsFalse (has_ended self.now.run task.now) }
        ensures { IsTrue result ↔ (in_the_way (history self.now.run) task.now action.now ≡ None) }
    {
        self.tables.is_clear_at(standing, task, action)
    }

    /// What blocks the action of a task that goes on. It was asked where the task is, so that it
    /// isn't looked for again.
    pub fn hindrance(
        &self,
        standing: &Standing<'_>,
        name: &TaskName,
        action: &Action,
    ) -> Option<StepRefusal>
        requires there { IsTrue (is_spawned (history self.now.run) name.now) }
        requires going { IsFalse (has_ended self.now.run name.now) }
        ensures some { IfSome result (IsKeptBy self.now.run name.now action.now) }
        ensures none { IfNone result (in_the_way (history self.now.run) name.now action.now ≡ None) }
    {
        if let Some(obstacle) = self.tables.in_the_way(standing, name, action) {
            return Some(named(name, obstacle));
        }
        None
    }

    /// Why a step of this plan would be refused now.
    pub fn refusal(&self, plan: &Plan) -> Option<StepRefusal>
        requires { Fits self.now.run plan.now }
        ensures some { IfSome result (IsKept self.now.run plan.now) }
        ensures none { IfNone result (IsOpen self.now.run plan.now) }
    {
        let name = &plan.config.task;
        let Some(standing) = self.tables.standing(name) else {
            return Some(StepRefusal::NoSuchTask);
        };
        if self.has_ended(name) {
            return Some(StepRefusal::Ended);
        }
        if !stands_so(&plan.config, &standing) {
            return Some(stale(self.alloc, name, &standing));
        }
        if let Some(hindrance) = self.hindrance(&standing, name, &plan.action) {
            return Some(hindrance);
        }
        if self.limit <= self.count() {
            return Some(StepRefusal::Full);
        }
        None
    }

    /// Reserves the capacity that `step` needs for this plan, and returns the event to come, twice,
    /// since who stores it with the journal needs it twice. At a refusal, for want of memory too,
    /// nothing has changed: what was reserved stays so.
    pub fn reserve_step(&mut self, plan: &Plan) -> Result<(Event, Event), StepRefusal>
        requires { Fits self.old.run plan.now }
        ensures run { self.new.run ≡ self.old.run }
        ensures event { IfOk result (λ p. (p.0 ≡ event_of self.old.run plan.now) × (p.1 ≡ event_of self.old.run plan.now)) }
        ensures reserved { OnOk result (self.new.reserved ≡ Some (event_of self.old.run plan.now)) }
        ensures ready { OnOk result (IsOpen self.old.run plan.now) }
        ensures refused { IfErr result (Refuses self.old.run plan.now) }
        ensures err { OnErr result (self.new ≡ self.old) }
    {
        if let Some(refusal) = self.refusal(plan) {
            return Err(refusal);
        }
        match self.prepare(plan) {
            Ok(events) => Ok(events),
            Err(_) => Err(StepRefusal::Memory),
        }
    }

    /// Executes the step that was planned. What can fail comes first: at a refusal, for want of
    /// memory too, nothing has changed, and what is reserved stays so. Right after a `reserve_step`
    /// of the same plan that answered Ok it takes no memory.
    pub fn step(&mut self, plan: Plan) -> Result<StepId, StepRefusal>
        requires { Fits self.old.run plan }
        ensures stepped { Stepped self.old.run plan self.new.run result }
        ensures err { OnErr result (self.new ≡ self.old) }
        ensures room { IsOpen self.old.run plan → self.old.reserved ≡ Some (event_of self.old.run plan) → IsOk result }
    {
        if let Some(refusal) = self.refusal(&plan) {
            return Err(refusal);
        }
        if self.has_spawn_of(&plan) {
            return Ok(self.step_reserved(plan));
        }
        match self.take(plan) {
            Ok(id) => Ok(id),
            Err(_) => Err(StepRefusal::Memory),
        }
    }

    /// Applies an event that may follow the others.
    #[inline(always)]
    fn append(&mut self, event: Event, to: u32) -> Result<(), AllocError>
        requires may { MayFollow self.old.run.cells (history self.old.run) event }
        requires room { length self.old.run.steps < self.old.run.limit }
        ensures ok { OnOk result (self.new.run ≡ grown_by event to self.old.run) }
        ensures err { OnErr result (self.new ≡ self.old) }
    {
        let at = self.count();
        reserve_one(&mut self.entries)?;
        let task = number_in(&self.tables, &event.task);
        self.places.reserve(Some(task as usize), &event.action)?;
        let replaced = self.tables.apply(&event, to)?;
        forget(&mut self.reserved);
        self.places
            .push_reserved(Some(task as usize), &event.action, at);
        self.entries
            .push_reserved(Entry::new(task, action_of(event), replaced));
        Ok(())
    }

    /// The steps that are there, from the oldest to the newest, each with the line at which it left
    /// its task and what it replaced: they are a legal history.
    pub fn legal_entries(&self) -> History<'_>
        ensures steps { map departure (reverse result) ≡ self.now.run.steps }
        ensures legal { AreLegal result }
        ensures records { AreRecords self.now.run.cells self.now.run.root_line (reverse result) }
        ensures bound { length result ≤ 1000000 }
    {
        History::of(self.entries.as_slice(), &self.tables, &self.places)
    }
}

/// The patterns name every field: none is a program, and a step's record is all that is retained
/// for its undo. They are compiled with the crate, so that a further field is refused until it is
/// named here.
fn name_every_field(core: &Core, entry: &Entry) {
    let Core {
        alloc: _,
        first: _,
        root_line: _,
        limit: _,
        entries: _,
        places: _,
        tables: _,
        reserved: _,
    } = core;
    let Entry {
        action: _,
        number: _,
        task: _,
        at: _,
    } = entry;
}

/// Reserves capacity for one more stored step, mostly without a call.
#[inline(always)]
fn reserve_one(entries: &mut Vec<Entry>) -> Result<(), AllocError>
    ensures items { entries.new.items ≡ entries.old.items }
    ensures keeps { vec_capacity entries.old ≤ vec_capacity entries.new }
    ensures ok { OnOk result (vec_len entries.new + 1 ≤ vec_capacity entries.new) }
    ensures succeeds { vec_len entries.old + 1 ≤ vec_capacity entries.old → IsOk result }
{
    if entries.len() < entries.capacity() {
        return Ok(());
    }
    entries.reserve(1)
}
