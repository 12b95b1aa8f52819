//! The joined tables of a history. They hold no program and no events.

ghost use Rattle.std.specs.Prelude.{◌≡◌, ◌<◌, ◌≤◌, ◌-◌, ◌↔◌, IsTrue, [], ◌∷◌, OnOk, OnErr, IfOk, IsOk, Some, None, drop, length, true, false, if◌then◌else◌, option_map};
ghost use Rattle.tb_model.specs.Facts.{is_print};
ghost use Rattle.tb_wait.specs.Kin.{HasRoomFor as HasRoomForChild, KeepsNames, IsNext, IsLast, Adds, Drops, Changes, with_over};
ghost use Rattle.tb_ready.specs.Tasks.{mark_of, with_name, without_name, with_mark};
ghost use Rattle.tb_undo.specs.Tasks.{Task, row, task, HasChildRoomIn, fresh_task, register_by, register_over, IsRegister};
ghost use Rattle.tb_undo.specs.Places.{HasPlaceOrRoom};
ghost use Rattle.tb_undo.specs.Sets.{Reserves, IsLinked, HasSetRoom, Sets, Comes, Goes, number_of};
ghost use Rattle.tb_undo.specs.State.{IsState};
ghost use Rattle.tb_undo.specs.Steps.{IsAhead, IsBehind, IsRecord, Stands, IsWithout};
ghost use Rattle.tb_undo.specs.Changes.{IsRest, KeepsRoom, HasFamilyRoom, Changed, ChangedTasks, ChangedBack, Acted, ActedBack, AreSame, HasRoomFor, HasTaskRoomFor, HasSpawnRoom, CanChange, CanChangeTasks, CanChangeBack, replaced_in, cell_over, IsCell, cells_by, output_by, cells_back, output_back};

use crate::copies::Copies;
use crate::row::Row;
use crate::rows;
use std::alloc::{AllocError, Global};
use std::marker::Model;
use tb_model::{Action, Event, Item, TaskName};
use tb_ready::Ready;
use tb_store::{Replaced, Store};
use tb_wait::Wait;

/// The state that a history leaves: the cells and the output, who waits for whom, which tasks
/// haven't ended, and of each task where it is and its children by their items.
#[derive(Drop)]
pub struct Tables {
    pub(crate) alloc: Global,
    pub(crate) store: Store,
    pub(crate) waits: Wait,
    pub(crate) marks: Ready,
    // a task's row at the index of its name in `waits`, and none there while its spawn is undone
    pub(crate) rows: Vec<Option<Row>>,
    // where the row of the task that took the last step is, so looked for first
    pub(crate) near: usize,
    pub(crate) copies: Option<Copies>,
}

impl Model for Tables {
    ghost use Rattle.std.specs.Prelude.{◌-◌, length, vec_capacity, option_map};
    ghost use Rattle.tb_undo.specs.declared.copies.Copies.{Copies as TheCopies};
    ghost use Rattle.tb_undo.specs.Places.{AreInPlace, rows_in};
    ghost use Rattle.tb_undo.specs.State.{Seen};

    ghost Value = { Seen };

    ghost view = { λ t. record { store = t.store; waits = t.waits; marks = t.marks; rows = rows_in t.rows.items; row_room = vec_capacity t.rows - length t.rows.items; copied = option_map (λ (c : TheCopies). c.of_holders) t.copies } };

    ghost invariant = { λ t. AreInPlace t.waits.tasks t.rows.items };
}

impl Tables {
    /// The tables of a history without events: a program with these first values of its cells, and
    /// with the body of the root at this line.
    pub fn open(alloc: Global, cells: &[i64], root_line: u32) -> Result<Tables, AllocError>
        ensures { IfOk result (IsState cells.now root_line []) }
    {
        Ok(Tables {
            alloc,
            store: Store::open(alloc, cells)?,
            waits: Wait::open(alloc)?,
            marks: root_mark(alloc)?,
            rows: rows::root_row(alloc, root_line)?,
            near: 0,
            copies: None,
        })
    }

    /// Reserves the capacity that `apply` needs for this event, and changes nothing else.
    #[inline(always)]
    pub fn reserve_apply(&mut self, event: &Event) -> Result<(), AllocError>
        requires { IsAhead self.old event.now }
        ensures same { AreSame self.old self.new }
        ensures names { KeepsNames self.old.waits.tasks self.new.waits.tasks }
        ensures keeps { OnErr result (KeepsRoom self.old self.new) }
        ensures ok { OnOk result (HasRoomFor self.new event.now) }
        ensures succeeds { HasRoomFor self.old event.now → IsOk result }
    {
        match &event.action {
            Action::Print { .. } => self.store.reserve_say(),
            _ => self.reserve_tasks(event),
        }
    }

    /// Applies the event, which leaves its task at this line, and returns what it replaced. The
    /// history of the tables with this event after it is legal.
    #[inline(always)]
    pub fn apply(&mut self, event: &Event, to: u32) -> Result<Replaced, AllocError>
        requires { IsAhead self.old event.now }
        ensures applied { OnOk result (IsBehind self.old event.now to self.new) }
        ensures replaced { IfOk result (IsRecord self.old event.now) }
        ensures err { OnErr result (AreSame self.old self.new) }
        ensures keeps { OnErr result (KeepsRoom self.old self.new) }
        ensures names { KeepsNames self.old.waits.tasks self.new.waits.tasks }
        ensures succeeds { HasRoomFor self.old event.now → IsOk result }
    {
        self.reserve_apply(event)?;
        Ok(self.change(event, to))
    }

    /// Takes the event back by what it replaced, wherever it is in the history: nothing there needs
    /// it. Takes no memory.
    pub fn revert(&mut self, event: &Event, replaced: Replaced)
        requires { Stands self.old event.now replaced }
        ensures without { IsWithout self.old event.now replaced self.new }
        ensures names { KeepsNames self.old.waits.tasks self.new.waits.tasks }
    {
        self.change_back(event, replaced)
    }

    /// Turns to the task, which executes a step: its row, and what is stored of it besides, are
    /// looked for where they are.
    fn turn_to(&mut self, name: &TaskName)
        ensures { self.new ≡ self.old }
    {
        self.turn_near(self.near, name);
    }

    /// Turns to the task, which executes a step. Its row is looked for at this index first, which
    /// may be any.
    #[inline(always)]
    pub fn turn_near(&mut self, near: usize, name: &TaskName)
        ensures { self.new ≡ self.old }
    {
        if let Some(at) = self.waits.turn_to(near, name) {
            self.near = at;
        }
    }

    /// Turns to the task, which executes a step, where the index of its row is known.
    #[inline(always)]
    pub(crate) fn turn_to_place(&mut self, at: usize, name: &TaskName)
        ensures { self.new ≡ self.old }
    {
        if at != self.near {
            self.turn_near(at, name);
        }
    }

    /// Reserves the capacity for the spawn of a child. The names that are copied for another are
    /// given up last, so not where memory is wanted.
    pub(crate) fn reserve_spawn(
        &mut self,
        parent: &TaskName,
        child: &TaskName,
        items: &[Item],
        deferred: bool,
    ) -> Result<(), AllocError>
        requires { parent.now ≡ drop 1 child.now }
        ensures same { AreSame self.old self.new }
        ensures names { KeepsNames self.old.waits.tasks self.new.waits.tasks }
        ensures keeps { OnErr result (KeepsRoom self.old self.new) }
        ensures ok { OnOk result (HasSpawnRoom self.new parent.now child.now items.now deferred) }
        ensures succeeds { HasSpawnRoom self.old parent.now child.now items.now deferred → IsOk result }
    {
        self.turn_to(parent);
        self.reserve_family(parent, child, items, deferred)?;
        self.reserve_copies(parent, child)
    }

    /// Reserves the capacity for the child on each table, but for its names.
    fn reserve_family(
        &mut self,
        parent: &TaskName,
        child: &TaskName,
        items: &[Item],
        deferred: bool,
    ) -> Result<(), AllocError>
        ensures same { AreSame self.old self.new }
        ensures names { KeepsNames self.old.waits.tasks self.new.waits.tasks }
        ensures keeps { KeepsRoom self.old self.new }
        ensures ok { OnOk result (HasFamilyRoom self.new parent.now child.now items.now deferred) }
        ensures succeeds { HasFamilyRoom self.old parent.now child.now items.now deferred → IsOk result }
    {
        self.reserve_row(parent, child, items, deferred)?;
        self.waits.reserve_spawned(parent, child)?;
        self.marks.reserve_add(child)
    }

    /// Reserves the capacity for the child's row, and for the step of its parent.
    fn reserve_row(
        &mut self,
        parent: &TaskName,
        child: &TaskName,
        items: &[Item],
        deferred: bool,
    ) -> Result<(), AllocError>
        ensures rest { IsRest self.old self.new }
        ensures copied { self.new.copied ≡ self.old.copied }
        ensures keeps { self.old.row_room ≤ self.new.row_room }
        ensures rows { Reserves self.old.rows self.new.rows }
        ensures row { OnOk result (HasPlaceOrRoom self.new.waits.tasks child.now self.new.row_room) }
        ensures child { OnOk result (HasChildRoomIn self.new.rows parent.now items.now deferred) }
        ensures succeeds { HasPlaceOrRoom self.old.waits.tasks child.now self.old.row_room →
            HasChildRoomIn self.old.rows parent.now items.now deferred → IsOk result }
    {
        rows::reserve_row(
            &mut self.rows,
            &self.waits,
            self.near,
            parent,
            child,
            items,
            deferred,
        )
    }

    /// Reserves the capacity for what a start takes.
    pub(crate) fn reserve_start(&mut self, name: &TaskName) -> Result<(), AllocError>
        requires { IsLinked self.old.rows name.now }
        ensures same { AreSame self.old self.new }
        ensures names { KeepsNames self.old.waits.tasks self.new.waits.tasks }
        ensures keeps { KeepsRoom self.old self.new }
        ensures ok { OnOk result (HasSetRoom self.new.rows name.now) }
        ensures succeeds { HasSetRoom self.old.rows name.now → IsOk result }
    {
        self.turn_to(name);
        rows::reserve_hold(&mut self.rows, &self.waits, self.near, name)
    }

    /// Whether this child's names were copied.
    fn has_copies(&self, child: &TaskName) -> bool
        ensures { IsTrue result ↔ (self.now.copied ≡ Some child.now) }
    {
        match &self.copies {
            Some(copies) => copies.of_holders == *child,
            None => false,
        }
    }

    /// Copies this child's names, in place of those of another.
    fn reserve_copies(&mut self, parent: &TaskName, child: &TaskName) -> Result<(), AllocError>
        requires { parent.now ≡ drop 1 child.now }
        ensures rest { self.new ≡ record self.old { copied = self.new.copied } }
        ensures err { OnErr result (self.new ≡ self.old) }
        ensures ok { OnOk result (self.new.copied ≡ Some child.now) }
        ensures succeeds { self.old.copied ≡ Some child.now → IsOk result }
    {
        if self.has_copies(child) {
            return Ok(());
        }
        self.copies = Some(Copies::of(parent, child)?);
        Ok(())
    }

    /// Applies the event on all tables, in the capacity that is there.
    #[inline(always)]
    fn change(&mut self, event: &Event, to: u32) -> Replaced
        requires can { CanChange self.old event.now }
        requires room { HasRoomFor self.old event.now }
        ensures changed { Changed event.now to self.old self.new }
        ensures names { KeepsNames self.old.waits.tasks self.new.waits.tasks }
        ensures replaced { (k : Task) → task self.old.rows event.now.task ≡ Some k →
            result ≡ replaced_in event.now.action self.old.store.cells k }
    {
        let (over, at) = self.change_tasks(event, to);
        let number = self.write(&event.action);
        Replaced {
            number: number.or(over),
            reg: register(&event.action),
            at,
        }
    }

    /// What the event changes for other tasks.
    #[inline(always)]
    pub(crate) fn act(&mut self, event: &Event)
        requires can { CanChangeTasks self.old event.now }
        requires room { HasTaskRoomFor self.old event.now }
        ensures acted { Acted event.now self.old self.new }
        ensures names { KeepsNames self.old.waits.tasks self.new.waits.tasks }
    {
        let name = &event.task;
        match &event.action {
            Action::Start => self.hold(name, true),
            Action::Spawn(spawned) => {
                let spawn = spawned.get();
                self.spawn(name, &spawn.child, spawn.body, spawn.args.as_slice());
            }
            Action::Open => self.waits.opened(name).unwrap(),
            Action::Close => self.waits.closed(name),
            Action::End | Action::Fault => self.end(name),
            _ => {}
        }
    }

    /// What the action stores or prints. Returns the value that it writes over in the cells.
    #[inline(always)]
    fn write(&mut self, action: &Action) -> Option<i64>
        requires cell { IsCell (length self.old.store.cells) action.now }
        requires room { is_print action.now ≡ true → 0 < self.old.store.room }
        ensures cells { self.new.store.cells ≡ cells_by action.now self.old.store.cells }
        ensures output { self.new.store.output ≡ output_by action.now self.old.store.output }
        ensures rest { self.new ≡ record self.old { store = self.new.store } }
        ensures over { result ≡ cell_over action.now self.old.store.cells }
    {
        match action {
            Action::Store { cell, value } => self.store.put(*cell, *value).number,
            Action::Print { value } => {
                self.store.say(*value).unwrap();
                None
            }
            _ => None,
        }
    }

    /// A child comes to be, with its name's copies that were made for it.
    fn spawn(&mut self, parent: &TaskName, child: &TaskName, body: u32, args: &[i64])
        requires next { IsNext self.old.waits.tasks parent.now child.now }
        requires absent { mark_of self.old.marks.tasks child.now ≡ None }
        requires family { parent.now ≡ drop 1 child.now }
        requires few { length args.now ≤ 16 }
        requires waits { HasRoomForChild self.old.waits parent.now child.now }
        requires marks { 0 < self.old.marks.room }
        requires row { HasPlaceOrRoom self.old.waits.tasks child.now self.old.row_room }
        requires copied { self.old.copied ≡ Some child.now }
        ensures store { self.new.store ≡ self.old.store }
        ensures waits { Adds self.old.waits.tasks parent.now child.now self.new.waits.tasks }
        ensures names { KeepsNames self.old.waits.tasks self.new.waits.tasks }
        ensures marks { self.new.marks.tasks ≡ with_mark (with_name self.old.marks.tasks child.now) child.now true }
        ensures rows { Comes self.old.rows child.now (fresh_task parent.now body args.now) self.new.rows }
    {
        let Copies {
            of_holders,
            of_waits,
            of_marks,
            parent: its_parent,
            ..
        } = self.copies.take().unwrap();
        self.waits.spawned_reserved(parent, of_waits);
        self.marks.add_reserved(of_marks);
        self.marks.mark(child, true);
        let row = Row::new(self.alloc, of_holders, its_parent, self.near, body, args);
        rows::add(&mut self.rows, &self.waits, child, row);
    }

    /// A task holds what its items take, or holds it no longer.
    fn hold(&mut self, name: &TaskName, held: bool)
        requires linked { IsLinked self.old.rows name.now }
        requires room { held ≡ true → HasSetRoom self.old.rows name.now }
        ensures store { self.new.store ≡ self.old.store }
        ensures waits { self.new.waits ≡ self.old.waits }
        ensures marks { self.new.marks ≡ self.old.marks }
        ensures rows { Sets self.old.rows name.now (if held then number_of name.now else None) self.new.rows }
    {
        rows::hold(&mut self.rows, &self.waits, self.near, name, held);
    }

    /// A task is over.
    fn end(&mut self, name: &TaskName)
        requires { IsLinked self.old.rows name.now }
        ensures store { self.new.store ≡ self.old.store }
        ensures waits { Changes self.old.waits.tasks name.now (with_over true) self.new.waits.tasks }
        ensures names { KeepsNames self.old.waits.tasks self.new.waits.tasks }
        ensures marks { self.new.marks.tasks ≡ with_mark self.old.marks.tasks name.now false }
        ensures rows { Sets self.old.rows name.now None self.new.rows }
    {
        self.waits.ended(name);
        self.marks.mark_near(self.near, name, false);
        rows::hold(&mut self.rows, &self.waits, self.near, name, false);
    }

    /// Takes the event back on all tables, by what it replaced.
    fn change_back(&mut self, event: &Event, replaced: Replaced)
        requires { CanChangeBack self.old event.now }
        ensures changed { ChangedBack event.now replaced self.old self.new }
        ensures names { KeepsNames self.old.waits.tasks self.new.waits.tasks }
    {
        self.turn_to(&event.task);
        self.act_back(event);
        self.write_back(&event.action, replaced);
        rows::retreat(
            &mut self.rows,
            &self.waits,
            self.near,
            &event.task,
            &event.action,
            replaced,
        );
    }

    /// What was stored or printed is taken back.
    fn write_back(&mut self, action: &Action, replaced: Replaced)
        requires { IsCell (length self.old.store.cells) action.now }
        ensures cells { self.new.store.cells ≡ cells_back action.now replaced.number self.old.store.cells }
        ensures output { self.new.store.output ≡ output_back action.now self.old.store.output }
        ensures rest { self.new ≡ record self.old { store = self.new.store } }
    {
        match action {
            Action::Store { cell, .. } => self.store.put_back(*cell, replaced),
            Action::Print { .. } => self.store.unsay(),
            _ => {}
        }
    }

    /// What the event changed for other tasks is taken back.
    fn act_back(&mut self, event: &Event)
        requires { CanChangeBack self.old event.now }
        ensures acted { ActedBack event.now self.old self.new }
        ensures names { KeepsNames self.old.waits.tasks self.new.waits.tasks }
    {
        let name = &event.task;
        match &event.action {
            Action::Start => self.hold(name, false),
            Action::Spawn(spawned) => self.unspawn(name, &spawned.get().child),
            Action::Open => self.waits.unopened(name),
            Action::Close => self.waits.unclosed(name),
            Action::End | Action::Fault => self.unend(name),
            _ => {}
        }
    }

    /// The task's last child is no longer there.
    fn unspawn(&mut self, parent: &TaskName, child: &TaskName)
        requires { IsLast self.old.waits.tasks parent.now child.now }
        ensures store { self.new.store ≡ self.old.store }
        ensures waits { Drops self.old.waits.tasks parent.now child.now self.new.waits.tasks }
        ensures names { KeepsNames self.old.waits.tasks self.new.waits.tasks }
        ensures marks { self.new.marks.tasks ≡ without_name self.old.marks.tasks child.now }
        ensures rows { Goes self.old.rows child.now self.new.rows }
    {
        self.waits.unspawned(parent, child);
        self.marks.remove(child);
        rows::remove(&mut self.rows, &self.waits, self.near, child);
    }

    /// The task isn't over any longer, and holds again what its items take.
    fn unend(&mut self, name: &TaskName)
        requires linked { IsLinked self.old.rows name.now }
        requires room { HasSetRoom self.old.rows name.now }
        ensures store { self.new.store ≡ self.old.store }
        ensures waits { Changes self.old.waits.tasks name.now (with_over false) self.new.waits.tasks }
        ensures names { KeepsNames self.old.waits.tasks self.new.waits.tasks }
        ensures marks { self.new.marks.tasks ≡ with_mark self.old.marks.tasks name.now true }
        ensures rows { Sets self.old.rows name.now (number_of name.now) self.new.rows }
    {
        self.waits.unended(name);
        self.marks.mark_near(self.near, name, true);
        rows::hold(&mut self.rows, &self.waits, self.near, name, true);
    }
}

/// The register that the action writes.
#[inline(always)]
fn register(action: &Action) -> Option<u8>
    ensures { result ≡ register_by action.now }
{
    match action {
        Action::Let { reg, .. } | Action::Load { reg, .. } => Some(*reg),
        _ => None,
    }
}

/// The root, marked.
fn root_mark(alloc: Global) -> Result<Ready, AllocError>
    ensures { IfOk result (λ marks. marks.tasks ≡ ([], true) ∷ []) }
{
    let mut marks = Ready::new(alloc);
    marks.add(TaskName::root(alloc))?;
    marks.mark(&TaskName::root(alloc), true);
    Ok(marks)
}
