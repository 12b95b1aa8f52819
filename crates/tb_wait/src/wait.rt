//! The table of waits.

mod turning;

ghost use Rattle.std.specs.Prelude.{◌≡◌, ◌≢◌, ◌<◌, ◌≤◌, ◌-◌, ◌+◌, ◌++◌, ℕ, [], ◌∷◌, true, false, IsTrue, OnOk, OnErr, IsOk, IfOk, Some, None, is_some, length, vec_capacity, suc, List, if◌then◌else◌, reverse};
ghost use Rattle.std.specs.List.{zip};
ghost use Rattle.std.specs.Map.{keys_of};
ghost use Rattle.tb_wait.specs.Rows.{key, slot_at, groups_of, Fits};
ghost use Rattle.tb_wait.specs.Kin.{Kin, slot};
ghost use Rattle.std.specs.Option.{option_copied, option_map};
ghost use Rattle.tb_model.specs.Names.{same_name, child};
ghost use Rattle.tb_model.specs.LeastNames.{IsLeastName};
ghost use Rattle.tb_wait.specs.Kin.{kin, place, fresh, with_over, opened_kin, unopened_kin, closed_kin, unclosed_kin, Changes, IsSame, KeepsNames, HasSameNames, names_with, KeepsRoom, HasGroupRoom, HasChildRoom, HasRoomFor, HasOpenGroup, is_known, Adds, Drops, IsNext, IsLast, is_fresh, IsUnendedChild, IsNextUnended, IsUnendedMember};

use crate::names::Names;
use crate::near::Near;
use crate::row::Row;
use crate::tree::Tree;
use crate::{rows, standing};
use std::alloc::{AllocError, Global};
use std::marker::Model;
use tb_model::TaskName;

/// What is stored of each task that was generated. A name that was once there retains its index, so
/// that what comes back finds its capacity.
#[derive(Drop)]
pub struct Wait {
    alloc: Global,
    names: Names,
    rows: Vec<Row>,
    tree: Tree,
    room: usize,
    // where a name is looked for first
    near: Near,
}

impl Model for Wait {
    ghost use Rattle.std.specs.Prelude.{◌≤◌, ◌+◌, length, vec_capacity};
    ghost use Rattle.tb_wait.specs.Kin.{Table};
    ghost use Rattle.std.specs.List.{zip};
    ghost use Rattle.tb_wait.specs.Rows.{Fits};

    ghost Value = { Table };

    ghost view = { λ w. record { tasks = zip w.names.keys w.rows.items; room = w.room } };

    ghost invariant = { λ w. Fits w.names.keys w.rows.items w.tree.nodes
        × (w.room ≤ w.names.spare)
        × (length w.rows.items + w.room ≤ vec_capacity w.rows)
        × (w.room ≤ w.tree.room) };
}

impl Wait {
    /// The table of a history without events, in which the root alone is there.
    pub fn open(alloc: Global) -> Result<Wait, AllocError>
        ensures kin { IfOk result (λ w. (t : List ℕ) → kin w.tasks t ≡ (if same_name [] t then Some fresh else None)) }
        ensures names { IfOk result (λ w. keys_of w.tasks ≡ [] ∷ []) }
    {
        let names = Names::root(alloc)?;
        let rows = rows::root_rows(alloc)?;
        let tree = Tree::root(alloc)?;
        Ok(Wait {
            alloc,
            names,
            rows,
            tree,
            room: 0,
            near: Near { own: 0, above: 0 },
        })
    }

    /// Reserves the capacity that `spawned` needs, and changes nothing else.
    pub fn reserve_spawned(&mut self, parent: &TaskName, child: &TaskName) -> Result<(), AllocError>
        ensures ok { OnOk result (HasRoomFor self.new parent.now child.now) }
        ensures tasks { IsSame self.old.tasks self.new.tasks }
        ensures room { KeepsRoom self.old self.new }
        ensures succeeds { HasRoomFor self.old parent.now child.now → IsOk result }
    {
        if self.is_known(parent, child) {
            return Ok(());
        }
        self.reserve_child(parent)?;
        self.reserve_place()
    }

    /// Whether the child was ever generated, so has its index. Where its parent was, its ordinal
    /// says that.
    pub fn is_known(&self, parent: &TaskName, child: &TaskName) -> bool
        ensures { result ≡ is_known self.now.tasks child.now }
    {
        match self.near.find(&self.names, &self.tree, parent) {
            Some(owner) if parent.is_parent_of(child) => {
                self.tree.has_child(owner, number_of(child))
            }
            _ => self.near.find(&self.names, &self.tree, child).is_some(),
        }
    }

    fn reserve_child(&mut self, task: &TaskName) -> Result<(), AllocError>
        ensures ok { OnOk result (HasChildRoom self.new.tasks task.now) }
        ensures tasks { IsSame self.old.tasks self.new.tasks }
        ensures room { KeepsRoom self.old self.new }
        ensures succeeds { HasChildRoom self.old.tasks task.now → IsOk result }
    {
        match self.near.find(&self.names, &self.tree, task) {
            Some(at) => {
                if rows::child_room(&self.rows, at) == 0 {
                    self.tree.reserve_child(at)?;
                    rows::set_child_room(&mut self.rows, at, 1);
                }
                Ok(())
            }
            None => Ok(()),
        }
    }

    fn reserve_place(&mut self) -> Result<(), AllocError>
        ensures ok { OnOk result (0 < self.new.room) }
        ensures tasks { self.new.tasks ≡ self.old.tasks }
        ensures room { self.old.room ≤ self.new.room }
        ensures succeeds { 0 < self.old.room → IsOk result }
    {
        if self.room == 0 {
            self.names.reserve()?;
            self.rows.reserve(1)?;
            self.tree.reserve()?;
            self.room = 1;
        }
        Ok(())
    }

    /// The parent generated its next child. With capacity it takes no memory.
    pub fn spawned(&mut self, parent: &TaskName, child: TaskName) -> Result<(), AllocError>
        requires { IsNext self.old.tasks parent.now child }
        ensures ok { OnOk result (Adds self.old.tasks parent.now child self.new.tasks) }
        ensures err { OnErr result (IsSame self.old.tasks self.new.tasks) }
        ensures names { KeepsNames self.old.tasks self.new.tasks }
        ensures room { self.old.room ≤ self.new.room + 1 }
        ensures succeeds { HasRoomFor self.old parent.now child → IsOk result }
    {
        self.reserve_spawned(parent, &child)?;
        self.spawned_reserved(parent, child);
        Ok(())
    }

    /// The parent generated its next child, which is entered in the capacity that is there.
    pub fn spawned_reserved(&mut self, parent: &TaskName, child: TaskName)
        requires next { IsNext self.old.tasks parent.now child }
        requires room { HasRoomFor self.old parent.now child }
        ensures tasks { Adds self.old.tasks parent.now child self.new.tasks }
        ensures names { keys_of self.new.tasks ≡ names_with self.old.tasks child }
        ensures room { self.old.room ≤ self.new.room + 1 }
    {
        if self.is_next_known(parent, &child) {
            self.enter(parent, &child);
        } else {
            self.enter_new(parent, child);
        }
    }

    // Whether the child that the parent generates next was ever generated: its ordinal says that.
    #[inline(always)]
    fn is_next_known(&self, parent: &TaskName, child: &TaskName) -> bool
        requires { IsNext self.now.tasks parent.now child.now }
        ensures { result ≡ is_known self.now.tasks child.now }
    {
        match self.near.find(&self.names, &self.tree, parent) {
            Some(owner) => self.tree.has_child(owner, number_of(child)),
            None => self.near.find(&self.names, &self.tree, child).is_some(),
        }
    }

    fn enter(&mut self, parent: &TaskName, child: &TaskName)
        requires next { IsNext self.old.tasks parent.now child.now }
        requires known { is_known self.old.tasks child.now ≡ true }
        ensures tasks { Adds self.old.tasks parent.now child.now self.new.tasks }
        ensures names { keys_of self.new.tasks ≡ names_with self.old.tasks child.now }
        ensures room { self.new.room ≡ self.old.room }
    {
        if let Some(at) = self.near.find(&self.names, &self.tree, child) {
            standing::enter(&mut self.rows, &mut self.tree, at);
        }
    }

    fn enter_new(&mut self, parent: &TaskName, child: TaskName)
        requires next { IsNext self.old.tasks parent.now child }
        requires unknown { is_known self.old.tasks child ≡ false }
        requires room { 0 < self.old.room }
        requires child_room { HasChildRoom self.old.tasks parent.now }
        ensures tasks { Adds self.old.tasks parent.now child self.new.tasks }
        ensures names { keys_of self.new.tasks ≡ names_with self.old.tasks child }
        ensures room { self.old.room ≤ self.new.room + 1 }
    {
        if let Some(owner) = self.near.find(&self.names, &self.tree, parent) {
            let at = self.rows.len();
            make_place(
                &mut self.names,
                &mut self.rows,
                &mut self.tree,
                self.alloc,
                owner,
                child,
            );
            self.room -= 1;
            standing::enter(&mut self.rows, &mut self.tree, at);
        }
    }

    /// The spawn of the parent's last child is taken back; nothing is stored of the child yet. Its
    /// capacity stays.
    pub fn unspawned(&mut self, parent: &TaskName, child: &TaskName)
        requires { IsLast self.old.tasks parent.now child.now }
        ensures tasks { Drops self.old.tasks parent.now child.now self.new.tasks }
        ensures room { KeepsRoom self.old self.new }
    {
        if let Some(at) = self.near.find(&self.names, &self.tree, child) {
            standing::leave(&mut self.rows, &mut self.tree, at);
        }
    }

    /// The task is over.
    pub fn ended(&mut self, task: &TaskName)
        ensures tasks { Changes self.old.tasks task.now (with_over true) self.new.tasks }
        ensures room { KeepsRoom self.old self.new }
    {
        self.set_over(task, true)
    }

    /// The end of the task is taken back: it isn't over.
    pub fn unended(&mut self, task: &TaskName)
        ensures tasks { Changes self.old.tasks task.now (with_over false) self.new.tasks }
        ensures room { KeepsRoom self.old self.new }
    {
        self.set_over(task, false)
    }

    /// Reserves the capacity that `opened` needs, and changes nothing else.
    pub fn reserve_opened(&mut self, task: &TaskName) -> Result<(), AllocError>
        ensures ok { OnOk result (HasGroupRoom self.new.tasks task.now) }
        ensures tasks { IsSame self.old.tasks self.new.tasks }
        ensures room { KeepsRoom self.old self.new }
        ensures succeeds { HasGroupRoom self.old.tasks task.now → IsOk result }
    {
        match self.near.find(&self.names, &self.tree, task) {
            Some(at) => rows::reserve_group(&mut self.rows, at),
            None => Ok(()),
        }
    }

    /// The task opened a group. With capacity it takes no memory.
    pub fn opened(&mut self, task: &TaskName) -> Result<(), AllocError>
        ensures ok { OnOk result (Changes self.old.tasks task.now opened_kin self.new.tasks) }
        ensures err { OnErr result (IsSame self.old.tasks self.new.tasks) }
        ensures names { HasSameNames self.old.tasks self.new.tasks }
        ensures room { self.old.room ≤ self.new.room }
        ensures succeeds { HasGroupRoom self.old.tasks task.now → IsOk result }
    {
        match self.near.find(&self.names, &self.tree, task) {
            Some(at) => rows::open(&mut self.rows, at),
            None => Ok(()),
        }
    }

    /// The opening of the task's innermost group is taken back. The capacity for the group stays.
    pub fn unopened(&mut self, task: &TaskName)
        ensures tasks { Changes self.old.tasks task.now unopened_kin self.new.tasks }
        ensures room { KeepsRoom self.old self.new }
        ensures group_room { HasOpenGroup self.old.tasks task.now → HasGroupRoom self.new.tasks task.now }
    {
        if let Some(at) = self.near.find(&self.names, &self.tree, task) {
            rows::unopen(&mut self.rows, at);
        }
    }

    /// The task closed its innermost group.
    pub fn closed(&mut self, task: &TaskName)
        ensures tasks { Changes self.old.tasks task.now closed_kin self.new.tasks }
        ensures room { KeepsRoom self.old self.new }
    {
        if let Some(at) = self.near.find(&self.names, &self.tree, task) {
            rows::close(&mut self.rows, at);
        }
    }

    /// The closing of the task's last closed group is taken back. The capacity for the group was
    /// retained.
    pub fn unclosed(&mut self, task: &TaskName)
        ensures tasks { Changes self.old.tasks task.now unclosed_kin self.new.tasks }
        ensures room { KeepsRoom self.old self.new }
    {
        if let Some(at) = self.near.find(&self.names, &self.tree, task) {
            rows::unclose(&mut self.rows, at);
        }
    }

    /// The least child of the task that is there and isn't over.
    pub fn first_child(&self, task: &TaskName) -> Option<&TaskName>
        ensures { IsLeastName (IsUnendedChild self.now.tasks task.now) (option_copied result) }
    {
        let Some(at) = self.near.find(&self.names, &self.tree, task) else {
            return None;
        };
        let Some(first) = self.tree.first_unended(at) else {
            return None;
        };
        self.names.get(first)
    }

    /// The least ordinal above `low` of a child of the task that is there and isn't over. Takes no
    /// memory.
    pub fn next_unended(&self, task: &TaskName, low: u32) -> Option<u32>
        ensures { IsNextUnended self.now.tasks task.now low result }
    {
        let Some(at) = self.near.find(&self.names, &self.tree, task) else {
            return None;
        };
        self.tree.next_unended(at, low)
    }

    /// Whether the task's child of this ordinal is there and isn't over. Takes no memory, and no
    /// search among the children.
    pub fn is_child_unended(&self, task: &TaskName, number: u32) -> bool
        requires { 0 < number }
        ensures unended { IsTrue result → IsUnendedChild self.now.tasks task.now (child task.now number) }
        ensures over { result ≡ false → IsUnendedChild self.now.tasks task.now (child task.now number) → ⊥ }
    {
        let Some(at) = self.near.find(&self.names, &self.tree, task) else {
            return false;
        };
        self.tree.is_child_pending(at, number)
    }

    /// The least member of the task's innermost open group that is there and isn't over.
    pub fn first_member(&self, task: &TaskName) -> Option<&TaskName>
        ensures { IsLeastName (IsUnendedMember self.now.tasks task.now) (option_copied result) }
    {
        let Some(at) = self.near.find(&self.names, &self.tree, task) else {
            return None;
        };
        let Some(from) = rows::innermost(&self.rows, at) else {
            return None;
        };
        let Some(child) = self.tree.first_live(at, from) else {
            return None;
        };
        let first = self.tree.first_within(child);
        self.names.get(first)
    }

    /// What is stored of the task: whether it is over.
    #[inline(always)]
    pub fn is_over(&self, task: &TaskName) -> Option<bool>
        ensures { result ≡ option_map (λ (k : Kin). k.over) (kin self.now.tasks task.now) }
    {
        let Some(at) = self.near.find(&self.names, &self.tree, task) else {
            return None;
        };
        rows::is_over(&self.rows, at)
    }

    /// What is stored of the task: whether it is over. It is looked for at this index first, which
    /// may be any.
    #[inline(always)]
    pub fn is_over_near(&self, near: usize, task: &TaskName) -> Option<bool>
        ensures { result ≡ option_map (λ (k : Kin). k.over) (kin self.now.tasks task.now) }
    {
        let Some(at) = self.near.find_near(&self.names, &self.tree, near, task) else {
            return None;
        };
        rows::is_over(&self.rows, at)
    }

    /// How many children the task generated.
    pub fn children(&self, task: &TaskName) -> Option<u32>
        ensures { result ≡ option_map (λ (k : Kin). k.children) (kin self.now.tasks task.now) }
    {
        let Some(at) = self.near.find(&self.names, &self.tree, task) else {
            return None;
        };
        rows::children(&self.rows, at)
    }

    /// Whether the task is there and nothing is stored of it yet, so that its spawn can be undone.
    pub fn is_fresh(&self, task: &TaskName) -> bool
        ensures { result ≡ is_fresh (kin self.now.tasks task.now) }
    {
        let Some(at) = self.near.find(&self.names, &self.tree, task) else {
            return false;
        };
        rows::is_fresh(&self.rows, at)
    }

    /// For each open group of the task, the outermost first, how many children it had generated at
    /// the group's beginning. A task that isn't there has none.
    pub fn groups(&self, task: &TaskName) -> &[u32]
        ensures { result.now ≡ reverse (groups_of (kin self.now.tasks task.now)) }
    {
        let Some(at) = self.near.find(&self.names, &self.tree, task) else {
            return &[];
        };
        rows::groups(&self.rows, at)
    }

    fn set_over(&mut self, task: &TaskName, over: bool)
        ensures tasks { Changes self.old.tasks task.now (with_over over) self.new.tasks }
        ensures room { KeepsRoom self.old self.new }
    {
        if let Some(at) = self.near.find(&self.names, &self.tree, task) {
            rows::set_over(&mut self.rows, at, over);
            let pending = rows::is_pending(&self.rows, at);
            self.tree.set_pending(at, pending);
        }
    }
}

// An index for a child that was never there. It isn't there yet.
fn make_place(
    names: &mut Names,
    rows: &mut Vec<Row>,
    tree: &mut Tree,
    alloc: Global,
    owner: usize,
    child: TaskName,
)
    requires fits { Fits names.old.keys rows.old.items tree.old.nodes }
    requires within { owner < length names.old.keys }
    requires unknown { slot (zip names.old.keys rows.old.items) child ≡ None }
    requires next { (k : Kin) × ((slot_at rows.old.items owner).kin ≡ Some k) × (child ≡ suc k.children ∷ key names.old.keys owner) }
    requires child_room { 0 < (slot_at rows.old.items owner).child_room }
    requires names_room { 0 < names.old.spare }
    requires rows_room { length rows.old.items < vec_capacity rows.old }
    requires tree_room { 0 < tree.old.room }
    ensures fits { Fits names.new.keys rows.new.items tree.new.nodes }
    ensures same { IsSame (zip names.old.keys rows.old.items) (zip names.new.keys rows.new.items) }
    ensures names { names.new.keys ≡ names.old.keys ++ child ∷ [] }
    ensures named { key names.new.keys (length names.old.keys) ≡ child }
    ensures len { length names.new.keys ≡ length names.old.keys + 1 }
    ensures spare { names.old.spare ≤ names.new.spare + 1 }
    ensures rows_capacity { vec_capacity rows.new ≡ vec_capacity rows.old }
    ensures tree_room { tree.new.room ≡ tree.old.room - 1 }
{
    let room = rows::child_room(rows, owner);
    tree.add(alloc, owner, number_of(&child));
    rows::set_child_room(rows, owner, room - 1);
    rows::push(rows, alloc);
    names.push(child);
}

// The task's ordinal among the children of its parent.
fn number_of(task: &TaskName) -> u32
    ensures { (n : ℕ) (t : List ℕ) → task.now ≡ n ∷ t → result ≡ n }
{
    task.ordinal().unwrap_or(0)
}
