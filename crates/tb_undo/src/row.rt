//! What is stored of one task.

ghost use Rattle.std.specs.Prelude.{◌≡◌, ◌<◌, ◌≤◌, length, OnOk, IsOk, Some, None, true, false, if◌then◌else◌};
ghost use Rattle.tb_model.specs.declared.place.Place.{Place as APlace};
ghost use Rattle.tb_depend.specs.Relations.{items_at};
ghost use Rattle.tb_excl.specs.Holders.{holder, HasRoomFor, KeepsRoom, IsSet, IsSame};
ghost use Rattle.tb_undo.specs.Tasks.{HasChildRoom, KeepsRowRoom, seen_row, advanced, retreated, fresh_task, first_registers, HasRowRoom, IsRegister, register_over};

use crate::undeferred::Undeferred;
use std::alloc::{AllocError, Global};
use tb_depend::Siblings;
use tb_excl::Holders;
use tb_model::{Action, Item, TaskName};

/// A task, its children by their items, and which of them hold what.
#[derive(Drop)]
pub struct Row {
    pub parent: TaskName,
    // where the parent's row is looked for first
    pub near_parent: u32,
    pub body: u32,
    pub at: u32,
    pub steps: u32,
    pub regs: [i64; 16],
    pub undeferred: Undeferred,
    pub children: Siblings,
    pub holders: Holders,
}

impl Row {
    /// A task that the parent just generated, whose row may be at `above`, with its own name.
    pub fn new(
        alloc: Global,
        name: TaskName,
        parent: TaskName,
        above: usize,
        body: u32,
        args: &[i64],
    ) -> Row
        requires { length args.now ≤ 16 }
        ensures task { seen_row result ≡ fresh_task parent body args.now }
        ensures name { result.holders.parent ≡ name }
        ensures free { (p : APlace) → holder result.holders p ≡ None }
    {
        Row {
            parent,
            near_parent: u32::try_from(above).unwrap_or(0),
            body,
            at: body,
            steps: 0,
            regs: first_registers(args),
            undeferred: Undeferred::new(alloc),
            children: Siblings::new(alloc),
            holders: Holders::new(alloc, name),
        }
    }

    /// The task's own name.
    #[inline(always)]
    pub fn name(&self) -> &TaskName
        ensures { result.now ≡ self.now.holders.parent }
    {
        self.holders.parent()
    }

    /// Where the parent's row is looked for first.
    #[inline(always)]
    pub fn above(&self) -> usize {
        self.near_parent as usize
    }

    /// The value that the action writes over in the registers.
    #[inline(always)]
    pub fn over(&self, action: &Action) -> Option<i64>
        requires { IsRegister action.now }
        ensures { result ≡ register_over action.now self.now.regs }
    {
        match action {
            Action::Let { reg, .. } | Action::Load { reg, .. } => Some(self.regs[*reg as usize]),
            _ => None,
        }
    }

    /// The task executes a step, which leaves it at this line.
    #[inline(always)]
    pub fn advance(&mut self, action: &Action, to: u32)
        requires register { IsRegister action.now }
        requires few { self.old.steps < 4294967295 }
        requires room { HasRowRoom self.old action.now }
        ensures task { seen_row self.new ≡ advanced action.now to (seen_row self.old) }
        ensures holders { self.new.holders ≡ self.old.holders }
    {
        self.at = to;
        self.steps += 1;
        match action {
            Action::Let { reg, value } | Action::Load { reg, value, .. } => {
                self.regs[*reg as usize] = *value;
            }
            Action::Spawn(spawned) => {
                let spawn = spawned.get();
                self.children.add_reserved(spawn.items.as_slice());
                if !spawn.deferred {
                    self.undeferred.push(self.steps);
                }
            }
            _ => {}
        }
    }

    /// The nth child holds what its items take, or holds it no longer.
    pub fn hold(&mut self, n: u32, held: bool)
        requires from_one { 0 < n }
        requires room { held ≡ true → HasRoomFor self.old.holders (items_at self.old.children.siblings n) }
        ensures task { seen_row self.new ≡ seen_row self.old }
        ensures set { IsSet self.old.holders (items_at self.old.children.siblings n)
            (if held then Some n else None) self.new.holders }
        ensures keeps { KeepsRoom self.old.holders self.new.holders }
    {
        let items = self.children.items(n as usize);
        if held {
            self.holders.unrelease(n, items);
        } else {
            self.holders.release(items);
        }
    }

    /// Reserves the capacity that `hold` needs, and changes nothing else.
    pub fn reserve_hold(&mut self, n: u32) -> Result<(), AllocError>
        ensures task { seen_row self.new ≡ seen_row self.old }
        ensures ok { OnOk result (HasRoomFor self.new.holders (items_at self.new.children.siblings n)) }
        ensures same { IsSame self.old.holders self.new.holders }
        ensures keeps { KeepsRoom self.old.holders self.new.holders }
        ensures rooms { KeepsRowRoom self.old self.new }
        ensures succeeds { HasRoomFor self.old.holders (items_at self.old.children.siblings n) →
            IsOk result }
    {
        self.holders
            .reserve_take(n, self.children.items(n as usize))
    }

    /// Reserves the capacity that a step needs which generates a child with these items.
    pub fn reserve_child(&mut self, items: &[Item], deferred: bool) -> Result<(), AllocError>
        ensures task { seen_row self.new ≡ seen_row self.old }
        ensures ok { OnOk result (HasChildRoom self.new items.now deferred) }
        ensures holders { self.new.holders ≡ self.old.holders }
        ensures keeps { KeepsRowRoom self.old self.new }
        ensures succeeds { HasChildRoom self.old items.now deferred → IsOk result }
    {
        self.children.reserve_add(items)?;
        if deferred {
            Ok(())
        } else {
            self.undeferred.reserve()
        }
    }

    /// Takes its newest step back, by the value and the line that it replaced.
    pub fn retreat(&mut self, action: &Action, number: Option<i64>, at: u32)
        requires { IsRegister action.now }
        ensures task { seen_row self.new ≡ retreated action.now number at (seen_row self.old) }
        ensures holders { self.new.holders ≡ self.old.holders }
    {
        self.at = at;
        self.steps = self.steps.saturating_sub(1);
        match action {
            Action::Let { reg, .. } | Action::Load { reg, .. } => {
                if let Some(number) = number {
                    self.regs[*reg as usize] = number;
                }
            }
            Action::Spawn(spawned) => {
                self.children.drop_last();
                if !spawned.get().deferred {
                    self.undeferred.pop();
                }
            }
            _ => {}
        }
    }
}

/// The arguments, and then 0.
fn first_registers(args: &[i64]) -> [i64; 16]
    requires { length args.now ≤ 16 }
    ensures { result ≡ first_registers args.now }
{
    let mut regs = [0; 16];
    regs[..args.len()].copy_from_slice(args);
    regs
}
