//! Which task each seat claims.

ghost use Rattle.std.specs.Prelude.{◌≡◌, ◌<◌, ◌≤◌, ◌↔◌, IfOk, IfSome, IfNone, IsTrue, [], ◌∷◌, Some, None, true, length, replicate};
ghost use Rattle.std.specs.Option.{option_copied};
ghost use Rattle.tb_model.specs.Names.{same_name};
ghost use Rattle.tb_control.specs.Claims.{claim_of, with_claim, withdrawn, unless, is_hit, AreFreeFrom, IsHeldBeside, IsFreeBeside};

use std::alloc::{AllocError, Global};
use std::marker::Model;
use tb_core::Removed;
use tb_model::TaskName;

/// For each seat the task that it claims, if any.
#[derive(Drop)]
pub struct Claims {
    rows: Vec<Option<TaskName>>,
    // no seat from this one on claims a task, so that a step of a run with few seats asks few
    end: usize,
}

impl Model for Claims {
    ghost use Rattle.std.specs.Prelude.{◌≤◌, length};
    ghost use Rattle.tb_control.specs.Claims.{Claims as Rows, AreFreeFrom};

    ghost Value = { Rows };

    ghost view = { λ c. c.rows.items };

    ghost invariant = { λ c. (length c.rows.items ≤ 65) × (c.end ≤ length c.rows.items) × AreFreeFrom c.end c.rows.items };
}

impl Claims {
    /// No claims, of so many seats.
    pub fn none(alloc: Global, seats: u32) -> Result<Claims, AllocError>
        requires { seats ≤ 65 }
        ensures { IfOk result (λ c. c ≡ replicate seats None) }
    {
        let mut rows = Vec::with_capacity(alloc, seats as usize)?;
        for _ in 0..seats {
            rows.push(None)?;
        }
        Ok(Claims { rows, end: 0 })
    }

    /// How many seats there are.
    pub fn seats(&self) -> u32
        ensures { result ≡ length self.now }
    {
        self.rows.as_slice().len() as u32
    }

    /// The task that the seat claims.
    pub fn of(&self, seat: u32) -> Option<&TaskName>
        ensures { option_copied result ≡ claim_of self.now seat }
    {
        match self.rows.get(seat as usize) {
            Some(Some(task)) => Some(task),
            _ => None,
        }
    }

    /// Whether the seat claims the task.
    pub fn is_by(&self, seat: u32, task: &TaskName) -> bool
        ensures { IsTrue result ↔ (claim_of self.now seat ≡ Some task.now) }
    {
        match self.rows.get(seat as usize) {
            Some(row) => is_on(row, task),
            None => false,
        }
    }

    /// The seat other than this one that claims the task.
    pub fn held_beside(&self, seat: u32, task: &TaskName) -> Option<u32>
        ensures some { IfSome result (IsHeldBeside self.now seat task.now) }
        ensures none { IfNone result (IsFreeBeside self.now seat task.now) }
    {
        holder_beside(&self.rows, seat, task)
    }

    /// Gives the seat this claim in place of its former one.
    pub fn give(&mut self, seat: u32, task: TaskName)
        requires { seat < length self.old }
        ensures { self.new ≡ with_claim self.old seat (Some task) }
    {
        self.set(seat, Some(task));
    }

    /// Gives the seat this claim in place of its former one, or none.
    pub fn set(&mut self, seat: u32, claim: Option<TaskName>)
        requires { seat < length self.old }
        ensures { self.new ≡ with_claim self.old seat claim }
    {
        self.rows[seat as usize] = claim;
        if self.end <= seat as usize {
            self.end = seat as usize + 1;
        }
    }

    /// Ends the seat's claim, and returns it.
    pub fn take(&mut self, seat: u32) -> Option<TaskName>
        requires { seat < length self.old }
        ensures claim { result ≡ claim_of self.old seat }
        ensures after { self.new ≡ with_claim self.old seat None }
    {
        self.rows[seat as usize].take()
    }

    /// Ends the seat's claim.
    pub fn let_go(&mut self, seat: u32)
        requires { seat < length self.old }
        ensures { self.new ≡ with_claim self.old seat None }
    {
        self.rows[seat as usize] = None;
        if self.end == seat as usize + 1 {
            self.end = seat as usize;
        }
    }

    /// Withdraws each claim on the task.
    #[inline(always)]
    pub fn withdraw(&mut self, task: &TaskName)
        ensures { self.new ≡ withdrawn (same_name task.now) self.old }
    {
        withdraw_task(&mut self.rows, self.end, task);
    }

    /// Withdraws each claim on a task of which a step or the spawn was removed.
    pub fn withdraw_removed(&mut self, removed: &[Removed])
        ensures { self.new ≡ withdrawn (is_hit removed.now) self.old }
    {
        withdraw_hit(&mut self.rows, self.end, removed);
    }

    /// Withdraws each claim on the task of this removed step, and on the one that it generated.
    pub fn withdraw_one(&mut self, removed: &Removed)
        ensures { self.new ≡ withdrawn (is_hit (removed.now ∷ [])) self.old }
    {
        withdraw_by(&mut self.rows, self.end, removed);
    }

    /// Withdraws all claims.
    pub fn withdraw_all(&mut self)
        ensures { self.new ≡ withdrawn (λ t. true) self.old }
    {
        clear(&mut self.rows, self.end);
    }
}

fn holder_beside(rows: &[Option<TaskName>], seat: u32, task: &TaskName) -> Option<u32>
    requires { length rows.now ≤ 65 }
    ensures some { IfSome result (IsHeldBeside rows.now seat task.now) }
    ensures none { IfNone result (IsFreeBeside rows.now seat task.now) }
{
    for (at, row) in rows.iter().enumerate() {
        if at != seat as usize && is_on(row, task) {
            return Some(at as u32);
        }
    }
    None
}

fn is_on(row: &Option<TaskName>, task: &TaskName) -> bool
    ensures { IsTrue result ↔ (row.now ≡ Some task.now) }
{
    match row {
        Some(claimed) => claimed == task,
        None => false,
    }
}

fn clear(rows: &mut Vec<Option<TaskName>>, end: usize)
    requires within { end ≤ length rows.old.items }
    requires free { AreFreeFrom end rows.old.items }
    ensures { rows.new.items ≡ withdrawn (λ t. true) rows.old.items }
{
    for at in 0..end {
        forget(&mut rows[at]);
    }
}

#[inline(always)]
fn withdraw_task(rows: &mut Vec<Option<TaskName>>, end: usize, task: &TaskName)
    requires within { end ≤ length rows.old.items }
    requires free { AreFreeFrom end rows.old.items }
    ensures { rows.new.items ≡ withdrawn (same_name task.now) rows.old.items }
{
    for at in 0..end {
        leave(&mut rows[at], task);
    }
}

fn withdraw_hit(rows: &mut Vec<Option<TaskName>>, end: usize, removed: &[Removed])
    requires within { end ≤ length rows.old.items }
    requires free { AreFreeFrom end rows.old.items }
    ensures { rows.new.items ≡ withdrawn (is_hit removed.now) rows.old.items }
{
    for at in 0..end {
        leave_hit(&mut rows[at], removed);
    }
}

fn withdraw_by(rows: &mut Vec<Option<TaskName>>, end: usize, removed: &Removed)
    requires within { end ≤ length rows.old.items }
    requires free { AreFreeFrom end rows.old.items }
    ensures { rows.new.items ≡ withdrawn (is_hit (removed.now ∷ [])) rows.old.items }
{
    for at in 0..end {
        leave_by(&mut rows[at], removed);
    }
}

fn forget(row: &mut Option<TaskName>)
    ensures { row.new ≡ unless (λ t. true) row.old }
{
    *row = None;
}

fn leave(row: &mut Option<TaskName>, task: &TaskName)
    ensures { row.new ≡ unless (same_name task.now) row.old }
{
    if let Some(claimed) = row {
        if task == claimed {
            *row = None;
        }
    }
}

fn leave_hit(row: &mut Option<TaskName>, removed: &[Removed])
    ensures { row.new ≡ unless (is_hit removed.now) row.old }
{
    if let Some(claimed) = row {
        if is_hit(removed, claimed) {
            *row = None;
        }
    }
}

fn leave_by(row: &mut Option<TaskName>, removed: &Removed)
    ensures { row.new ≡ unless (is_hit (removed.now ∷ [])) row.old }
{
    if let Some(claimed) = row {
        if hits(removed, claimed) {
            *row = None;
        }
    }
}

/// Whether the removed step is one of the task, or generated it.
fn hits(removed: &Removed, task: &TaskName) -> bool
    ensures { result ≡ is_hit (removed.now ∷ []) task.now }
{
    removed.id.task == *task || removed.action.is_spawn_of(task)
}

/// Whether a step or the spawn of the task was removed.
fn is_hit(removed: &[Removed], task: &TaskName) -> bool
    ensures { result ≡ is_hit removed.now task.now }
{
    removed
        .iter()
        .any(|r| r.id.task == *task || r.action.is_spawn_of(task))
}
