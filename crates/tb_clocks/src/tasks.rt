//! What a history says of its tasks.

ghost use Rattle.std.specs.Prelude.{◌≡◌, ◌<◌, ◌∷◌, ◌==◌, ◌&&◌, false, [], nat_lt, IfOk, IfSome, OnErr, OnOk, length, reverse};
ghost use Rattle.tb_model.specs.declared.event.Event.{Event as AnEvent};
ghost use Rattle.tb_model.specs.Facts;
ghost use Rattle.tb_model.specs.Facts.{History, IsSpawned};
ghost use Rattle.tb_model.specs.Legal.{Cells, Legal, spawn_count};
ghost use Rattle.tb_model.specs.Names.{Name, is_child, is_elder};
ghost use Rattle.tb_clocks.specs.Known.{AreTasks, HasId, groups_in, holds_some, parent_of};
ghost use Rattle.tb_clocks.specs.Steps.{IsChildRow};
ghost use Rattle.tb_clocks.specs.Tree.{IsStepUp, first_of, older};
ghost use Rattle.tb_model.specs.Siblings.{is_later};

use crate::group::Group;
use crate::row::Row;
use crate::rows::{add, advance};
use std::alloc::{AllocError, Global};
use tb_model::{Action, Item, Items};

/// What a history says of its tasks, by their ids: they are counted in the order of spawning, the
/// root first. Memory goes by tasks, not by events.
#[derive(Drop)]
pub struct Tasks {
    /// A row for each task.
    rows: Vec<Row>,
    /// How many events there are.
    count: usize,
}

/// The row of the child that the action of this task generates, if it generates one.
// out of line: other actions don't pay for its stack frame
#[inline(never)]
fn child_row(alloc: Global, task: usize, action: &Action) -> Result<Option<Row>, AllocError>
    ensures { IfOk result (IsChildRow task action.now) }
{
    match action {
        Action::Spawn(spawned) => {
            let items = spawned.get().items.clone()?;
            let ordinal = spawned.get().child.ordinal().unwrap_or(0);
            Ok(Some(Row::new(alloc, task, ordinal, items)))
        }
        _ => Ok(None),
    }
}

impl Tasks {
    /// The root, without events.
    pub fn new(alloc: Global) -> Result<Tasks, AllocError>
        ensures { IfOk result (λ tasks. (cells : Cells) → AreTasks cells [] tasks) }
    {
        let mut rows = Vec::new(alloc);
        rows.push(Row::new(alloc, 0, 0, Items::new(alloc)))?;
        Ok(Tasks { rows, count: 0 })
    }

    /// Adds the action of the next event, which is of the task with this id. Where memory is
    /// wanted, nothing changes.
    pub fn push(&mut self, alloc: Global, task: usize, action: &Action) -> Result<(), AllocError>
        ensures ok { OnOk result ((cells : Cells) (H : History) (v : AnEvent) → AreTasks cells H self.old
            → v.action ≡ action.now → Legal cells (v ∷ H) → HasId H task v.task
            → AreTasks cells (v ∷ H) self.new) }
        ensures err { OnErr result ((cells : Cells) (H : History) → AreTasks cells H self.old → AreTasks cells H self.new) }
    {
        if self.count == usize::MAX {
            return Err(AllocError);
        }
        let child = child_row(alloc, task, action)?;
        self.rows.reserve(1)?;
        advance(&mut self.rows, task, self.count, action)?;
        add(&mut self.rows, child);
        self.count += 1;
        Ok(())
    }

    /// The depend items of the task.
    pub fn items(&self, task: usize) -> &[Item]
        ensures { (cells : Cells) (H : History) (t : Name) → AreTasks cells H self.now → HasId H task t → result.now ≡ Facts.items_of t H }
    {
        match self.rows.get(task) {
            Some(row) => row.items.as_slice(),
            None => &[],
        }
    }

    /// Whether the task's newest step generated an undeferred child.
    pub fn is_held(&self, task: usize) -> bool
        ensures { (cells : Cells) (H : History) (t : Name) → AreTasks cells H self.now → HasId H task t → result ≡ holds_some (Facts.own t H) }
    {
        match self.rows.get(task) {
            Some(row) => row.held,
            None => false,
        }
    }

    /// How many steps the task took.
    pub fn steps(&self, task: usize) -> u32
        ensures { (cells : Cells) (H : History) (t : Name) → AreTasks cells H self.now → HasId H task t → result ≡ length (Facts.own t H) }
    {
        match self.rows.get(task) {
            Some(row) => row.steps,
            None => 0,
        }
    }

    /// The id of the task's parent, and the root's own.
    pub fn parent(&self, task: usize) -> usize
        ensures { (cells : Cells) (H : History) (t : Name) → AreTasks cells H self.now → HasId H task t → HasId H result (parent_of t) }
    {
        match self.rows.get(task) {
            Some(row) => row.parent,
            None => 0,
        }
    }
    /// The innermost open group of the task.
    pub fn innermost(&self, task: usize) -> Option<Group>
        ensures { (cells : Cells) (H : History) (t : Name) → AreTasks cells H self.now → HasId H task t → result ≡ first_of (groups_in t H) }
    {
        match self.rows.get(task) {
            Some(row) => last(&row.groups),
            None => None,
        }
    }

    /// Whether a task is a member of the innermost open group of this one.
    pub fn is_member(&self, task: usize, member: usize) -> bool
        ensures { (cells : Cells) (H : History) (t m : Name) → AreTasks cells H self.now → HasId H task t → HasId H member m →
            result ≡ Facts.is_member (Facts.own t H) m }
    {
        match self.innermost(task) {
            Some(group) => self.is_later(task, group.children, member),
            None => false,
        }
    }

    /// An index in the history in front of which no member of the innermost open group of the task
    /// was generated: that of the step that opened it, and 0 where none is open.
    pub fn opened(&self, task: usize) -> usize
        ensures { (cells : Cells) (H : History) (t m : Name) → AreTasks cells H self.now → HasId H task t → IsSpawned (older result H) m →
            Facts.is_member (Facts.own t H) m ≡ false }
    {
        match self.innermost(task) {
            Some(group) => group.at,
            None => 0,
        }
    }

    /// Whether the task is at this undeferred child: its newest step generated it.
    pub fn holds(&self, task: usize, child: usize) -> bool
        ensures { (cells : Cells) (H : History) (t u : Name) → AreTasks cells H self.now → HasId H task t → HasId H child u →
            result ≡ Facts.holds (Facts.own t H) u }
    {
        match self.above(child) {
            Some((parent, ordinal)) => {
                is_newest(
                    self.is_held(task),
                    (parent, ordinal),
                    (task, self.children(task)),
                )
            }
            None => false,
        }
    }

    /// How many children the task generated.
    pub fn children(&self, task: usize) -> u32
        ensures { (cells : Cells) (H : History) (t : Name) → AreTasks cells H self.now → HasId H task t → result ≡ spawn_count (Facts.own t H) }
    {
        match self.rows.get(task) {
            Some(row) => row.children,
            None => 0,
        }
    }

    /// Whether the first task is an elder sibling of the second: their parent generated it earlier.
    pub fn is_elder(&self, elder: usize, task: usize) -> bool
        ensures { (cells : Cells) (H : History) (u t : Name) → AreTasks cells H self.now
            → HasId H elder u → HasId H task t → result ≡ is_elder u t }
    {
        let Some(above) = self.above(elder) else {
            return false;
        };
        let Some(its) = self.above(task) else {
            return false;
        };
        comes_first(above, its)
    }

    /// Whether the second task is a child of the first.
    pub fn is_child(&self, task: usize, child: usize) -> bool
        ensures { (cells : Cells) (H : History) (t u : Name) → AreTasks cells H self.now
            → HasId H task t → HasId H child u → result ≡ is_child t u }
    {
        match self.above(child) {
            Some((parent, _)) => parent == task,
            None => false,
        }
    }

    /// Whether it is a child of the task with an ordinal above `low`, or a descendant of one.
    fn is_later(&self, task: usize, low: u32, member: usize) -> bool
        ensures { (cells : Cells) (H : History) (t m : Name) → AreTasks cells H self.now → HasId H task t → HasId H member m →
            result ≡ is_later t low m }
    {
        let mut at = member;
        'up: while task < at {
            let Some((parent, ordinal)) = self.above(at) else {
                return false;
            };
            if parent == task && low < ordinal {
                return true;
            }
            at = parent;
        }
        false
    }

    /// The id of the task's parent, and its ordinal among its children.
    fn above(&self, task: usize) -> Option<(usize, u32)>
        ensures up { (cells : Cells) (H : History) (t : Name) → AreTasks cells H self.now → HasId H task t → IsStepUp H t result }
        ensures lower { IfSome result (λ above. above.0 < task) }
    {
        match self.rows.get(task) {
            Some(row) => {
                if row.parent < task {
                    Some((row.parent, row.ordinal))
                } else {
                    None
                }
            }
            None => None,
        }
    }
}

/// The last of these groups.
fn last(groups: &[Group]) -> Option<Group>
    ensures { result ≡ first_of (reverse groups.now) }
{
    match groups {
        [.., group] => Some(*group),
        [] => None,
    }
}

/// Of two tasks, by the ids of their parents and their ordinals, whether the first is an elder sibling
/// of the second.
fn comes_first(first: (usize, u32), second: (usize, u32)) -> bool
    ensures { result ≡ (nat_lt first.1 second.1 && (first.0 == second.0)) }
{
    first.1 < second.1 && first.0 == second.0
}

/// Whether a task is held, and both pairs are the same.
fn is_newest(held: bool, above: (usize, u32), newest: (usize, u32)) -> bool
    ensures { result ≡ (held && ((above.0 == newest.0) && (above.1 == newest.1))) }
{
    held && (above.0 == newest.0 && above.1 == newest.1)
}
