//! What blocks a task's action.

ghost use Rattle.std.specs.Prelude.{◌≡◌, ◌≢◌, ◌↔◌, Some, None, IsTrue, option_map};
ghost use Rattle.tb_model.specs.declared.action.Action.TheVariants.{Start};
ghost use Rattle.tb_model.specs.Names.{child};
ghost use Rattle.tb_model.specs.Facts.{History, own, IsSpawned};
ghost use Rattle.tb_model.specs.State.{is_unended_undeferred};
ghost use Rattle.tb_model.specs.Legal.{Cells, Legal};
ghost use Rattle.tb_model.specs.Hindrances.{in_the_way, IsLeast, IsFree};
ghost use Rattle.tb_wait.specs.Histories.{AreKin};
ghost use Rattle.tb_undo.specs.Tasks.{row, seen_row};
ghost use Rattle.tb_undo.specs.State.{ForUnended};
ghost use Rattle.tb_undo.specs.Obstacles.{hindrance_by, IsKnown};

use crate::near::get;
use crate::obstacle::Obstacle;
use crate::row::Row;
use crate::standing::Standing;
use crate::tables::Tables;
use crate::walks::{is_held, next_before, next_covered};
use tb_model::{Action, TaskName};
use tb_wait::Wait;

impl Tables {
    /// What blocks the action of the task, of which it was asked where it is: the undeferred child
    /// for which it waits, else what the action waits for. Takes no memory.
    #[inline(always)]
    pub fn in_the_way(
        &self,
        standing: &Standing<'_>,
        name: &TaskName,
        action: &Action,
    ) -> Option<Obstacle<'_>>
        ensures { ForUnended self.now name.now (λ H. in_the_way H name.now action.now ≡ option_map (hindrance_by name.now) result) }
    {
        self.in_the_way_near(standing.row_place(), name, action)
    }

    /// What blocks the task's action: the undeferred child for which it waits, else what the action
    /// waits for. Its row is looked for at the index `near` first.
    #[inline(always)]
    fn in_the_way_near(&self, near: usize, name: &TaskName, action: &Action) -> Option<Obstacle<'_>>
        ensures { ForUnended self.now name.now (λ H. in_the_way H name.now action.now ≡ option_map (hindrance_by name.now) result) }
    {
        let row = get(&self.rows, &self.waits, near, name)?;
        if let Some(child) = undeferred(&self.waits, name, row) {
            return Some(Obstacle::Undeferred { child });
        }
        match action {
            Action::Start => self.before_start(name, row),
            Action::Wait { items } => {
                let child = next_covered(&self.waits, &row.children, name, items.as_slice())?;
                Some(Obstacle::Children { child })
            }
            Action::Close => {
                let member = self.waits.first_member(name)?;
                Some(Obstacle::Group { member })
            }
            _ => None,
        }
    }

    /// Whether nothing blocks the task's action, as `in_the_way` says what does. Takes no memory.
    /// Who is excluded is asked first, since it costs no walk over the siblings.
    pub fn is_clear(&self, name: &TaskName, action: &Action) -> bool
        ensures { ForUnended self.now name.now (λ H. IsTrue result ↔ (in_the_way H name.now action.now ≡ None)) }
    {
        self.is_clear_near(self.near, name, action)
    }

    /// Whether nothing blocks the task's action. Its situation says where its row is looked for
    /// first.
    #[inline(always)]
    pub fn is_clear_at(&self, standing: &Standing<'_>, name: &TaskName, action: &Action) -> bool
        ensures { ForUnended self.now name.now (λ H. IsTrue result ↔ (in_the_way H name.now action.now ≡ None)) }
    {
        self.is_clear_near(standing.row_place(), name, action)
    }

    #[inline(always)]
    fn is_clear_near(&self, near: usize, name: &TaskName, action: &Action) -> bool
        ensures { ForUnended self.now name.now (λ H. IsTrue result ↔ (in_the_way H name.now action.now ≡ None)) }
    {
        !self.is_excluded(near, name, action) && self.in_the_way_near(near, name, action).is_none()
    }

    /// Whether the action is the first start of a task that a sibling under way excludes.
    #[inline(always)]
    fn is_excluded(&self, near: usize, name: &TaskName, action: &Action) -> bool
        ensures { ForUnended self.now name.now (λ H. IsTrue result → in_the_way H name.now action.now ≢ None) }
    {
        let Action::Start = action else {
            return false;
        };
        let Some(own) = get(&self.rows, &self.waits, near, name) else {
            return false;
        };
        let Some(n) = name.ordinal() else {
            return false;
        };
        let Some(parent) = get(&self.rows, &self.waits, own.above(), &own.parent) else {
            return false;
        };
        own.steps == 0
            && parent
                .holders
                .busy_number(parent.children.items(n as usize))
                .is_some()
    }

    /// What blocks the task's start: a sibling on which it depends, else one that excludes it. One
    /// that has started excludes those itself.
    fn before_start(&self, name: &TaskName, own: &Row) -> Option<Obstacle<'_>>
        requires { row self.now.rows name.now ≡ Some own.now }
        ensures { ForUnended self.now name.now (λ H. IsFree H name.now → in_the_way H name.now Start ≡ option_map (hindrance_by name.now) result) }
    {
        let n = name.ordinal()?;
        let parent = get(&self.rows, &self.waits, own.above(), &own.parent)?;
        if let Some(sibling) = next_before(&self.waits, &parent.children, &own.parent, n) {
            return Some(Obstacle::Waiting { sibling });
        }
        if own.steps > 0 {
            return None;
        }
        let sibling = parent
            .holders
            .busy_number(parent.children.items(n as usize))?;
        Some(Obstacle::Excluded { sibling })
    }
}

/// The undeferred child for which the task waits, where it isn't over: its last one.
#[inline(always)]
fn undeferred(waits: &Wait, name: &TaskName, row: &Row) -> Option<u32>
    ensures { (cells : Cells) (H : History) → Legal cells H → AreKin H waits.now.tasks → IsSpawned H name.now → IsKnown (own name.now H) (seen_row row.now) →
        IsLeast (is_unended_undeferred H name.now) (option_map (child name.now) result) }
{
    if !is_held(row) {
        return None;
    }
    let last = waits.children(name)?;
    waits.next_unended(name, last.saturating_sub(1))
}
