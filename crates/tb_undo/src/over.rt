//! Which children of a task are over.

ghost use Rattle.std.specs.Prelude.{◌≡◌, ℕ};
ghost use Rattle.tb_undo.specs.Obstacles.{is_child_over};

use tb_depend::Over;
use tb_model::TaskName;
use tb_wait::Wait;

/// The children of this task that aren't unended, by what is stored of who waits for whom.
#[derive(Drop)]
pub struct ChildrenOver<'a> {
    pub waits: &'a Wait,
    pub parent: &'a TaskName,
}

impl Over for ChildrenOver<'_> {
    ghost use Rattle.tb_undo.specs.Obstacles.{is_child_over};

    ghost over = { λ c. is_child_over c.waits.now.tasks c.parent.now };

    fn is_over(&self, child: usize) -> bool {
        match u32::try_from(child) {
            Ok(number) if number > 0 => !self.waits.is_child_unended(self.parent, number),
            _ => self.is_over_by_search(child),
        }
    }
}

impl ChildrenOver<'_> {
    /// Whether the child with any ordinal is over, or there is none, by a search among those that
    /// are unended.
    fn is_over_by_search(&self, child: usize) -> bool
        ensures { result ≡ is_child_over self.now.waits.now.tasks self.now.parent.now child }
    {
        let low = u32::try_from(child.saturating_sub(1)).unwrap_or(u32::MAX);
        match self.waits.next_unended(self.parent, low) {
            Some(next) => next as usize != child,
            None => true,
        }
    }
}
