//! The ids of tasks.

ghost use Rattle.std.specs.Prelude.{◌≡◌, ◌∷◌, [], ℕ, IfOk, IsTrue, None, OnErr, OnOk, Some};
ghost use Rattle.std.specs.Option.{option_copied};
ghost use Rattle.tb_model.specs.declared.event.Event.{Event as AnEvent};
ghost use Rattle.tb_model.specs.Names.{Name};
ghost use Rattle.tb_model.specs.Facts.{History, IsSpawned};
ghost use Rattle.tb_model.specs.Legal.{Cells, Legal};
ghost use Rattle.tb_clocks.specs.Ids.{AreIds};
ghost use Rattle.tb_clocks.specs.Known.{HasId};

use indexmap::IndexSet;
use std::alloc::{AllocError, Global};
use tb_model::{Action, TaskName};

/// The ids of tasks: they are counted in the order of spawning, the root first.
#[derive(Drop)]
pub struct Ids {
    names: IndexSet<TaskName>,
}

impl Ids {
    /// The root's.
    pub fn new(alloc: Global) -> Result<Ids, AllocError>
        ensures { IfOk result (λ ids. (cells : Cells) → AreIds cells [] ids) }
    {
        let mut names = IndexSet::new(alloc);
        names.insert(TaskName::root(alloc))?;
        Ok(Ids { names })
    }

    /// Adds the action of the next event: a child that it generates gets the next id. Where memory
    /// is wanted, nothing changes.
    pub fn push(&mut self, action: &Action) -> Result<(), AllocError>
        ensures ok { OnOk result ((cells : Cells) (H : History) (v : AnEvent) → AreIds cells H self.old
            → v.action ≡ action.now → Legal cells (v ∷ H) → AreIds cells (v ∷ H) self.new) }
        ensures err { OnErr result ((cells : Cells) (H : History) → AreIds cells H self.old → AreIds cells H self.new) }
    {
        match action {
            Action::Spawn(spawned) => {
                let name = spawned.get().child.clone()?;
                self.names.insert(name)?;
                Ok(())
            }
            _ => Ok(()),
        }
    }

    /// Whether this is the task with the id.
    #[inline(always)]
    fn is_of(&self, id: usize, name: &TaskName) -> bool
        ensures { IsTrue result → (cells : Cells) (H : History) → AreIds cells H self.now
            → HasId H id name.now }
    {
        match self.names.get_index(id) {
            Some(other) => *other == *name,
            None => false,
        }
    }

    /// The id of the task, if it was generated, where `before` is the id of the task of the step
    /// before, or any: most steps are of that task, or of the one that was generated next, and
    /// these are found without a hash.
    pub fn id(&self, before: usize, name: &TaskName) -> Option<usize>
        ensures some { (cells : Cells) (H : History) (i : ℕ) → AreIds cells H self.now → result ≡ Some i → HasId H i name.now }
        ensures none { (cells : Cells) (H : History) → AreIds cells H self.now → result ≡ None → IsSpawned H name.now → ⊥ }
    {
        if self.is_of(before, name) {
            return Some(before);
        }
        let next = before.saturating_add(1);
        if self.is_of(next, name) {
            return Some(next);
        }
        self.names.get_index_of(name)
    }

    /// The task with this id.
    pub fn name(&self, id: usize) -> Option<&TaskName>
        ensures { (cells : Cells) (H : History) → AreIds cells H self.now → (t : Name)
            → HasId H id t → option_copied result ≡ Some t }
    {
        self.names.get_index(id)
    }
}
