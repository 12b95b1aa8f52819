//! A step among the tasks alone: the cells and the output are left as they are.

ghost use Rattle.std.specs.Prelude.{◌≡◌, Some, IsOk, OnErr, OnOk};
ghost use Rattle.tb_wait.specs.Kin.{KeepsNames};
ghost use Rattle.tb_undo.specs.Changes.{AreSame, CanChangeTasks, ChangedTasks, HasTaskRoomFor, KeepsRoom};
ghost use Rattle.tb_undo.specs.Steps.{IsAheadOfTasks, IsBehindTasks};
ghost use Rattle.tb_undo.specs.Tasks.{Task, register_over, task};

use crate::rows;
use crate::tables::Tables;
use std::alloc::AllocError;
use tb_model::{Action, Event};

impl Tables {
    /// Applies the event, which leaves its task at this line, among the tasks alone: for who stores
    /// the values of the cells in another way, and no output. So `get`, `cells` and `output` say
    /// nothing of the history after it; what is asked of tasks is answered as after `apply`.
    #[inline(always)]
    pub fn apply_tasks(&mut self, event: &Event, to: u32) -> Result<(), AllocError>
        requires { IsAheadOfTasks self.old event.now }
        ensures applied { OnOk result (IsBehindTasks self.old event.now to self.new) }
        ensures err { OnErr result (AreSame self.old self.new) }
    {
        self.reserve_tasks(event)?;
        let _written_over = self.change_tasks(event, to);
        Ok(())
    }

    /// Reserves the capacity that the event needs among the tasks, and changes nothing else.
    #[inline(always)]
    pub(crate) fn reserve_tasks(&mut self, event: &Event) -> Result<(), AllocError>
        requires { CanChangeTasks self.old event.now }
        ensures same { AreSame self.old self.new }
        ensures names { KeepsNames self.old.waits.tasks self.new.waits.tasks }
        ensures keeps { OnErr result (KeepsRoom self.old self.new) }
        ensures ok { OnOk result (HasTaskRoomFor self.new event.now) }
        ensures succeeds { HasTaskRoomFor self.old event.now → IsOk result }
    {
        let name = &event.task;
        match &event.action {
            Action::Start => self.reserve_start(name),
            Action::Spawn(spawned) => {
                let spawn = spawned.get();
                self.reserve_spawn(name, &spawn.child, spawn.items.as_slice(), spawn.deferred)
            }
            Action::Open => self.waits.reserve_opened(name),
            _ => Ok(()),
        }
    }

    /// Applies the event among the tasks, in the capacity that is there: the cells and the output
    /// stay. Returns the value that it writes over in a register, and the line at which its task
    /// was.
    #[inline(always)]
    pub(crate) fn change_tasks(&mut self, event: &Event, to: u32) -> (Option<i64>, u32)
        requires can { CanChangeTasks self.old event.now }
        requires room { HasTaskRoomFor self.old event.now }
        ensures changed { ChangedTasks event.now to self.old self.new }
        ensures store { self.new.store ≡ self.old.store }
        ensures names { KeepsNames self.old.waits.tasks self.new.waits.tasks }
        ensures replaced { (k : Task) → task self.old.rows event.now.task ≡ Some k →
            (result.0 ≡ register_over event.now.action k.regs) × (result.1 ≡ k.at) }
    {
        self.act(event);
        let (place, over, at) = rows::advance(
            &mut self.rows,
            &self.waits,
            self.near,
            &event.task,
            &event.action,
            to,
        );
        self.turn_to_place(place, &event.task);
        (over, at)
    }
}
