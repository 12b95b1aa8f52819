//! Where the look for a task that can step begins.

ghost use Rattle.std.specs.Prelude.{◌≡◌, IsTrue, Some, None};
ghost use Rattle.std.specs.Option.{option_copied};
ghost use Rattle.tb_core.specs.Seen.{history};
ghost use Rattle.tb_next.specs.Floor.{IsCarried, IsLowered, IsRaised, IsKeptBelow};

use std::marker::Model;
use tb_core::Core;
use tb_model::{Action, TaskName};

/// A task in front of which none can step, by the order of names, where one is known.
#[derive(Drop)]
pub struct Floor {
    task: Option<TaskName>,
    // where the look for the task found it
    near: Option<usize>,
    // the name that the end to come would want
    parent: Option<TaskName>,
}

impl Model for Floor {
    ghost use Rattle.std.specs.Prelude.{Option};
    ghost use Rattle.tb_model.specs.Names.{Name};

    ghost Value = { Option Name };

    ghost view = { λ f. f.task };
}

impl Floor {
    /// No task is known.
    #[inline]
    pub fn none() -> Floor
        ensures { result ≡ None }
    {
        Floor {
            task: None,
            near: None,
            parent: None,
        }
    }

    /// The task.
    #[inline]
    pub fn task(&self) -> Option<&TaskName>
        ensures { option_copied result ≡ self.now }
    {
        match &self.task {
            Some(task) => Some(task),
            None => None,
        }
    }

    /// Where the search for the task found it, to be looked for there first.
    #[inline]
    pub fn near(&self) -> Option<usize> {
        self.near
    }

    /// Takes the task, which was found here, in place of the former one. Where memory for its name is refused, none is known.
    #[inline(always)]
    pub fn raise(&mut self, task: &TaskName, near: Option<usize>)
        ensures { IsRaised task.now self.new }
    {
        self.near = near;
        if !self.is_at(task) {
            self.set(task.clone().ok());
        }
    }

    #[inline(always)]
    fn is_at(&self, task: &TaskName) -> bool
        ensures { IsTrue result → self.now ≡ Some task.now }
    {
        match &self.task {
            Some(floor) => *floor == *task,
            None => false,
        }
    }

    /// No task is known any longer.
    pub fn forget(&mut self)
        ensures { self.new ≡ None }
    {
        self.set(None);
    }

    fn set(&mut self, task: Option<TaskName>)
        ensures { self.new ≡ task }
    {
        self.task = task;
    }

    /// Takes the memory that a step of the task with this action wants here. Where it is refused, no
    /// task is known after the step.
    #[inline(always)]
    pub fn ready(&mut self, task: &TaskName, action: &Action)
        ensures { self.new ≡ self.old }
    {
        if action.is_end() {
            self.ready_end(task);
        }
    }

    /// Takes the memory that the task's end wants here: its parent's name. Where it is refused, no
    /// task is known after the step.
    // out of line: other steps don't pay for its stack frame
    #[inline(never)]
    fn ready_end(&mut self, task: &TaskName)
        ensures { self.new ≡ self.old }
    {
        self.parent = task.parent().unwrap_or(None);
    }

    /// Follows the newest step, and takes no memory. Only an end lets other tasks go on: its task's
    /// parent and siblings, and ancestors whose groups it leaves, but these only where the parent has
    /// ended too.
    #[inline(always)]
    pub fn step_taken(&mut self, core: &Core)
        ensures { IsCarried (history core.now.run) self.old self.new }
    {
        if let Some((task, action)) = core.newest() {
            if action.is_end() {
                self.task_ended(core, task);
            }
        }
    }

    /// Goes back to the parent of a task that has ended.
    fn task_ended(&mut self, core: &Core, task: &TaskName)
        ensures { IsLowered (history core.now.run) task.now self.old self.new }
    {
        match self.parent.take() {
            Some(parent) => {
                if parent.is_parent_of(task) && !core.has_ended(&parent) {
                    self.keep_below(parent);
                } else {
                    self.forget();
                }
            }
            None => self.forget(),
        }
    }

    /// Takes the task in place of the former one, if that comes after it.
    fn keep_below(&mut self, task: TaskName)
        ensures { IsKeptBelow task self.old self.new }
    {
        if let Some(floor) = &self.task {
            if floor.cmp(&task).is_gt() {
                self.set(Some(task));
            }
        }
    }
}
