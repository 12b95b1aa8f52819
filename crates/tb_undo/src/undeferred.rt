//! At which of its steps a task generated an undeferred child.

ghost use Rattle.std.specs.Prelude.{◌≡◌, ◌<◌, ◌≤◌, ◌-◌, [], ◌∷◌, OnOk, IsOk, drop, reverse};
ghost use Rattle.tb_undo.specs.Undeferred.{is_first};

use std::alloc::{AllocError, Global};
use std::marker::Model;

/// The ordinals of these steps. They are on the heap, where one was ever noted: few tasks generate
/// an undeferred child.
#[derive(Drop)]
pub struct Undeferred {
    alloc: Global,
    steps: Option<Box<Vec<u32>>>,
}

impl Model for Undeferred {
    ghost use Rattle.tb_undo.specs.Undeferred.{Undeferred, undeferred_in};

    ghost Value = { Undeferred };

    ghost view = { λ u. undeferred_in u.steps };
}

impl Undeferred {
    /// A list of no steps. Takes no memory.
    pub fn new(alloc: Global) -> Undeferred
        ensures { result.steps ≡ [] }
    {
        Undeferred { alloc, steps: None }
    }

    /// Whether the newest step noted is this one.
    #[inline(always)]
    pub fn is_newest(&self, step: u32) -> bool
        ensures { result ≡ is_first step self.now.steps }
    {
        match &self.steps {
            Some(steps) => is_last(steps, step),
            None => false,
        }
    }

    /// Reserves the capacity for one step more.
    pub fn reserve(&mut self) -> Result<(), AllocError>
        ensures steps { self.new.steps ≡ self.old.steps }
        ensures ok { OnOk result (0 < self.new.room) }
        ensures keeps { self.old.room ≤ self.new.room }
        ensures succeeds { 0 < self.old.room → IsOk result }
    {
        match &mut self.steps {
            Some(steps) => steps.reserve(1),
            None => {
                let mut steps = Vec::new(self.alloc);
                steps.reserve(1)?;
                self.steps = Some(Box::new(self.alloc, steps)?);
                Ok(())
            }
        }
    }

    /// Notes a step in the capacity that is there.
    pub fn push(&mut self, step: u32)
        requires { 0 < self.old.room }
        ensures { self.new.steps ≡ step ∷ self.old.steps }
    {
        if let Some(steps) = &mut self.steps {
            steps.push_reserved(step);
        }
    }

    /// Forgets the newest step.
    pub fn pop(&mut self)
        ensures { self.new.steps ≡ drop 1 self.old.steps }
    {
        if let Some(steps) = &mut self.steps {
            let _step = steps.pop();
        }
    }
}

/// Whether the step was noted last.
#[inline(always)]
fn is_last(steps: &Vec<u32>, step: u32) -> bool
    ensures { result ≡ is_first step (reverse steps.now.items) }
{
    match steps.last() {
        Some(last) => *last == step,
        None => false,
    }
}
