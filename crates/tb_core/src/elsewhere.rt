//! Where a task is, as a refusal says it.

ghost use Rattle.std.specs.Prelude.{◌≡◌, IfOk};

use std::alloc::{AllocError, Global};
use std::fmt;
use std::marker::Model;
use tb_plan::Config;

/// Where a task is that a plan takes to be at another line. Contracts see the configuration.
///
/// It takes one word, so that a refusal, for which each step has capacity on its way, has no
/// capacity for sixteen registers.
#[derive(Drop)]
pub struct Elsewhere {
    config: Box<Config>,
}

impl Model for Elsewhere {
    ghost use Rattle.std.specs.Box.{box_value};
    ghost use Rattle.tb_plan.specs.declared.config.Config.{Config as TheConfig};

    ghost Value = { TheConfig };

    ghost view = { λ e. box_value e.config };
}

impl Elsewhere {
    /// Puts the configuration on the heap.
    pub fn new(alloc: Global, config: Config) -> Result<Elsewhere, AllocError>
        ensures { IfOk result (λ e. e ≡ config) }
    {
        Ok(Elsewhere {
            config: Box::new(alloc, config)?,
        })
    }

    /// The configuration.
    pub fn get(&self) -> &Config
        ensures { result.now ≡ self.now }
    {
        &*self.config
    }
}

impl fmt::Debug for Elsewhere {
    fn fmt<W: fmt::Write>(&self, f: &mut fmt::Formatter<W>) -> fmt::Result {
        self.get().fmt(f)
    }
}
