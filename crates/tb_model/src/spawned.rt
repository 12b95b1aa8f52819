//! A spawn as an action holds it.

ghost use Rattle.std.specs.Prelude.{◌≡◌, IfOk};

use crate::name::TaskName;
use crate::spawn::Spawn;
use std::alloc::{AllocError, Global};
use std::fmt;
use std::marker::Model;
use std::sync::Arc;

/// A spawn, once for all copies of it. Contracts see the spawn.
///
/// It takes one word, so that an action of another kind, of which a session has many more, has no
/// capacity for a name, arguments and items.
#[derive(Drop)]
pub struct Spawned {
    spawn: Arc<Spawn>,
}

impl Model for Spawned {
    ghost use Rattle.std.specs.Arc.{arc_value};
    ghost use Rattle.tb_model.specs.declared.spawn.Spawn.{Spawn as TheSpawn};

    ghost Value = { TheSpawn };

    ghost view = { λ s. arc_value s.spawn };
}

impl Spawned {
    /// Puts the spawn on the heap.
    pub fn new(alloc: Global, spawn: Spawn) -> Result<Spawned, AllocError>
        ensures { IfOk result (λ s. s ≡ spawn) }
    {
        Ok(Spawned {
            spawn: Arc::new(alloc, spawn)?,
        })
    }

    /// The spawn.
    pub fn get(&self) -> &Spawn
        ensures { result.now ≡ self.now }
    {
        &*self.spawn
    }

    /// The spawn with this child, which it had another one in place of. It is copied where it has
    /// other owners.
    pub fn with_child(self, child: TaskName) -> Result<Spawned, AllocError>
        ensures { IfOk result (λ s. s ≡ record self { child = child }) }
    {
        let Spawned { mut spawn } = self;
        let own = Arc::make_mut(&mut spawn)?;
        own.child = child;
        Ok(Spawned { spawn })
    }
}

impl Clone for Spawned {
    ghost is_clone = { λ a b. b ≡ a };

    // takes no memory: the spawn has one more owner
    fn clone(&self) -> Result<Spawned, AllocError> {
        Ok(Spawned {
            spawn: Arc::try_clone(&self.spawn)?,
        })
    }
}

impl fmt::Debug for Spawned {
    fn fmt<W: fmt::Write>(&self, f: &mut fmt::Formatter<W>) -> fmt::Result {
        self.get().fmt(f)
    }
}
