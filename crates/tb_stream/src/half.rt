//! The races by one order.

ghost use Rattle.std.specs.Prelude.{◌≡◌, ◌∷◌, [], Bool, None, IfOk, OnOk, false, true};
ghost use Rattle.tb_model.specs.declared.event.Event.{Event};
ghost use Rattle.tb_model.specs.Facts.{History};
ghost use Rattle.tb_stream.specs.Exclusion.{excludes_some};
ghost use Rattle.tb_stream.specs.Halves.{IsFound, IsHalf, Takes};

use crate::access::Access;
use crate::clocks::Clocks;
use crate::copying::copy_clocks;
use crate::kept::{Kept, meet};
use crate::order::Order;
use crate::placing::place;
use indexmap::IndexMap;
use std::alloc::{AllocError, Global};
use tb_clocks::Tasks;
use tb_model::Action;

/// The races by one order.
#[derive(Drop)]
pub struct Half {
    order: Order,
    kept: Kept,
}

/// The clocks of no steps.
fn no_clocks(alloc: Global) -> Result<Clocks, AllocError>
    ensures newest { IfOk result (λ c. c.newest.items ≡ None ∷ []) }
    ensures origins { IfOk result (λ c. c.origins.items ≡ None ∷ []) }
    ensures rows { IfOk result (λ c. c.rows.items ≡ []) }
    ensures lasts { IfOk result (λ c. c.lasts.items ≡ []) }
{
    let mut newest = Vec::new(alloc);
    newest.push(None)?;
    let mut origins = Vec::new(alloc);
    origins.push(None)?;
    Ok(Clocks {
        newest,
        origins,
        rows: Vec::new(alloc),
        lasts: Vec::new(alloc),
    })
}

impl Half {
    /// No steps yet.
    pub fn new(alloc: Global, exclusion: bool) -> Result<Half, AllocError>
        ensures { IfOk result (IsHalf exclusion []) }
    {
        let order = Order {
            alloc,
            exclusion,
            clocks: no_clocks(alloc)?,
            ends: Vec::new(alloc),
            rows: IndexMap::new(alloc),
            free: 0,
        };
        Ok(Half {
            order,
            kept: IndexMap::new(alloc),
        })
    }

    /// What is kept by the order with exclusion, as that by the order without it, of a run in which no
    /// tasks exclude each other.
    pub fn without_exclusion(&self) -> Result<Half, AllocError>
        ensures { IfOk result (λ half. (H : History) → excludes_some H ≡ false
            → IsHalf true H self.now → IsHalf false H half) }
    {
        let alloc = self.order.alloc;
        let clocks = copy_clocks(alloc, &self.order.clocks)?;
        let ends = self.order.ends.clone()?;
        let rows = self.order.rows.clone()?;
        let kept = self.kept.clone()?;
        let order = Order {
            alloc,
            exclusion: false,
            clocks,
            ends,
            rows,
            free: self.order.free,
        };
        Ok(Half { order, kept })
    }

    /// Adds the next step, and returns the newest with which it races by the order.
    pub fn take(
        &mut self,
        tasks: &Tasks,
        action: &Action,
        at: usize,
        task: usize,
        k: u32,
    ) -> Result<Option<Access>, AllocError>
        ensures newest { IfOk result (λ o. (exclusion : Bool) (H : History) (v : Event)
            → IsHalf exclusion H self.old → Takes H v tasks.now action.now at task k
            → IsFound exclusion H v o) }
        ensures half { OnOk result ((exclusion : Bool) (H : History) (v : Event)
            → IsHalf exclusion H self.old → Takes H v tasks.now action.now at task k
            → IsHalf exclusion (v ∷ H) self.new) }
    {
        let mark = place(&mut self.order, tasks, action, at, task)?;
        let newest = meet(
            self.order.alloc,
            &mut self.kept,
            &self.order.clocks,
            action,
            Access { mark, k },
        )?;
        Ok(newest)
    }
}
