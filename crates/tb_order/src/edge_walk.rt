//! The immediate needs of a history, one step after another.

ghost use Rattle.std.specs.Prelude.{◌≡◌, ◌<◌, ◌≤◌, ◌+◌, ◌++◌, IfOk, OnOk, length, reverse, take};
ghost use Rattle.tb_steps.specs.Scans.{AreLegal, history_of};
ghost use Rattle.tb_order.specs.Edges;
ghost use Rattle.tb_order.specs.Walks.{HasNeedsTo};

use crate::edge::Edge;
use crate::immediate_all::{causes_of, edges_of, no_needs, take_step};
use crate::needs::Needs;
use crate::numbering::tasks_of;
use crate::ordinals::{named, ordinals_of};
use std::alloc::{AllocError, Global};
use tb_core::History;
use tb_lanes::Tasks;

/// A walk along the steps of a history, the oldest first, which says of each what it needs
/// immediately.
#[derive(Drop)]
pub struct EdgeWalk {
    tasks: Tasks,
    /// Of each step which one of its task it is.
    ordinals: Vec<u32>,
    needs: Needs,
}

impl EdgeWalk {
    /// In front of the first of these steps.
    pub fn new(alloc: Global, entries: &History<'_>) -> Result<EdgeWalk, AllocError>
        requires legal { AreLegal entries.now }
        requires bound { length entries.now ≤ 1000000 }
        ensures { IfOk result (HasNeedsTo entries.now 0) }
    {
        let tasks = tasks_of(alloc, entries)?;
        let ordinals = ordinals_of(alloc, entries, &tasks)?;
        let needs = no_needs(alloc, &tasks)?;
        Ok(EdgeWalk {
            tasks,
            ordinals,
            needs,
        })
    }

    /// What the step at this index, in front of which the walk is, needs immediately, in the order
    /// of the history. After an error nothing is known of the walk.
    pub fn next(&mut self, entries: &History<'_>, at: usize) -> Result<Vec<Edge>, AllocError>
        requires legal { AreLegal entries.now }
        requires at { at < length entries.now }
        requires walk { HasNeedsTo entries.now at self.old }
        ensures edges { IfOk result (λ edges.
            reverse (Edges.edges (history_of (take (at + 1) entries.now)))
            ≡ reverse (Edges.edges (history_of (take at entries.now))) ++ edges.items) }
        ensures walk { OnOk result (HasNeedsTo entries.now (at + 1) self.new) }
    {
        let alloc = self.needs.alloc;
        let mut places = take_step(&mut self.needs, entries, &self.tasks, at)?;
        places.reverse();
        let causes = causes_of(alloc, entries, &self.tasks, &self.ordinals, at, &places)?;
        let later = named(entries, &self.ordinals, at)?;
        edges_of(alloc, &later, &causes)
    }

    /// How many steps that step needs immediately; the walk goes on as by `next`.
    pub fn count_next(&mut self, entries: &History<'_>, at: usize) -> Result<usize, AllocError>
        requires legal { AreLegal entries.now }
        requires at { at < length entries.now }
        requires walk { HasNeedsTo entries.now at self.old }
        ensures count { IfOk result (λ count.
            length (Edges.edges (history_of (take (at + 1) entries.now)))
            ≡ length (Edges.edges (history_of (take at entries.now))) + count) }
        ensures few { IfOk result (λ count. count ≤ at) }
        ensures walk { OnOk result (HasNeedsTo entries.now (at + 1) self.new) }
    {
        let places = take_step(&mut self.needs, entries, &self.tasks, at)?;
        Ok(places.len())
    }
}
