//! The immediate needs of all steps.

ghost use Rattle.std.specs.Prelude.{◌≡◌, ◌≤◌, IfOk, length, reverse};
ghost use Rattle.tb_steps.specs.Scans.{AreLegal, history_of};
ghost use Rattle.tb_order.specs.Edges;

use crate::edge::Edge;
use crate::edge_walk::EdgeWalk;
use std::alloc::{AllocError, Global};
use tb_core::History;

/// The immediate needs of each of these steps, in the order of the history.
pub fn edges_among(alloc: Global, entries: &History<'_>) -> Result<Vec<Edge>, AllocError>
    requires legal { AreLegal entries.now }
    requires bound { length entries.now ≤ 1000000 }
    ensures { IfOk result (λ edges. edges.items ≡ reverse (Edges.edges (history_of entries.now))) }
{
    let mut edges = Vec::new(alloc);
    let mut walk = EdgeWalk::new(alloc, entries)?;
    for at in 0..entries.len() {
        let mut found = walk.next(entries, at)?;
        edges.append(&mut found)?;
    }
    Ok(edges)
}

/// How many immediate needs these steps have.
pub fn count_edges(alloc: Global, entries: &History<'_>) -> Result<usize, AllocError>
    requires legal { AreLegal entries.now }
    requires bound { length entries.now ≤ 1000000 }
    ensures { IfOk result (λ count. count ≡ length (Edges.edges (history_of entries.now))) }
{
    let mut count = 0_usize;
    let mut walk = EdgeWalk::new(alloc, entries)?;
    for at in 0..entries.len() {
        count += walk.count_next(entries, at)?;
    }
    Ok(count)
}
