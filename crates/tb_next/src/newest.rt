//! The newest step of a kind, read off the indexes of the steps that may be of it.

ghost use Rattle.std.specs.Prelude.{◌≡◌, ◌<◌, ◌≤◌, IfOk, IfSome, length, reverse};
ghost use Rattle.tb_model.specs.Facts.{is_print, is_store_to, touches};
ghost use Rattle.tb_places.specs.Where.{places_where};
ghost use Rattle.tb_steps.specs.Scans.{found_step, history_of};
ghost use Rattle.tb_next.specs.Newest.{last_store, last_print};

use std::alloc::AllocError;
use tb_core::{History, step_at};
use tb_model::{Action, StepId};

fn is_store_to(action: &Action, cell: u32) -> bool
    ensures { result ≡ is_store_to cell action.now }
{
    match action {
        Action::Store { cell: stored, .. } => cell == *stored,
        _ => false,
    }
}

/// The last store to the cell, where the steps that load from it or store to it are at these
/// indexes.
pub fn newest_store(
    places: &[u32],
    entries: &History<'_>,
    cell: u32,
) -> Result<Option<StepId>, AllocError>
    requires places { places.now ≡
        places_where (λ v. touches cell v.action) (reverse (history_of entries.now)) }
    requires bound { length entries.now ≤ 1000000 }
    ensures { IfOk result (λ id. id ≡ last_store cell (history_of entries.now)) }
{
    match place_of_store(places, entries, cell) {
        Some(at) => Ok(Some(step_at(entries, at)?)),
        None => Ok(None),
    }
}

/// The index of the last store among these: the loads after it are passed over.
fn place_of_store(places: &[u32], entries: &History<'_>, cell: u32) -> Option<usize>
    requires { places.now ≡
        places_where (λ v. touches cell v.action) (reverse (history_of entries.now)) }
    ensures step { found_step entries.now result ≡ last_store cell (history_of entries.now) }
    ensures within { IfSome result (λ at. at < length entries.now) }
{
    let mut left = places.len();
    'back: while 0 < left {
        left -= 1;
        let at = places[left] as usize;
        if is_store_to(entries.action(at), cell) {
            return Some(at);
        }
    }
    None
}

/// The last print, where the prints are at these indexes.
pub fn newest_print(places: &[u32], entries: &History<'_>) -> Result<Option<StepId>, AllocError>
    requires places { places.now ≡
        places_where (λ v. is_print v.action) (reverse (history_of entries.now)) }
    requires bound { length entries.now ≤ 1000000 }
    ensures { IfOk result (λ id. id ≡ last_print (history_of entries.now)) }
{
    match places.last() {
        Some(at) => Ok(Some(step_at(entries, *at as usize)?)),
        None => Ok(None),
    }
}
