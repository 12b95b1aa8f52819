//! What an action touches.

ghost use Rattle.std.specs.Prelude.{◌≡◌};
ghost use Rattle.tb_places.specs.Places;

use tb_model::Action;

/// The index of the action's row: the output's is the first, then comes each cell's.
#[inline(always)]
pub fn mark_of(action: &Action) -> Option<usize>
    ensures { result ≡ Places.mark_of action.now }
{
    match action {
        Action::Load { cell, .. } => Some(*cell as usize + 1),
        Action::Store { cell, .. } => Some(*cell as usize + 1),
        Action::Print { .. } => Some(0),
        _ => None,
    }
}
