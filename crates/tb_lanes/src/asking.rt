//! Whether an action may wait, and which items it asks for.

ghost use Rattle.std.specs.Prelude.{◌≡◌, ◌||◌, IsFalse, None, Some, if◌then◌else◌};
ghost use Rattle.tb_model.specs.Facts;
ghost use Rattle.tb_model.specs.Items.{has_no_items, is_before, some_meet};
ghost use Rattle.tb_model.specs.Names.{Name};
ghost use Rattle.tb_races.specs.Kinds;
ghost use Rattle.tb_lanes.specs.Rows as is;

use tb_model::{Action, Item, Kind, some_before};

/// Whether the action, of a task with these depend items, is one that waits.
pub fn waits_by_itself(action: &Action, items: &[Item]) -> bool
    ensures { IsFalse result → (H : Facts.History) (t u : Name) → items.now ≡ Facts.items_of t H
        → Kinds.wait_kind H t action.now u ≡ None }
{
    match action {
        Action::Start => !items.is_empty(),
        Action::Wait { .. } | Action::Close => true,
        _ => false,
    }
}

/// The kind of the earlier item, where one of the new kind may meet it.
pub fn kind_asked(exclusion: bool, new: Kind, old: Kind) -> Option<Kind>
    ensures { result ≡ (if is.asks exclusion new old then Some old else None) }
{
    let asked = match (new, old) {
        (Kind::In, Kind::In) => false,
        (Kind::Mutexinoutset, Kind::Mutexinoutset) => exclusion,
        (Kind::Inoutset, Kind::Inoutset) => false,
        _ => true,
    };
    if asked { Some(old) } else { None }
}

/// Whether a `taskwait` with these items waits for a child with the others.
pub fn covers(items: &[Item], others: &[Item]) -> bool
    ensures { result ≡ (has_no_items items.now || some_meet is_before items.now others.now) }
{
    items.is_empty() || some_before(items, others)
}
