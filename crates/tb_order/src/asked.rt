//! About which ends a step is asked whether it waits for them.

ghost use Rattle.std.specs.Prelude.{◌≡◌, ◌<◌, ℕ, Some, slice_get, IsTrue, OnOk};
ghost use Rattle.std.specs.List.{list_any};
ghost use Rattle.tb_model.specs.declared.item.Item.{Item as AnItem};
ghost use Rattle.tb_model.specs.declared.place.Place.TheVariants.{Cell};
ghost use Rattle.tb_model.specs.Items.{same_place};
ghost use Rattle.tb_lanes.specs.Clocks.{IsEnd, links_at};
ghost use Rattle.tb_lanes.specs.Linking.{order_of};
ghost use Rattle.tb_lanes.specs.Rows.{AreJoined, IsAsked, IsNoted, IsTold, IsWaiting, JoinsMore, items_at, may_meet, some_may_meet, waits_at};

use crate::merging::merge;
use crate::waiting::{is_held, items_of};
use std::alloc::AllocError;
use tb_core::History;
use tb_lanes::{Joined, Key, Past, Tasks, Waiter, item_key, kind_asked, row_of};
use tb_model::{Action, Item, Kind, Place};

/// Adds the ends to which the step is linked, with all that is in front of them.
pub fn merge_all(
    joined: &mut Joined,
    waiter: &Waiter,
    entries: &History<'_>,
    tasks: &Tasks,
    past: &Past,
) -> Result<(), AllocError>
    requires waiting { IsWaiting entries.now tasks.now past.now waiter.now }
    requires joined { AreJoined entries.now tasks.now past.now waiter.now.lane waiter.now.at joined.old }
    ensures more { OnOk result
        (JoinsMore entries.now tasks.now past.now waiter.now.lane waiter.now.at joined.old joined.new) }
    ensures told { OnOk result ((x : ℕ) → IsEnd entries.now waiter.now.at x
        → IsTrue (links_at (order_of past.now.exclusion) entries.now waiter.now.at x)
        → IsTold entries.now tasks.now past.now waiter.now.lane waiter.now.at joined.new x) }
{
    merge_waited(joined, waiter, entries, tasks, past)?;
    if is_held(entries, tasks, waiter.at) {
        merge_children(joined, waiter, entries, tasks, past)?;
    }
    Ok(())
}

/// Adds the ends for which the step's action waits.
fn merge_waited(
    joined: &mut Joined,
    waiter: &Waiter,
    entries: &History<'_>,
    tasks: &Tasks,
    past: &Past,
) -> Result<(), AllocError>
    requires waiting { IsWaiting entries.now tasks.now past.now waiter.now }
    requires joined { AreJoined entries.now tasks.now past.now waiter.now.lane waiter.now.at joined.old }
    ensures more { OnOk result
        (JoinsMore entries.now tasks.now past.now waiter.now.lane waiter.now.at joined.old joined.new) }
    ensures told { OnOk result ((x : ℕ) → IsEnd entries.now waiter.now.at x
        → IsTrue (waits_at (order_of past.now.exclusion) entries.now waiter.now.at x)
        → IsTold entries.now tasks.now past.now waiter.now.lane waiter.now.at joined.new x) }
{
    match entries.action(waiter.at) {
        Action::Start => {
            let items = items_of(entries, tasks, waiter.at);
            merge_items(joined, waiter, entries, tasks, past, items)
        }
        Action::Wait { items } => {
            let items = items.as_slice();
            if items.is_empty() {
                merge_children(joined, waiter, entries, tasks, past)
            } else {
                merge_items(joined, waiter, entries, tasks, past, items)
            }
        }
        Action::Close => merge(joined, waiter, entries, tasks, past, &past.ends),
        _ => Ok(()),
    }
}

/// Adds the ends of the children for which the step may wait.
fn merge_children(
    joined: &mut Joined,
    waiter: &Waiter,
    entries: &History<'_>,
    tasks: &Tasks,
    past: &Past,
) -> Result<(), AllocError>
    requires waiting { IsWaiting entries.now tasks.now past.now waiter.now }
    requires joined { AreJoined entries.now tasks.now past.now waiter.now.lane waiter.now.at joined.old }
    ensures more { OnOk result
        (JoinsMore entries.now tasks.now past.now waiter.now.lane waiter.now.at joined.old joined.new) }
    ensures told { OnOk result ((x : ℕ)
        → IsAsked (order_of past.now.exclusion) entries.now tasks.now waiter.now.at waiter.now.parent x
        → IsTold entries.now tasks.now past.now waiter.now.lane waiter.now.at joined.new x) }
{
    merge_key(joined, waiter, entries, tasks, past, (waiter.parent, 0, 0))
}

/// Adds the ends of children with an item that one of these items may meet.
fn merge_items(
    joined: &mut Joined,
    waiter: &Waiter,
    entries: &History<'_>,
    tasks: &Tasks,
    past: &Past,
    items: &[Item],
) -> Result<(), AllocError>
    requires waiting { IsWaiting entries.now tasks.now past.now waiter.now }
    requires joined { AreJoined entries.now tasks.now past.now waiter.now.lane waiter.now.at joined.old }
    ensures more { OnOk result
        (JoinsMore entries.now tasks.now past.now waiter.now.lane waiter.now.at joined.old joined.new) }
    ensures told { OnOk result ((x : ℕ)
        → IsAsked (order_of past.now.exclusion) entries.now tasks.now waiter.now.at waiter.now.parent x
        → IsTrue (some_may_meet past.now.exclusion items.now (items_at entries.now x))
        → IsTold entries.now tasks.now past.now waiter.now.lane waiter.now.at joined.new x) }
{
    for item in items {
        merge_item(joined, waiter, entries, tasks, past, *item)?;
    }
    Ok(())
}

/// Adds the ends of children with an item that this item may meet.
fn merge_item(
    joined: &mut Joined,
    waiter: &Waiter,
    entries: &History<'_>,
    tasks: &Tasks,
    past: &Past,
    item: Item,
) -> Result<(), AllocError>
    requires waiting { IsWaiting entries.now tasks.now past.now waiter.now }
    requires joined { AreJoined entries.now tasks.now past.now waiter.now.lane waiter.now.at joined.old }
    ensures more { OnOk result
        (JoinsMore entries.now tasks.now past.now waiter.now.lane waiter.now.at joined.old joined.new) }
    ensures told { OnOk result ((x : ℕ)
        → IsAsked (order_of past.now.exclusion) entries.now tasks.now waiter.now.at waiter.now.parent x
        → IsTrue (list_any (may_meet past.now.exclusion item) (items_at entries.now x))
        → IsTold entries.now tasks.now past.now waiter.now.lane waiter.now.at joined.new x) }
{
    let Place::Cell(cell) = item.place else {
        return merge_children(joined, waiter, entries, tasks, past);
    };
    let exclusion = past.exclusion;
    let asked = kind_asked(exclusion, item.kind, Kind::In);
    merge_kind(joined, waiter, entries, tasks, past, (asked, cell))?;
    let asked = kind_asked(exclusion, item.kind, Kind::Out);
    merge_kind(joined, waiter, entries, tasks, past, (asked, cell))?;
    let asked = kind_asked(exclusion, item.kind, Kind::Inout);
    merge_kind(joined, waiter, entries, tasks, past, (asked, cell))?;
    let asked = kind_asked(exclusion, item.kind, Kind::Mutexinoutset);
    merge_kind(joined, waiter, entries, tasks, past, (asked, cell))?;
    let asked = kind_asked(exclusion, item.kind, Kind::Inoutset);
    merge_kind(joined, waiter, entries, tasks, past, (asked, cell))
}

/// Adds the ends of children with an item of this kind at this cell or at all memory, if there is a
/// kind.
fn merge_kind(
    joined: &mut Joined,
    waiter: &Waiter,
    entries: &History<'_>,
    tasks: &Tasks,
    past: &Past,
    asked: (Option<Kind>, u32),
) -> Result<(), AllocError>
    requires waiting { IsWaiting entries.now tasks.now past.now waiter.now }
    requires joined { AreJoined entries.now tasks.now past.now waiter.now.lane waiter.now.at joined.old }
    ensures more { OnOk result
        (JoinsMore entries.now tasks.now past.now waiter.now.lane waiter.now.at joined.old joined.new) }
    ensures told { OnOk result ((x i : ℕ) (j : AnItem)
        → IsAsked (order_of past.now.exclusion) entries.now tasks.now waiter.now.at waiter.now.parent x
        → slice_get (items_at entries.now x) i ≡ Some j → asked.0 ≡ Some j.kind
        → IsTrue (same_place (Cell asked.1) j.place)
        → IsTold entries.now tasks.now past.now waiter.now.lane waiter.now.at joined.new x) }
{
    let Some(kind) = asked.0 else {
        return Ok(());
    };
    let key = item_key(waiter.parent, kind, Place::Cell(asked.1));
    merge_key(joined, waiter, entries, tasks, past, key)?;
    let key = item_key(waiter.parent, kind, Place::All);
    merge_key(joined, waiter, entries, tasks, past, key)
}

/// Adds the ends of the row of this key to which the step is linked.
fn merge_key(
    joined: &mut Joined,
    waiter: &Waiter,
    entries: &History<'_>,
    tasks: &Tasks,
    past: &Past,
    key: Key,
) -> Result<(), AllocError>
    requires waiting { IsWaiting entries.now tasks.now past.now waiter.now }
    requires joined { AreJoined entries.now tasks.now past.now waiter.now.lane waiter.now.at joined.old }
    ensures more { OnOk result
        (JoinsMore entries.now tasks.now past.now waiter.now.lane waiter.now.at joined.old joined.new) }
    ensures told { OnOk result ((x : ℕ) → IsNoted entries.now tasks.now waiter.now.at key x
        → IsTrue (links_at (order_of past.now.exclusion) entries.now waiter.now.at x)
        → IsTold entries.now tasks.now past.now waiter.now.lane waiter.now.at joined.new x) }
{
    match row_of(&past.rows, &key) {
        Some(row) => merge(joined, waiter, entries, tasks, past, row),
        None => Ok(()),
    }
}
