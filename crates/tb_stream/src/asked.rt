//! About which ends a step is asked whether it waits for them.

ghost use Rattle.std.specs.Prelude.{ℕ, IsTrue, OnOk};
ghost use Rattle.std.specs.List.{list_any};
ghost use Rattle.tb_lanes.specs.Clocks.{IsEnd, Lanes};
ghost use Rattle.tb_lanes.specs.Rows.{items_at, may_meet, some_may_meet, waits_at};
ghost use Rattle.tb_stream.specs.Ends.{IsNoted};
ghost use Rattle.tb_stream.specs.Joins.{AreJoined, HasMet, IsChildEnd, IsWaiting, Merges};
ghost use Rattle.tb_stream.specs.Seen.{Run, order as order_of_run};

use crate::joined::Joined;
use crate::merging::merge;
use crate::order::{Order, row_of};
use crate::waiter::Waiter;
use std::alloc::AllocError;
use tb_lanes::{Key, item_key, kind_asked};
use tb_model::{Action, Item, Kind, Place};

/// Adds the ends to which the step is linked, with all that is in front of them.
pub fn merge_all(joined: &mut Joined, waiter: &Waiter<'_>, order: &Order) -> Result<(), AllocError>
    ensures { OnOk result ((r : Run) (n : ℕ) (lanes : Lanes)
        → IsWaiting r n lanes order.now waiter.now
        → AreJoined r n lanes order.now.clocks.rows.items waiter.now.step.lane joined.old
        → Merges r n lanes order.now.clocks.rows.items waiter.now.step.lane
        (IsEnd r.entries n)
        joined.old joined.new) }
{
    merge_waited(joined, waiter, order)?;
    if waiter.tasks.is_held(waiter.step.task) {
        merge_children(joined, waiter, order)?;
    }
    Ok(())
}

/// Adds the ends for which the step's action waits.
fn merge_waited(joined: &mut Joined, waiter: &Waiter<'_>, order: &Order) -> Result<(), AllocError>
    ensures { OnOk result ((r : Run) (n : ℕ) (lanes : Lanes)
        → IsWaiting r n lanes order.now waiter.now
        → AreJoined r n lanes order.now.clocks.rows.items waiter.now.step.lane joined.old
        → Merges r n lanes order.now.clocks.rows.items waiter.now.step.lane
        (λ x. IsEnd r.entries n x × IsTrue (waits_at (order_of_run r) r.entries n x))
        joined.old joined.new) }
{
    match waiter.action {
        Action::Start => {
            let items = waiter.tasks.items(waiter.step.task);
            merge_items(joined, waiter, order, items)
        }
        Action::Wait { items } => {
            let items = items.as_slice();
            if items.is_empty() {
                merge_children(joined, waiter, order)
            } else {
                merge_items(joined, waiter, order, items)
            }
        }
        Action::Close => merge(joined, waiter, order, &order.ends),
        _ => Ok(()),
    }
}

/// Adds the ends of the children for which the step may wait.
fn merge_children(joined: &mut Joined, waiter: &Waiter<'_>, order: &Order) -> Result<(), AllocError>
    ensures { OnOk result ((r : Run) (n : ℕ) (lanes : Lanes)
        → IsWaiting r n lanes order.now waiter.now
        → AreJoined r n lanes order.now.clocks.rows.items waiter.now.step.lane joined.old
        → Merges r n lanes order.now.clocks.rows.items waiter.now.step.lane
        (IsChildEnd r n waiter.now.parent)
        joined.old joined.new) }
{
    merge_key(joined, waiter, order, (waiter.parent, 0, 0))
}

/// Adds the ends of children with an item that one of these items may meet.
fn merge_items(
    joined: &mut Joined,
    waiter: &Waiter<'_>,
    order: &Order,
    items: &[Item],
) -> Result<(), AllocError>
    ensures { OnOk result ((r : Run) (n : ℕ) (lanes : Lanes)
        → IsWaiting r n lanes order.now waiter.now
        → AreJoined r n lanes order.now.clocks.rows.items waiter.now.step.lane joined.old
        → Merges r n lanes order.now.clocks.rows.items waiter.now.step.lane
        (λ x. IsChildEnd r n waiter.now.parent x × IsTrue (some_may_meet r.exclusion items.now
        (items_at r.entries x)))
        joined.old joined.new) }
{
    for item in items {
        merge_item(joined, waiter, order, *item)?;
    }
    Ok(())
}

/// Adds the ends of children with an item that this item may meet.
fn merge_item(
    joined: &mut Joined,
    waiter: &Waiter<'_>,
    order: &Order,
    item: Item,
) -> Result<(), AllocError>
    ensures { OnOk result ((r : Run) (n : ℕ) (lanes : Lanes)
        → IsWaiting r n lanes order.now waiter.now
        → AreJoined r n lanes order.now.clocks.rows.items waiter.now.step.lane joined.old
        → Merges r n lanes order.now.clocks.rows.items waiter.now.step.lane
        (λ x. IsChildEnd r n waiter.now.parent x × IsTrue (list_any (may_meet r.exclusion item)
        (items_at r.entries x)))
        joined.old joined.new) }
{
    let Place::Cell(cell) = item.place else {
        return merge_children(joined, waiter, order);
    };
    let exclusion = order.exclusion;
    let asked = kind_asked(exclusion, item.kind, Kind::In);
    merge_kind(joined, waiter, order, asked, cell)?;
    let asked = kind_asked(exclusion, item.kind, Kind::Out);
    merge_kind(joined, waiter, order, asked, cell)?;
    let asked = kind_asked(exclusion, item.kind, Kind::Inout);
    merge_kind(joined, waiter, order, asked, cell)?;
    let asked = kind_asked(exclusion, item.kind, Kind::Mutexinoutset);
    merge_kind(joined, waiter, order, asked, cell)?;
    let asked = kind_asked(exclusion, item.kind, Kind::Inoutset);
    merge_kind(joined, waiter, order, asked, cell)
}

/// Adds the ends of children with an item of this kind at this cell or at all memory, if there is a
/// kind.
fn merge_kind(
    joined: &mut Joined,
    waiter: &Waiter<'_>,
    order: &Order,
    asked: Option<Kind>,
    cell: u32,
) -> Result<(), AllocError>
    ensures { OnOk result ((r : Run) (n : ℕ) (lanes : Lanes)
        → IsWaiting r n lanes order.now waiter.now
        → AreJoined r n lanes order.now.clocks.rows.items waiter.now.step.lane joined.old
        → Merges r n lanes order.now.clocks.rows.items waiter.now.step.lane
        (λ x. IsChildEnd r n waiter.now.parent x × HasMet r asked cell x)
        joined.old joined.new) }
{
    let Some(kind) = asked else {
        return Ok(());
    };
    let key = item_key(waiter.parent, kind, Place::Cell(cell));
    merge_key(joined, waiter, order, key)?;
    let key = item_key(waiter.parent, kind, Place::All);
    merge_key(joined, waiter, order, key)
}

/// Adds the ends of the row of this key to which the step is linked.
fn merge_key(
    joined: &mut Joined,
    waiter: &Waiter<'_>,
    order: &Order,
    key: Key,
) -> Result<(), AllocError>
    ensures { OnOk result ((r : Run) (n : ℕ) (lanes : Lanes)
        → IsWaiting r n lanes order.now waiter.now
        → AreJoined r n lanes order.now.clocks.rows.items waiter.now.step.lane joined.old
        → Merges r n lanes order.now.clocks.rows.items waiter.now.step.lane
        (IsNoted r n key)
        joined.old joined.new) }
{
    match row_of(&order.rows, &key) {
        Some(row) => merge(joined, waiter, order, row),
        None => Ok(()),
    }
}
