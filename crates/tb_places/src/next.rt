//! The next of some indexes, and the last.

ghost use Rattle.std.specs.Prelude.{◌≡◌, ◌≤◌, Bool, List, IfSome, IfNone};
ghost use Rattle.tb_model.specs.declared.event.Event.{Event as AnEvent};
ghost use Rattle.tb_places.specs.Where.{places_where, IsLastBefore, IsNoneFrom};

/// The first of these indexes, which rise, from the index `from` on; the end where there is none.
pub fn next_place(places: &[u32], from: usize, end: usize) -> usize
    requires { from ≤ end }
    ensures from { from ≤ result }
    ensures end { result ≤ end }
    ensures none { (p : AnEvent → Bool) (events : List AnEvent) → places.now ≡ places_where p events →
        IsNoneFrom p events from result }
{
    let after = places.partition_point(|place| (*place as usize) < from);
    match places.get(after) {
        Some(place) => (*place as usize).max(from).min(end),
        None => end,
    }
}

/// The last of these indexes, which rise, in front of the index `before`.
pub fn last_place(places: &[u32], before: usize) -> Option<usize>
    ensures some { (p : AnEvent → Bool) (events : List AnEvent) → places.now ≡ places_where p events →
        IfSome result (IsLastBefore p events before) }
    ensures none { (p : AnEvent → Bool) (events : List AnEvent) → places.now ≡ places_where p events →
        IfNone result (IsNoneFrom p events 0 before) }
{
    let after = places.partition_point(|place| (*place as usize) < before);
    if after == 0 {
        return None;
    }
    Some(places[after - 1] as usize)
}
