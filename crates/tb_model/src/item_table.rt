//! The table of dependences.

ghost use Rattle.std.specs.Prelude.{◌≡◌};
ghost use Rattle.std.specs.List.{list_any};
ghost use Rattle.tb_model.specs.Items.{relation, is_before, is_apart, same_place, meets, some_meet};

use crate::item::Item;
use crate::kind::Kind;
use crate::place::Place;

/// Whether a new item of this kind depends on an earlier one of that kind.
fn orders(new: Kind, old: Kind) -> bool
    ensures { result ≡ is_before (relation new old) }
{
    match (new, old) {
        (Kind::In, Kind::In) => false,
        (Kind::Mutexinoutset, Kind::Mutexinoutset) => false,
        (Kind::Inoutset, Kind::Inoutset) => false,
        _ => true,
    }
}

fn excludes(new: Kind, old: Kind) -> bool
    ensures { result ≡ is_apart (relation new old) }
{
    matches!((new, old), (Kind::Mutexinoutset, Kind::Mutexinoutset))
}

fn is_one_place(p: Place, q: Place) -> bool
    ensures { result ≡ same_place p q }
{
    match (p, q) {
        (Place::Cell(c), Place::Cell(d)) => c == d,
        _ => true,
    }
}

fn follows_some(new: Item, earlier: &[Item]) -> bool
    ensures { result ≡ list_any (meets is_before new) earlier.now }
{
    earlier.iter().any(|i| is_one_place(new.place, i.place) && orders(new.kind, i.kind))
}

fn excludes_some(new: Item, earlier: &[Item]) -> bool
    ensures { result ≡ list_any (meets is_apart new) earlier.now }
{
    earlier.iter().any(|i| is_one_place(new.place, i.place) && excludes(new.kind, i.kind))
}

/// Whether a task with the new items depends on an earlier sibling with the earlier ones: whether
/// the table says so of some pair of them.
pub fn some_before(new: &[Item], earlier: &[Item]) -> bool
    ensures { result ≡ some_meet is_before new.now earlier.now }
{
    new.iter().any(|i| follows_some(*i, earlier))
}

/// Whether siblings with these items exclude each other, the later one's first.
pub fn some_apart(new: &[Item], earlier: &[Item]) -> bool
    ensures { result ≡ some_meet is_apart new.now earlier.now }
{
    new.iter().any(|i| excludes_some(*i, earlier))
}
