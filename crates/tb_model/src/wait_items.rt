//! The items of a `taskwait` as an action holds them.

ghost use Rattle.std.specs.Prelude.{◌≡◌, ◌↔◌, IfOk, IsTrue};

use crate::item::Item;
use crate::items::Items;
use std::alloc::{AllocError, Global};
use std::fmt;
use std::marker::Model;
use std::sync::Arc;

/// The items of a `taskwait` that was passed, once for all copies of them. Contracts see the list.
///
/// They take one word, so that an action of another kind has no capacity for a list.
#[derive(Drop)]
pub struct WaitItems {
    items: Arc<Items>,
}

impl Model for WaitItems {
    ghost use Rattle.std.specs.Prelude.{List};
    ghost use Rattle.std.specs.Arc.{arc_value};
    ghost use Rattle.tb_model.specs.declared.item.Item.{Item};

    ghost Value = { List Item };

    ghost view = { λ w. arc_value w.items };
}

impl WaitItems {
    /// Puts the items on the heap.
    pub fn new(alloc: Global, items: Items) -> Result<WaitItems, AllocError>
        ensures { IfOk result (λ w. w ≡ items) }
    {
        Ok(WaitItems {
            items: Arc::new(alloc, items)?,
        })
    }

    /// The items, in order.
    pub fn as_slice(&self) -> &[Item]
        ensures { result.now ≡ self.now }
    {
        self.items.as_slice()
    }

    /// Whether both have the same items.
    pub fn is_same(&self, other: &WaitItems) -> bool
        ensures { IsTrue result ↔ (self.now ≡ other.now) }
    {
        self.items.is_same(&*other.items)
    }
}

impl Clone for WaitItems {
    ghost is_clone = { λ a b. b ≡ a };

    // takes no memory: the items have one more owner
    fn clone(&self) -> Result<WaitItems, AllocError> {
        Ok(WaitItems {
            items: Arc::try_clone(&self.items)?,
        })
    }
}

impl fmt::Debug for WaitItems {
    fn fmt<W: fmt::Write>(&self, f: &mut fmt::Formatter<W>) -> fmt::Result {
        self.items.fmt(f)
    }
}
