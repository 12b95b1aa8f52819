//! The children of one task.

ghost use Rattle.std.specs.Prelude.{◌≡◌, ◌<◌, ◌≤◌, ◌+◌, ◌-◌, ℕ, [], ◌∷◌, ◌++◌, IsOk, OnOk, OnErr, IfOk, IsFalse, IsTrue, ◌↔◌, length, take, min, vec_capacity};
ghost use Rattle.tb_depend.specs.Relations.{items_at, depends, excludes, is_covered, preds_of, apart_of, covered_by};
ghost use Rattle.tb_depend.specs.Met.{NoneLater, NoneEarlier};
ghost use Rattle.tb_depend.specs.Table.{HasRoomFor, KeepsRoom, FreesRoom};
ghost use Rattle.tb_depend.specs.Nearness.{IsClosed, AreOver, AreOverFor, AreNear};

use crate::lists::Lists;
use crate::nearest::is_among;
use crate::over::Over;
use crate::preds::Preds;
use std::alloc::{AllocError, Global};
use std::marker::Model;
use tb_model::{Item, some_apart, some_before};

/// The children of one task by their depend items, in the order of spawning. Children that have
/// ended stay.
#[derive(Drop)]
pub struct Siblings {
    alloc: Global,
    // how many children there are, and may be with no memory, while none of them has an item
    bare: u32,
    bare_room: u32,
    // on the heap, and made where the first item is: most tasks generate no child, and most children
    // have no items
    lists: Option<Box<Lists>>,
}

impl Model for Siblings {
    ghost use Rattle.std.specs.Prelude.{◌≤◌};
    ghost use Rattle.tb_depend.specs.Table.{Table};
    ghost use Rattle.tb_depend.specs.Layout.{seen};

    ghost Value = { Table };

    ghost view = { λ s. seen s.bare s.bare_room s.lists };

    ghost invariant = { λ s. s.bare ≤ s.bare_room };
}

impl Siblings {
    /// No children. Takes no memory.
    pub fn new(alloc: Global) -> Siblings
        ensures { result.siblings ≡ [] }
    {
        Siblings {
            alloc,
            bare: 0,
            bare_room: 0,
            lists: None,
        }
    }

    /// How many children there are.
    pub fn len(&self) -> usize
        ensures { result ≡ length self.now.siblings }
    {
        match &self.lists {
            Some(lists) => lists.len(),
            None => self.bare as usize,
        }
    }

    /// The items of the nth child, n from 1, and none where there is no such child.
    #[tactic(auto, using(crate::proofs::BareLemmas::items_bare))]
    pub fn items(&self, n: usize) -> &[Item]
        ensures { result.now ≡ items_at self.now.siblings n }
    {
        match &self.lists {
            Some(lists) => lists.items(n),
            None => &[],
        }
    }

    /// Whether the nth child depends on the mth. An ordinal that is no child's depends on none.
    pub fn is_before(&self, m: usize, n: usize) -> bool
        ensures { result ≡ depends self.now.siblings n m }
    {
        m < n && some_before(self.items(n), self.items(m))
    }

    /// Whether the mth child and the nth exclude each other.
    pub fn is_apart(&self, m: usize, n: usize) -> bool
        ensures { result ≡ excludes self.now.siblings n m }
    {
        (m < n && some_apart(self.items(n), self.items(m)))
            || (n < m && some_apart(self.items(m), self.items(n)))
    }

    /// Whether some child may depend on the nth or exclude it. Those after it are asked first, since
    /// mostly one of them does where any does. Takes no memory.
    pub fn is_met(&self, n: usize) -> bool
        ensures { IsFalse result → (m : ℕ) →
            IsFalse (depends self.now.siblings m n) × IsFalse (excludes self.now.siblings m n) }
    {
        if self.items(n).is_empty() {
            return false;
        }
        if self.is_met_later(n) {
            return true;
        }
        self.is_met_earlier(n)
    }

    /// Whether some child after the nth depends on it or excludes it.
    fn is_met_later(&self, n: usize) -> bool
        ensures { IsFalse result → NoneLater self.now.siblings n }
    {
        let own = self.items(n);
        let mut k = n;
        'later: while k < self.len() {
            let items = self.items(k + 1);
            if some_before(items, own) || some_apart(items, own) {
                return true;
            }
            k += 1;
        }
        false
    }

    /// Whether some child in front of the nth excludes it.
    fn is_met_earlier(&self, n: usize) -> bool
        ensures { IsFalse result → NoneEarlier self.now.siblings n }
    {
        let own = self.items(n);
        let mut k = 1;
        'front: while k < n {
            if some_apart(own, self.items(k)) {
                return true;
            }
            k += 1;
        }
        false
    }

    /// Whether a `taskwait` with these items waits for the nth child. Without items it waits for
    /// all.
    pub fn covers(&self, items: &[Item], n: usize) -> bool
        ensures { result ≡ is_covered self.now.siblings items.now n }
    {
        items.is_empty() || some_before(items, self.items(n))
    }

    /// Reserves the capacity that `add` needs for a child with these items, and changes nothing
    /// else.
    #[tactic(auto, using(crate::proofs::BareLemmas::items_bare))]
    pub fn reserve_add(&mut self, items: &[Item]) -> Result<(), AllocError>
        ensures siblings { self.new.siblings ≡ self.old.siblings }
        ensures room { OnOk result (HasRoomFor self.new items.now) }
        ensures succeeds { HasRoomFor self.old items.now → IsOk result }
        ensures keeps { KeepsRoom self.old self.new }
    {
        if let Some(lists) = &mut self.lists {
            return lists.reserve_add(items);
        }
        if items.is_empty() && self.bare < u32::MAX {
            self.bare_room = self.bare_room.max(self.bare + 1);
            return Ok(());
        }
        let mut lists = Lists::bare(self.alloc, self.bare, self.bare_room)?;
        lists.reserve_add(items)?;
        self.lists = Some(Box::new(self.alloc, lists)?);
        Ok(())
    }

    /// Adds a child after the others, and returns the children on which it depends. With capacity
    /// it takes no memory.
    #[tactic(auto, using(crate::proofs::BareLemmas::preds_bare))]
    pub fn add(&mut self, items: &[Item]) -> Result<Preds, AllocError>
        ensures added { OnOk result (self.new.siblings ≡ self.old.siblings ++ items.now ∷ []) }
        ensures preds { IfOk result (λ preds.
            preds ≡ preds_of self.new.siblings (length self.new.siblings)) }
        ensures err { OnErr result (self.new.siblings ≡ self.old.siblings) }
        ensures succeeds { HasRoomFor self.old items.now → IsOk result }
        ensures places { self.old.places ≤ self.new.places + 1 }
        ensures item_places { self.old.item_places ≤ self.new.item_places + length items.now }
    {
        self.reserve_add(items)?;
        self.add_reserved(items);
        let numbers = match &mut self.lists {
            Some(lists) => lists.take_spare(self.alloc),
            None => return Ok(Preds::of(Vec::new(self.alloc))),
        };
        Ok(self.fill_preds(self.len(), numbers))
    }

    /// Adds a child after the others, in the capacity that is there. The cost doesn't depend on how
    /// many there are.
    #[tactic(auto, using(crate::proofs::BareLemmas::items_bare))]
    pub fn add_reserved(&mut self, items: &[Item])
        requires { HasRoomFor self.old items.now }
        ensures added { self.new.siblings ≡ self.old.siblings ++ items.now ∷ [] }
        ensures places { self.old.places ≤ self.new.places + 1 }
        ensures item_places { self.old.item_places ≤ self.new.item_places + length items.now }
        ensures numbers { self.new.number_places ≡ self.old.number_places }
    {
        match &mut self.lists {
            Some(lists) => lists.add_reserved(items),
            None => self.bare += 1,
        }
    }

    /// Takes the last child off, and retains its capacity. Where there is none, nothing changes.
    #[tactic(auto, using(crate::proofs::BareLemmas::take_bare, crate::proofs::BareLemmas::frees_bare))]
    pub fn drop_last(&mut self)
        ensures siblings { self.new.siblings ≡ take (length self.old.siblings - 1) self.old.siblings }
        ensures frees { 0 < length self.old.siblings → FreesRoom self.old self.new
            (length (items_at self.old.siblings (length self.old.siblings))) }
        ensures keeps { KeepsRoom self.old self.new }
    {
        match &mut self.lists {
            Some(lists) => lists.drop_last(),
            None => self.bare = self.bare.saturating_sub(1),
        }
    }

    /// Whether all children on which the nth depends are over. Asks only its nearest ones, of each
    /// storage location the last of one kind in front of it; takes no memory.
    #[tactic(auto, using(crate::proofs::BareLemmas::over_bare))]
    pub fn are_preds_over<T: Over>(&self, n: usize, over: &T) -> bool
        ensures { IsClosed self.now.siblings (T.over over.now) →
            IsTrue result ↔ AreOver self.now.siblings (T.over over.now) n }
    {
        match &self.lists {
            Some(lists) => lists.are_preds_over(n, over),
            None => true,
        }
    }

    /// Whether all children are over on which a further child with these items would depend: for a
    /// `taskwait` with items, all that it covers. Asks those alone that would be nearest to it;
    /// takes no memory.
    pub fn are_over_for<T: Over>(&self, items: &[Item], over: &T) -> bool
        ensures { IsClosed self.now.siblings (T.over over.now) →
            IsTrue result ↔ AreOverFor self.now.siblings (T.over over.now) items.now }
    {
        match &self.lists {
            Some(lists) => lists.are_over_for(items, over),
            None => true,
        }
    }

    /// The ordinals of the children on which the nth depends.
    pub fn preds(&self, n: usize) -> Result<Preds, AllocError>
        ensures { IfOk result (λ preds. preds ≡ preds_of self.now.siblings n) }
    {
        let numbers = Vec::with_capacity(self.alloc, self.len())?;
        Ok(self.fill_preds(n, numbers))
    }

    /// The ordinals of the nearest children of the nth: of each storage location that it names, the
    /// last ones of one kind in front of it that come before it; an item of all memory counts for
    /// every location. By way of them it depends on all on which it depends. Each costs a walk over
    /// those after it; a start asks by the links of the items, as `are_preds_over` does.
    #[tactic(auto, using(crate::proofs::NumbersLemmas::rising_where))]
    pub fn near(&self, n: usize) -> Result<Preds, AllocError>
        ensures { IfOk result (λ near. AreNear self.now.siblings n near) }
    {
        let near = self.near_numbers(n)?;
        let mut numbers = Vec::new(self.alloc);
        for k in 0..self.len() {
            if is_among(&near, k + 1) {
                numbers.push(k + 1)?;
            }
        }
        Ok(Preds::of(numbers))
    }

    /// The nearest children of the nth, in no order, and some of them more than once.
    fn near_numbers(&self, n: usize) -> Result<Vec<usize>, AllocError>
        ensures { IfOk result (λ near. AreNear self.now.siblings n near.items) }
    {
        match &self.lists {
            Some(lists) => lists.near_numbers(self.alloc, n),
            None => Ok(Vec::new(self.alloc)),
        }
    }

    /// The ordinals of the children that the nth excludes, before it and after it.
    #[tactic(auto, using(crate::proofs::NumbersLemmas::rising_where))]
    pub fn apart(&self, n: usize) -> Result<Preds, AllocError>
        ensures { IfOk result (λ apart. apart ≡ apart_of self.now.siblings n) }
    {
        let mut numbers = Vec::new(self.alloc);
        for k in 0..self.len() {
            if self.is_apart(k + 1, n) {
                numbers.push(k + 1)?;
            }
        }
        Ok(Preds::of(numbers))
    }

    /// The ordinals of the children that a `taskwait` with these items waits for: without items all
    /// children.
    #[tactic(auto, using(crate::proofs::NumbersLemmas::rising_where))]
    pub fn covered(&self, items: &[Item]) -> Result<Preds, AllocError>
        ensures { IfOk result (λ covered. covered ≡ covered_by self.now.siblings items.now) }
    {
        let mut numbers = Vec::new(self.alloc);
        for k in 0..self.len() {
            if self.covers(items, k + 1) {
                numbers.push(k + 1)?;
            }
        }
        Ok(Preds::of(numbers))
    }

    /// The ordinals of the children on which the nth depends, in a list that has capacity for them.
    #[tactic(auto, using(crate::proofs::NumbersLemmas::rising_where))]
    fn fill_preds(&self, n: usize, mut numbers: Vec<usize>) -> Preds
        requires empty { numbers.items ≡ [] }
        requires room { min (length self.now.siblings) (n - 1) ≤ vec_capacity numbers }
        ensures { result ≡ preds_of self.now.siblings n }
    {
        for k in 0..self.len().min(n.saturating_sub(1)) {
            if self.is_before(k + 1, n) {
                numbers.push_reserved(k + 1);
            }
        }
        Preds::of(numbers)
    }
}
