//! The lists of a task's children, which are made where the first item is.

ghost use Rattle.std.specs.Prelude.{◌≡◌, ◌≤◌, ◌+◌, ◌<◌, ◌-◌, [], ◌∷◌, ◌++◌, IsOk, OnOk, IfOk, IsTrue, ◌↔◌, length, take, replicate, vec_capacity};
ghost use Rattle.tb_depend.specs.Relations.{items_at};
ghost use Rattle.tb_depend.specs.Layout.{bare_table};
ghost use Rattle.tb_depend.specs.Table.{HasRoomFor, KeepsRoom, FreesRoom};
ghost use Rattle.tb_depend.specs.Nearness.{IsClosed, AreOver, AreOverFor, AreNear};

use crate::chain::Chain;
use crate::layout::{pop_row, push_row, row};
use crate::near::{further_over, preds_over};
use crate::nearest::near_numbers;
use crate::over::Over;
use std::alloc::{AllocError, Global};
use std::marker::Model;
use std::mem;
use tb_model::Item;

/// The items of all children, and where each child's end.
#[derive(Drop)]
pub(crate) struct Lists {
    // the items of all children, one child's after another's
    chain: Chain,
    // where each child's items end
    ends: Vec<usize>,
    // the list that the next `add` fills and hands out
    spare: Vec<usize>,
}

impl Model for Lists {
    ghost use Rattle.std.specs.Prelude.{◌≡◌, ◌-◌, [], length, vec_len, vec_capacity};
    ghost use Rattle.tb_depend.specs.Table.{Table};
    ghost use Rattle.tb_depend.specs.Layout.{AreEnds, rows_from};

    ghost Value = { Table };

    ghost view = { λ s. record { siblings = rows_from 0 s.ends.items s.chain.items; places = vec_capacity s.ends - vec_len s.ends; item_places = s.chain.item_places; link_places = s.chain.link_places; cells = s.chain.cells; number_places = vec_capacity s.spare } };

    ghost invariant = { λ s. AreEnds 0 s.ends.items (length s.chain.items) × (s.spare.items ≡ []) };
}

impl Lists {
    /// Lists of `count` children without items, with capacity for `room` children in all.
    #[tactic(auto, using(crate::proofs::BareLemmas::ends_bare, crate::proofs::BareLemmas::rows_bare))]
    pub(crate) fn bare(alloc: Global, count: u32, room: u32) -> Result<Lists, AllocError>
        requires { count ≤ room }
        ensures siblings { IfOk result (λ lists. lists.siblings ≡ replicate count []) }
        ensures keeps { IfOk result (KeepsRoom (bare_table count room)) }
    {
        let mut ends = vec![in alloc; 0; count as usize]?;
        ends.reserve((room - count) as usize)?;
        Ok(Lists {
            chain: Chain::new(alloc),
            ends,
            spare: Vec::with_capacity(alloc, room as usize)?,
        })
    }

    /// How many children there are.
    #[tactic(auto, using(crate::proofs::LayoutLemmas::length_rows))]
    pub(crate) fn len(&self) -> usize
        ensures { result ≡ length self.now.siblings }
    {
        self.ends.len()
    }

    /// The items of the nth child, n from 1, and none where there is no such child.
    pub(crate) fn items(&self, n: usize) -> &[Item]
        ensures { result.now ≡ items_at self.now.siblings n }
    {
        row(self.chain.items(), &self.ends, n)
    }

    /// Reserves the capacity for a child with these items, and changes nothing else.
    #[tactic(auto, using(crate::proofs::LayoutLemmas::length_rows))]
    pub(crate) fn reserve_add(&mut self, items: &[Item]) -> Result<(), AllocError>
        ensures siblings { self.new.siblings ≡ self.old.siblings }
        ensures room { OnOk result (HasRoomFor self.new items.now) }
        ensures succeeds { HasRoomFor self.old items.now → IsOk result }
        ensures keeps { KeepsRoom self.old self.new }
    {
        let count = self.len();
        self.ends.reserve(1)?;
        self.chain.reserve(items)?;
        self.spare.reserve(count)
    }

    /// Adds a child after the others, in the capacity that is there.
    pub(crate) fn add_reserved(&mut self, items: &[Item])
        requires { HasRoomFor self.old items.now }
        ensures added { self.new.siblings ≡ self.old.siblings ++ items.now ∷ [] }
        ensures places { self.old.places ≤ self.new.places + 1 }
        ensures item_places { self.old.item_places ≤ self.new.item_places + length items.now }
        ensures numbers { self.new.number_places ≡ self.old.number_places }
    {
        push_row(&mut self.chain, &mut self.ends, items);
    }

    /// Takes the list for ordinals out.
    pub(crate) fn take_spare(&mut self, alloc: Global) -> Vec<usize>
        ensures empty { result.items ≡ [] }
        ensures room { vec_capacity result ≡ self.old.number_places }
        ensures same { self.new ≡ record self.old { number_places = self.new.number_places } }
    {
        mem::replace(&mut self.spare, Vec::new(alloc))
    }

    /// Takes the last child off, and retains its capacity. Where there is none, nothing changes.
    #[tactic(auto, using(crate::proofs::LayoutLemmas::length_rows))]
    pub(crate) fn drop_last(&mut self)
        ensures siblings { self.new.siblings ≡ take (length self.old.siblings - 1) self.old.siblings }
        ensures frees { 0 < length self.old.siblings → FreesRoom self.old self.new
            (length (items_at self.old.siblings (length self.old.siblings))) }
        ensures keeps { KeepsRoom self.old self.new }
    {
        pop_row(&mut self.chain, &mut self.ends);
    }

    /// Whether all children on which the nth depends are over.
    pub(crate) fn are_preds_over<T: Over>(&self, n: usize, over: &T) -> bool
        ensures { IsClosed self.now.siblings (T.over over.now) →
            IsTrue result ↔ AreOver self.now.siblings (T.over over.now) n }
    {
        preds_over(&self.chain, &self.ends, n, over)
    }

    /// Whether all children are over on which a further child with these items would depend.
    pub(crate) fn are_over_for<T: Over>(&self, items: &[Item], over: &T) -> bool
        ensures { IsClosed self.now.siblings (T.over over.now) →
            IsTrue result ↔ AreOverFor self.now.siblings (T.over over.now) items.now }
    {
        further_over(&self.chain, &self.ends, items, over)
    }

    /// The nearest children of the nth, in no order, and some of them more than once.
    pub(crate) fn near_numbers(&self, alloc: Global, n: usize) -> Result<Vec<usize>, AllocError>
        ensures { IfOk result (λ near. AreNear self.now.siblings n near.items) }
    {
        near_numbers(alloc, &self.chain, &self.ends, n)
    }
}
