//! The indexes of a history's events.

ghost use Rattle.std.specs.Prelude.{◌≡◌, ◌+◌, ◌++◌, ◌∷◌, [], ℕ, List, Option, OnOk, IsOk, length};
ghost use Rattle.tb_model.specs.Names.{Name};
ghost use Rattle.tb_model.specs.declared.action.Action.{Action as AnAction};
ghost use Rattle.tb_model.specs.declared.event.Event.{Event as AnEvent};
ghost use Rattle.tb_model.specs.Facts.{is_of, is_print, touches};
ghost use Rattle.tb_places.specs.Numbers.{number_of};
ghost use Rattle.tb_places.specs.Renumbering.{RiseFrom, left_from};
ghost use Rattle.tb_places.specs.Places.{event_number, IsIndexOf, IsNamed, HasRoomAs, KeepsRoom};
ghost use Rattle.tb_places.specs.Where.{places_where};

use crate::marks::mark_of;
use crate::rows::Rows;
use std::alloc::{AllocError, Global};
use tb_model::Action;

/// Where the events of a history are: those of each task, those that load from a cell or store to
/// it, and those that print. Neither the history nor the tasks' names are stored here: a task is
/// given by an id, which is its own for good.
#[derive(Drop)]
pub struct Places {
    // the row of each task has its id
    own: Rows,
    // the output's row is the first, then comes each cell's
    marks: Rows,
}

impl Places {
    pub fn new(alloc: Global) -> Places
        ensures { (names : List Name) → IsIndexOf names [] result }
    {
        Places {
            own: Rows::new(alloc),
            marks: Rows::new(alloc),
        }
    }

    /// The indexes of the events of the task with this id, rising. One without an id has none.
    pub fn events_of(&self, number: Option<usize>) -> &[u32]
        ensures { (names : List Name) (task : Name) (events : List AnEvent) → number ≡ number_of names task →
            IsIndexOf names events self.now → result.now ≡ places_where (is_of task) events }
    {
        match number {
            Some(number) => self.own.row(number),
            None => &[],
        }
    }

    /// The indexes of the cell's loads and stores, rising.
    pub fn touches(&self, cell: u32) -> &[u32]
        ensures { (names : List Name) (events : List AnEvent) → IsIndexOf names events self.now →
            result.now ≡ places_where (λ e. touches cell e.action) events }
    {
        self.marks.row(cell as usize + 1)
    }

    /// The indexes of the prints, rising.
    pub fn prints(&self) -> &[u32]
        ensures { (names : List Name) (events : List AnEvent) → IsIndexOf names events self.now →
            result.now ≡ places_where (λ e. is_print e.action) events }
    {
        self.marks.row(0)
    }

    /// How many rows there are, with those that are empty.
    pub fn rows(&self) -> usize
        ensures { result ≡ length self.now.own.rows.items + length self.now.marks.rows.items }
    {
        self.own.len() + self.marks.len()
    }

    /// Forgets the indexes of the events that go, which are at these indexes, and lowers those of
    /// the events after them. It takes no memory. Each row is gone over, but only after the first
    /// that goes.
    pub fn close_gaps(&mut self, going: &[u32])
        requires going { RiseFrom 0 going.now }
        requires index { (names : List Name) × ((events : List AnEvent) ×
            IsIndexOf names events self.old) }
        ensures closed { (names : List Name) (events : List AnEvent) →
            IsIndexOf names events self.old → IsIndexOf names (left_from 0 going.now events) self.new }
        ensures room { KeepsRoom self.old self.new }
    {
        self.own.close_gaps(going);
        self.marks.close_gaps(going);
    }

    /// Reserves capacity for the indexes of an event with this action, whose task has this id.
    #[inline(always)]
    pub fn reserve(&mut self, number: Option<usize>, action: &Action) -> Result<(), AllocError>
        ensures same { (names : List Name) (events : List AnEvent) → IsIndexOf names events self.old →
            IsIndexOf names events self.new }
        ensures keeps { (n : Option ℕ) (a : AnAction) → HasRoomAs self.old n a → HasRoomAs self.new n a }
        ensures ok { OnOk result (HasRoomAs self.new number action.now) }
        ensures succeeds { HasRoomAs self.old number action.now → IsOk result }
    {
        self.own.reserve_at(number)?;
        self.marks.reserve_at(mark_of(action))
    }

    /// Notes the index of an event that comes after all others, has this action, and whose task has
    /// this id.
    #[inline(always)]
    pub fn push_reserved(&mut self, number: Option<usize>, action: &Action, at: u32)
        requires { HasRoomAs self.old number action.now }
        ensures pushed { (names : List Name) (events : List AnEvent) (e : AnEvent) → e.action ≡ action.now →
            number ≡ event_number names e → IsNamed names e → IsIndexOf names events self.old →
            at ≡ length events → IsIndexOf names (events ++ e ∷ []) self.new }
        ensures room { KeepsRoom self.old self.new }
    {
        self.own.push_at(number, at);
        self.marks.push_at(mark_of(action), at);
    }

    /// Forgets the index of the last event, which has this action, and whose task has this id. Its
    /// capacity stays.
    pub fn pop(&mut self, number: Option<usize>, action: &Action)
        ensures popped { (names : List Name) (events : List AnEvent) (e : AnEvent) → e.action ≡ action.now →
            number ≡ event_number names e → IsIndexOf names (events ++ e ∷ []) self.old →
            IsIndexOf names events self.new }
        ensures room { KeepsRoom self.old self.new }
    {
        self.own.pop_at(number);
        self.marks.pop_at(mark_of(action));
    }
}
