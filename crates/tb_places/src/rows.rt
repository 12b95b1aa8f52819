//! Rows of indexes. A row that isn't there is an empty one.

ghost use Rattle.std.specs.Prelude.{◌≡◌, ◌≢◌, ◌<◌, ◌≤◌, ◌+◌, ◌++◌, ◌∷◌, [], ℕ, List, Option, OnOk, IsOk, length, vec_len, vec_capacity};
ghost use Rattle.tb_model.specs.declared.event.Event.{Event as AnEvent};
ghost use Rattle.tb_places.specs.Renumbering.{RiseFrom, lowered};
ghost use Rattle.tb_places.specs.Rows.{row_of, room_of, HasRoom, HasRoomAt, AreRows, GrowsRooms, KeepsRooms};

use crate::gaps::close;
use std::alloc::{AllocError, Global};

/// Rows by their ids, from 0. Which events have which row isn't known here.
#[derive(Drop)]
pub struct Rows {
    alloc: Global,
    rows: Vec<Vec<u32>>,
}

impl Rows {
    pub fn new(alloc: Global) -> Rows
        ensures { (k : ℕ) → row_of result k ≡ [] }
    {
        Rows {
            alloc,
            rows: Vec::new(alloc),
        }
    }

    pub fn row(&self, n: usize) -> &[u32]
        ensures { result.now ≡ row_of self.now n }
    {
        match self.rows.as_slice().get(n) {
            Some(row) => row.as_slice(),
            None => &[],
        }
    }

    /// Reserves capacity for one more index in the row, where there is one.
    #[inline(always)]
    pub fn reserve_at(&mut self, n: Option<usize>) -> Result<(), AllocError>
        ensures same { (k : ℕ) → row_of self.new k ≡ row_of self.old k }
        ensures keeps { GrowsRooms self.old self.new }
        ensures ok { OnOk result (HasRoomAt self.new n) }
        ensures succeeds { HasRoomAt self.old n → IsOk result }
    {
        match n {
            Some(n) => self.reserve(n),
            None => Ok(()),
        }
    }

    /// Notes the index of an event that comes after all others.
    #[inline(always)]
    pub fn push_at(&mut self, n: Option<usize>, place: u32)
        requires { HasRoomAt self.old n }
        ensures pushed { (number : AnEvent → Option ℕ) (events : List AnEvent) (e : AnEvent) →
            AreRows number events self.old → number e ≡ n → place ≡ length events →
            AreRows number (events ++ e ∷ []) self.new }
        ensures room { KeepsRooms self.old self.new }
    {
        match n {
            Some(n) => self.push_reserved(n, place),
            None => {}
        }
    }

    /// Forgets the index of the last event.
    pub fn pop_at(&mut self, n: Option<usize>)
        ensures popped { (number : AnEvent → Option ℕ) (events : List AnEvent) (e : AnEvent) →
            AreRows number (events ++ e ∷ []) self.old → number e ≡ n →
            AreRows number events self.new }
        ensures room { KeepsRooms self.old self.new }
    {
        match n {
            Some(n) => self.pop(n),
            None => {}
        }
    }

    /// How many rows there are.
    pub fn len(&self) -> usize
        ensures { result ≡ length self.now.rows.items }
    {
        self.rows.len()
    }

    /// Forgets the indexes of the events that go, and lowers those after them.
    pub fn close_gaps(&mut self, going: &[u32])
        requires going { RiseFrom 0 going.now }
        requires places { (k : ℕ) → RiseFrom 0 (row_of self.old k) }
        ensures lowered { (k : ℕ) → row_of self.new k ≡ lowered going.now (row_of self.old k) }
        ensures room { KeepsRooms self.old self.new }
    {
        for n in 0..self.rows.len() {
            self.close(n, going);
        }
    }

    #[inline(always)]
    fn close(&mut self, n: usize, going: &[u32])
        requires going { RiseFrom 0 going.now }
        requires places { RiseFrom 0 (row_of self.old n) }
        requires within { n < length self.old.rows.items }
        ensures row { row_of self.new n ≡ lowered going.now (row_of self.old n) }
        ensures others { (k : ℕ) → k ≢ n → row_of self.new k ≡ row_of self.old k }
        ensures len { length self.new.rows.items ≡ length self.old.rows.items }
        ensures room { KeepsRooms self.old self.new }
    {
        close(&mut self.rows[n], going);
    }

    fn reserve(&mut self, n: usize) -> Result<(), AllocError>
        ensures same { (k : ℕ) → row_of self.new k ≡ row_of self.old k }
        ensures keeps { GrowsRooms self.old self.new }
        ensures ok { OnOk result (HasRoom self.new n) }
        ensures succeeds { HasRoom self.old n → IsOk result }
    {
        self.grow(n)?;
        reserve_one(&mut self.rows[n])
    }

    #[inline(always)]
    fn push_reserved(&mut self, n: usize, place: u32)
        requires { HasRoom self.old n }
        ensures row { row_of self.new n ≡ row_of self.old n ++ place ∷ [] }
        ensures others { (k : ℕ) → k ≢ n → row_of self.new k ≡ row_of self.old k }
        ensures room { KeepsRooms self.old self.new }
    {
        self.rows[n].push_reserved(place);
    }

    /// Takes the last index of the row off.
    fn pop(&mut self, n: usize)
        ensures row { (ps : List ℕ) (p : ℕ) → row_of self.old n ≡ ps ++ p ∷ [] →
            row_of self.new n ≡ ps }
        ensures others { (k : ℕ) → k ≢ n → row_of self.new k ≡ row_of self.old k }
        ensures room { KeepsRooms self.old self.new }
    {
        if n < self.rows.len() {
            self.rows[n].pop();
        }
    }

    /// Makes rows up to this one.
    #[inline(always)]
    fn grow(&mut self, n: usize) -> Result<(), AllocError>
        ensures same { (k : ℕ) → row_of self.new k ≡ row_of self.old k }
        ensures keeps { GrowsRooms self.old self.new }
        ensures within { OnOk result (n < length self.new.rows.items) }
        ensures there { n < length self.old.rows.items → IsOk result × (self.new ≡ self.old) }
    {
        while self.rows.len() <= n {
            self.rows.push(Vec::new(self.alloc))?;
        }
        Ok(())
    }
}

/// Reserves capacity for one more index, mostly without a call.
#[inline(always)]
fn reserve_one(row: &mut Vec<u32>) -> Result<(), AllocError>
    ensures items { row.new.items ≡ row.old.items }
    ensures len { vec_len row.new ≡ vec_len row.old }
    ensures ok { OnOk result (vec_len row.new + 1 ≤ vec_capacity row.new) }
    ensures capacity { vec_capacity row.old ≤ vec_capacity row.new }
    ensures succeeds { vec_len row.old + 1 ≤ vec_capacity row.old → IsOk result }
{
    if row.len() < row.capacity() {
        return Ok(());
    }
    // so that the row of a task of up to ten steps never moves
    row.reserve(if row.is_empty() { 10 } else { 1 })
}
