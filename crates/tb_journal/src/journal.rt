//! A journal.

ghost use Rattle.std.specs.Prelude.{◌≡◌, ◌<◌, ◌≤◌, ◌+◌, ◌++◌, ◌∷◌, [], IfOk, OnOk, length, drop, slice_index_or, nat_lt, IsFalse, unwrap_or};
ghost use Rattle.std.specs.List.{list_all};
ghost use Rattle.tb_model.specs.declared.entry.Entry.{Entry};
ghost use Rattle.tb_model.specs.declared.entry.Entry.TheVariants.{Opened, Stepped};
ghost use Rattle.tb_journal.specs.Journals.{all_below, is_turn, seat_of, stands_apart};
ghost use Rattle.tb_journal.specs.Compact.{entry_in, entry_of, IsThere, StandsFor};

use crate::compact::Compact;
use crate::shortening::{short, short_action, short_step};
use crate::turn::{Turn, begin, copied_for, kept_for, task_at};
use std::alloc::{AllocError, Global};
use std::marker::Model;
use tb_model::{Action, Entry, Event, TaskName};

/// The entries of a run, the oldest first. Contracts see them, and for how many more there is
/// capacity.
///
/// An entry takes 16 bytes, and each turn, in which the entries are of one task, 24 more. The
/// opening is whole in a list of its own, and so is the entry of a seat above 255, which no run
/// has.
#[derive(Drop)]
pub struct Journal {
    alloc: Global,
    compact: Vec<Compact>,
    turns: Vec<Turn>,
    apart: Vec<Entry>,
}

impl Model for Journal {
    ghost use Rattle.std.specs.Prelude.{◌-◌, [], min, length, vec_len, vec_capacity};
    ghost use Rattle.std.specs.List.{AllByRecursion};
    ghost use Rattle.tb_journal.specs.Journals.{Written};
    ghost use Rattle.tb_journal.specs.Compact.{IsThere};
    ghost use Rattle.tb_journal.specs.Turns.{entries, task_at, Rises};

    ghost Value = { Written };

    ghost view = { λ j. record { items = entries j.apart.items j.turns.items 0 j.compact.items; room = min (vec_capacity j.compact - vec_len j.compact) (min (vec_capacity j.turns - vec_len j.turns) (vec_capacity j.apart - vec_len j.apart)); turn = task_at [] j.turns.items (length j.compact.items) } };

    ghost invariant = { λ j. AllByRecursion (IsThere (length j.apart.items)) j.compact.items × Rises 0 j.turns.items (length j.compact.items) };
}

impl Journal {
    /// A journal of the opening alone.
    pub fn open(alloc: Global) -> Result<Journal, AllocError>
        ensures { IfOk result (λ j. j.items ≡ Opened ∷ []) }
    {
        let mut journal = Journal {
            alloc,
            compact: Vec::new(alloc),
            turns: Vec::new(alloc),
            apart: Vec::new(alloc),
        };
        journal.reserve()?;
        journal.push_reserved(Entry::Opened);
        Ok(journal)
    }

    /// How many entries there are.
    #[tactic(auto, using(crate::proofs::TurnLemmas::entries_length))]
    pub fn len(&self) -> usize
        ensures { result ≡ length self.now.items }
    {
        self.compact.as_slice().len()
    }

    /// Capacity for one more entry. Where it is refused, what capacity there was stays.
    #[inline(always)]
    pub fn reserve(&mut self) -> Result<(), AllocError>
        ensures items { self.new.items ≡ self.old.items }
        ensures room { OnOk result (0 < self.new.room) }
        ensures kept { self.old.room ≤ self.new.room }
    {
        self.compact.reserve(1)?;
        self.turns.reserve(1)?;
        self.apart.reserve(1)?;
        Ok(())
    }

    /// Adds an entry for which there is capacity. It takes no memory.
    pub fn push_reserved(&mut self, entry: Entry)
        requires { 0 < self.old.room }
        ensures items { self.new.items ≡ self.old.items ++ entry ∷ [] }
        ensures room { self.old.room ≤ self.new.room + 1 }
    {
        self.add(short(entry));
    }

    /// Adds the step of a seat, for which there is capacity. It takes no memory.
    #[inline]
    pub fn push_step(&mut self, seat: u32, event: Event)
        requires { 0 < self.old.room }
        ensures items { self.new.items ≡ self.old.items ++ Stepped seat event ∷ [] }
        ensures room { self.old.room ≤ self.new.room + 1 }
    {
        self.add(short_step(seat, event));
    }

    /// A copy of the task's name, if it hasn't the turn, as `push_short` takes it.
    #[inline(always)]
    pub fn turn_for(&self, task: &TaskName) -> Result<Option<TaskName>, AllocError>
        ensures { IfOk result (λ new. unwrap_or new self.now.turn ≡ task.now) }
    {
        copied_for(self.turns.as_slice(), task)
    }

    /// Adds the step of a seat by its action, where that has no name or list of its own, and for
    /// which there is capacity. It is the task's whose name is handed over, else the task's that
    /// has the turn. It takes no memory.
    #[inline(always)]
    pub fn push_short(&mut self, seat: u32, new: Option<TaskName>, action: &Action)
        requires room { 0 < self.old.room }
        requires short { IsFalse (stands_apart seat action.now) }
        ensures items { self.new.items ≡ self.old.items ++ Stepped seat (record { task = unwrap_or new self.old.turn; action = action.now }) ∷ [] }
        ensures room { self.old.room ≤ self.new.room + 1 }
    {
        self.put(new, short_action(seat as u8, action));
    }

    #[inline(always)]
    fn put(&mut self, new: Option<TaskName>, compact: Compact)
        requires room { 0 < self.old.room }
        requires there { IsThere 0 compact }
        ensures items { (e : Entry) → StandsFor e (unwrap_or new self.old.turn) compact → self.new.items ≡ self.old.items ++ e ∷ [] }
        ensures room { self.old.room ≤ self.new.room + 1 }
    {
        begin(&mut self.turns, self.compact.as_slice().len(), new);
        self.compact.push_reserved(compact);
    }

    fn add(&mut self, short: Result<(TaskName, Compact), Entry>)
        requires room { 0 < self.old.room }
        requires short { IfOk short (λ r. StandsFor (entry_in short) r.0 r.1) }
        ensures items { self.new.items ≡ self.old.items ++ entry_in short ∷ [] }
        ensures room { self.old.room ≤ self.new.room + 1 }
    {
        match short {
            Ok((task, compact)) => {
                let new = kept_for(self.turns.as_slice(), task);
                self.put(new, compact);
            }
            Err(entry) => self.put_apart(entry),
        }
    }

    fn put_apart(&mut self, entry: Entry)
        requires { 0 < self.old.room }
        ensures items { self.new.items ≡ self.old.items ++ entry ∷ [] }
        ensures room { self.old.room ≤ self.new.room + 1 }
    {
        let number = self.apart.as_slice().len();
        self.compact.push_reserved(Compact::Apart(number));
        self.apart.push_reserved(entry);
    }

    /// The entry at the slot, made anew. Its lists share memory with what is here.
    #[tactic(auto, using(crate::proofs::TurnLemmas::entries_length))]
    pub fn entry(&self, place: usize) -> Result<Entry, AllocError>
        requires { place < length self.now.items }
        ensures { IfOk result (λ e. (d : Entry) → slice_index_or self.now.items place d ≡ e) }
    {
        let root = TaskName::root(self.alloc);
        let task = task_at(&root, self.turns.as_slice(), place);
        let compact = &self.compact.as_slice()[place];
        compact.entry(self.alloc, self.apart.as_slice(), task)
    }

    /// Whether each entry was made by one of so many seats.
    pub fn are_below(&self, seats: u32) -> bool
        ensures { result ≡ all_below seats self.now.items }
    {
        let apart = self.apart.as_slice();
        are_below(seats, apart, self.compact.as_slice())
    }

    /// Whether the entries from the slot on are steps of so many workers, the seats from 1 on.
    #[tactic(auto, using(crate::proofs::TurnLemmas::entries_length))]
    pub fn are_turns(&self, workers: u32, from: usize) -> bool
        requires { from ≤ length self.now.items }
        ensures { result ≡ list_all (is_turn workers) (drop from self.now.items) }
    {
        let apart = self.apart.as_slice();
        are_turns(workers, apart, later(self.compact.as_slice(), from))
    }
}

/// The entries from the slot on.
fn later(compact: &[Compact], from: usize) -> &[Compact]
    requires { from ≤ length compact.now }
    ensures { result.now ≡ drop from compact.now }
{
    &compact[from..]
}

fn are_below(seats: u32, apart: &[Entry], compact: &[Compact]) -> bool
    ensures { result ≡ list_all (λ k. nat_lt (seat_of (entry_of apart.now [] k)) seats) compact.now }
{
    compact.iter().all(|one| one.seat(apart) < seats)
}

fn are_turns(workers: u32, apart: &[Entry], compact: &[Compact]) -> bool
    ensures { result ≡ list_all (λ k. is_turn workers (entry_of apart.now [] k)) compact.now }
{
    compact.iter().all(|one| is_turn(workers, one, apart))
}

fn is_turn(workers: u32, compact: &Compact, apart: &[Entry]) -> bool
    ensures { result ≡ is_turn workers (entry_of apart.now [] compact.now) }
{
    let seat = compact.seat(apart);
    compact.is_step(apart) && 1 <= seat && seat <= workers
}
