//! The cells and the output.

ghost use Rattle.std.specs.Prelude.{◌≡◌, ◌+◌, ◌<◌, ◌≤◌, [], ◌∷◌, ◌++◌, Some, None, IsOk, OnOk, OnErr, IfOk, length, slice_set, take, ◌-◌};
ghost use Rattle.tb_store.specs.Contents.{number_at, with_number};

use crate::replaced::Replaced;
use std::alloc::{AllocError, Global};
use std::marker::Model;

/// The values of the cells, and the printed values in order.
#[derive(Drop)]
pub struct Store {
    cells: Vec<i64>,
    output: Vec<i64>,
}

impl Model for Store {
    ghost use Rattle.std.specs.Prelude.{◌-◌, vec_len, vec_capacity};
    ghost use Rattle.tb_store.specs.Contents.{Contents};

    ghost Value = { Contents };

    ghost view = { λ s. record { cells = s.cells.items; output = s.output.items; room = vec_capacity s.output - vec_len s.output } };
}

impl Store {
    /// The cells with their first values, and nothing printed.
    pub fn open(alloc: Global, first: &[i64]) -> Result<Store, AllocError>
        ensures cells { IfOk result (λ s. s.cells ≡ first.now) }
        ensures output { IfOk result (λ s. s.output ≡ []) }
    {
        Ok(Store {
            cells: Vec::from_slice(alloc, first)?,
            output: Vec::new(alloc),
        })
    }

    /// The values of the cells, in order.
    pub fn cells(&self) -> &[i64]
        ensures { result.now ≡ self.now.cells }
    {
        self.cells.as_slice()
    }

    /// The printed values, in order.
    pub fn output(&self) -> &[i64]
        ensures { result.now ≡ self.now.output }
    {
        self.output.as_slice()
    }

    /// The value of a cell.
    pub fn get(&self, cell: u32) -> i64
        requires { cell < length self.now.cells }
        ensures { result ≡ number_at self.now.cells cell }
    {
        let at = cell as usize;
        self.cells[at]
    }

    /// Writes a cell, and returns the value that was there.
    pub fn put(&mut self, cell: u32, value: i64) -> Replaced
        requires { cell < length self.old.cells }
        ensures cells { self.new ≡ record self.old { cells = slice_set self.old.cells cell value } }
        ensures replaced { result ≡ record { number = Some (number_at self.old.cells cell); reg = None; at = 0 } }
    {
        let number = self.get(cell);
        self.cells[cell as usize] = value;
        Replaced {
            number: Some(number),
            reg: None,
            at: 0,
        }
    }

    /// Puts back the number that a `put` replaced. What replaced none changes nothing.
    pub fn put_back(&mut self, cell: u32, replaced: Replaced)
        requires { cell < length self.old.cells }
        ensures { self.new ≡ record self.old { cells = with_number self.old.cells cell replaced.number } }
    {
        if let Some(number) = replaced.number {
            self.cells[cell as usize] = number;
        }
    }

    /// Reserves the capacity that `say` needs, and changes nothing else.
    pub fn reserve_say(&mut self) -> Result<(), AllocError>
        ensures cells { self.new.cells ≡ self.old.cells }
        ensures output { self.new.output ≡ self.old.output }
        ensures room { OnOk result (0 < self.new.room) }
        ensures succeeds { 0 < self.old.room → IsOk result }
        ensures keeps { self.old.room ≤ self.new.room }
    {
        self.output.reserve(1)
    }

    /// Prints a number. With capacity it takes no memory.
    pub fn say(&mut self, value: i64) -> Result<(), AllocError>
        ensures cells { self.new.cells ≡ self.old.cells }
        ensures said { OnOk result (self.new.output ≡ self.old.output ++ value ∷ []) }
        ensures err { OnErr result (self.new.output ≡ self.old.output) }
        ensures succeeds { 0 < self.old.room → IsOk result }
        ensures keeps { self.old.room ≤ self.new.room + 1 }
    {
        self.reserve_say()?;
        self.output.push_reserved(value);
        Ok(())
    }

    /// Takes the last printed value back, and retains its capacity. Where nothing was printed,
    /// nothing changes.
    pub fn unsay(&mut self)
        ensures cells { self.new.cells ≡ self.old.cells }
        ensures output { self.new.output ≡ take (length self.old.output - 1) self.old.output }
        ensures room { 0 < length self.old.output → self.new.room ≡ self.old.room + 1 }
    {
        let _last = self.output.pop();
    }
}
