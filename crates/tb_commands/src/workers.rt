//! A count of workers.

ghost use Rattle.std.specs.Prelude.{◌≡◌, ◌≤◌};

use std::marker::Model;

/// A count of workers, 1 to 64. Contracts see the number.
#[derive(Clone, Copy, Debug, Drop)]
pub struct Workers {
    count: u32,
}

impl Model for Workers {
    ghost use Rattle.std.specs.Prelude.{◌≤◌, ℕ};

    ghost Value = { ℕ };

    ghost view = { λ w. w.count };

    ghost inverse = { λ n. record { count = n } };

    ghost invariant = { λ w. (1 ≤ w.count) × (w.count ≤ 64) };
}

impl Workers {
    pub fn new(count: u32) -> Workers
        requires some { 1 ≤ count }
        requires few { count ≤ 64 }
        ensures { result ≡ count }
    {
        Workers { count }
    }

    pub fn count(&self) -> u32
        ensures count { result ≡ self.now }
        ensures some { 1 ≤ result }
        ensures few { result ≤ 64 }
    {
        self.count
    }
}
