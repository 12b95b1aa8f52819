//! Ordinals of siblings.

ghost use Rattle.std.specs.Prelude.{◌≡◌};
ghost use Rattle.tb_depend.specs.Numbers.{AreRising};

use std::marker::Model;

/// Ordinals of siblings, rising. The nth child of a task has the ordinal n, from 1.
#[derive(Drop, Debug)]
pub struct Preds {
    numbers: Vec<usize>,
}

impl Model for Preds {
    ghost use Rattle.std.specs.Prelude.{List, ℕ};
    ghost use Rattle.tb_depend.specs.Numbers.{AreRising};

    ghost Value = { List ℕ };

    ghost view = { λ p. p.numbers.items };

    ghost invariant = { λ p. AreRising 0 p.numbers.items };
}

impl Preds {
    pub(crate) fn of(numbers: Vec<usize>) -> Preds
        requires { AreRising 0 numbers.items }
        ensures { result ≡ numbers.items }
    {
        Preds { numbers }
    }

    /// The ordinals, in order.
    pub fn as_slice(&self) -> &[usize]
        ensures numbers { result.now ≡ self.now }
        ensures rising { AreRising 0 result.now }
    {
        self.numbers.as_slice()
    }
}
