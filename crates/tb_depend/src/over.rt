//! Which children are over.

ghost use Rattle.std.specs.Prelude.{◌≡◌, ℕ, Bool};

/// Says of each child of a task, by its ordinal from 1, whether it is over.
pub trait Over {
    ghost over: { Self → ℕ → Bool };

    fn is_over(&self, child: usize) -> bool
        ensures { result ≡ over self.now child };
}
