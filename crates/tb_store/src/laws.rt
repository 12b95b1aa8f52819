//! Laws of the cells.

ghost use Rattle.std.specs.Prelude.{◌≡◌, ◌<◌, ℕ, ℤ, List, length, slice_set};
ghost use Rattle.tb_store.specs.Contents.{number_at};

/// A number that is written and then put back leaves the cells as they were.
#[tactic(auto, using(crate::proofs::CellLemmas::set_back))]
pub fn put_then_put_back()
    ensures { (cells : List ℤ) (c : ℕ) (x : ℤ) → c < length cells
        → slice_set (slice_set cells c x) c (number_at cells c) ≡ cells }
{}
