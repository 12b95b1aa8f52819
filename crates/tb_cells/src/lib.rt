//! What is stored of each cell that has capacity, where every other cell has one value by default.
#![tactic(auto)]

ghost use Rattle.std.specs.Prelude.{◌≡◌, ℕ, true, OnOk, IsOk, is_some, nat_eq, unwrap_or, option_map, if◌then◌else◌};
ghost use Rattle.std.specs.Map.{lookup};

use indexmap::IndexMap;
use std::alloc::AllocError;

/// Reserves capacity for the cell, whose value is the absent one until it is set.
pub fn reserve_cell<V: Copy + Drop>(
    cells: &mut IndexMap<u32, V>,
    cell: u32,
    absent: V,
) -> Result<(), AllocError>
    ensures ok { OnOk result (is_some (lookup (nat_eq cell) cells.new.entries) ≡ true) }
    ensures same { (c : ℕ) → unwrap_or (lookup (nat_eq c) cells.new.entries) absent
        ≡ unwrap_or (lookup (nat_eq c) cells.old.entries) absent }
    ensures keeps { (c : ℕ) → is_some (lookup (nat_eq c) cells.old.entries) ≡ true
        → is_some (lookup (nat_eq c) cells.new.entries) ≡ true }
    ensures succeeds { is_some (lookup (nat_eq cell) cells.old.entries) ≡ true → IsOk result }
{
    if cells.contains_key(&cell) {
        return Ok(());
    }
    cells.reserve(1)?;
    cells.insert(cell, absent).unwrap();
    Ok(())
}

/// Sets the cell's value, where the cell has capacity.
pub fn set_cell<V: Copy + Drop>(cells: &mut IndexMap<u32, V>, cell: u32, to: V)
    ensures { (c : ℕ) → lookup (nat_eq c) cells.new.entries
        ≡ (if nat_eq cell c then option_map (λ _. to) (lookup (nat_eq c) cells.old.entries) else lookup (nat_eq c) cells.old.entries) }
{
    if let Some(value) = cells.get_mut(&cell) {
        *value = to;
    }
}
