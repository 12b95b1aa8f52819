//! Rows of bounds: how far each lane is in front of a step.

ghost use Rattle.std.specs.Prelude.{◌≡◌, ◌<◌, ◌≤◌, ◌⊎◌, ℕ, length, max, get_or, IfOk, OnOk, IsTrue, IsFalse};
ghost use Rattle.tb_lanes.specs.declared.lane_bound.LaneBound.{LaneBound as ABound};
ghost use Rattle.tb_lanes.specs.Bounds as is;
ghost use Rattle.tb_lanes.specs.Bounds.{AreRising, IsRising, bound_in};

use crate::lane_bound::LaneBound;
use std::alloc::{AllocError, Global};

/// How far the row reaches in the lane with this index.
pub fn bound(row: &[LaneBound], lane: usize) -> usize
    ensures { IsRising row.now → result ≡ bound_in row.now lane }
{
    let mut low = 0_usize;
    let mut high = row.len();
    'halve: while low < high {
        let middle = low + (high - low) / 2;
        let found = row[middle].lane as usize;
        if found == lane {
            return row[middle].to as usize;
        }
        if found < lane {
            low = middle + 1;
        } else {
            high = middle;
        }
    }
    0
}

/// How far some of the rows reach in the lane with this index.
pub fn bound_among(rows: &[Vec<LaneBound>], lane: usize) -> usize
    ensures { AreRising rows.now → result ≡ is.bound_among rows.now lane }
{
    let mut most = 0_usize;
    for row in rows {
        most = most.max(bound(row, lane));
    }
    most
}

/// A row that says of each lane what either does.
pub fn merged(
    alloc: Global,
    left: &[LaneBound],
    right: &[LaneBound],
) -> Result<Vec<LaneBound>, AllocError>
    ensures bounds { IfOk result (λ row. (k : ℕ) →
        bound_in row.items k ≡ max (bound_in left.now k) (bound_in right.now k)) }
    ensures rising { IfOk result (λ row. IsRising left.now → IsRising right.now
        → IsRising row.items) }
{
    let mut row = Vec::with_capacity(alloc, left.len() + right.len())?;
    let mut i = 0_usize;
    let mut j = 0_usize;
    'merge: while i + j < left.len() + right.len() {
        let from_left = comes_next(left, i, right, j);
        if !from_left {
            row.push(right[j])?;
            j += 1;
        } else if !comes_next(right, j, left, i) {
            row.push(left[i])?;
            i += 1;
        } else {
            row.push(further(left[i], right[j]))?;
            i += 1;
            j += 1;
        }
    }
    Ok(row)
}

/// Whether there is a bound at `i`, of a lane that isn't after that of the other row at `j`.
fn comes_next(row: &[LaneBound], i: usize, other: &[LaneBound], j: usize) -> bool
    ensures yes { IsTrue result → (i < length row.now)
        × ((x y : ABound) → x ≡ get_or row.now i x → j < length other.now → y ≡ get_or other.now j y → x.lane ≤ y.lane) }
    ensures no { IsFalse result → (length row.now ≤ i) ⊎ ((j < length other.now)
        × ((x y : ABound) → x ≡ get_or row.now i x → y ≡ get_or other.now j y
        → y.lane < x.lane)) }
{
    if i >= row.len() {
        return false;
    }
    if j >= other.len() {
        return true;
    }
    row[i].lane <= other[j].lane
}

/// Of two bounds of one lane the one that says more.
fn further(left: LaneBound, right: LaneBound) -> LaneBound
    requires one { left.lane ≡ right.lane }
    ensures lane { result.lane ≡ left.lane }
    ensures bound { (k : ℕ) →
        is.bound_by result k ≡ max (is.bound_by left k) (is.bound_by right k) }
{
    if left.to < right.to { right } else { left }
}

/// Adds the row to the others. The last are merged with it as long as they aren't more than twice as
/// long, so that there are few.
pub fn add_row(
    alloc: Global,
    rows: &mut Vec<Vec<LaneBound>>,
    row: Vec<LaneBound>,
) -> Result<(), AllocError>
    ensures bounds { OnOk result ((k : ℕ) → is.bound_among rows.new.items k
        ≡ max (is.bound_among rows.old.items k) (bound_in row.items k)) }
    ensures rising { OnOk result (AreRising rows.old.items → IsRising row.items
        → AreRising rows.new.items) }
{
    let mut whole = row;
    'halve: while !rows.is_empty() && rows[rows.len() - 1].len() / 2 <= whole.len() {
        let last = rows.pop().unwrap();
        whole = merged(alloc, &last, &whole)?;
    }
    rows.push(whole)?;
    Ok(())
}

/// One row that says of each lane what some of the rows does.
pub fn whole(alloc: Global, rows: Vec<Vec<LaneBound>>) -> Result<Vec<LaneBound>, AllocError>
    ensures bounds { IfOk result (λ row. (k : ℕ) →
        bound_in row.items k ≡ is.bound_among rows.items k) }
    ensures rising { IfOk result (λ row. AreRising rows.items → IsRising row.items) }
{
    let mut left = rows;
    let mut whole = Vec::new(alloc);
    'join: while let Some(last) = left.pop() {
        whole = merged(alloc, &last, &whole)?;
    }
    Ok(whole)
}
