//! The rows of the table, by index.

ghost use Rattle.std.specs.Prelude.{◌≡◌, ◌≢◌, ◌<◌, ◌≤◌, ◌-◌, [], ◌∷◌, ◌++◌, OnOk, OnErr, IsOk, IfOk, Some, None, is_some, length, vec_capacity, reverse};
ghost use Rattle.std.specs.Option.{option_map};
ghost use Rattle.tb_wait.specs.Kin.{with_over, with_children, opened_kin, unopened_kin, closed_kin, unclosed_kin, fresh, first_of, is_fresh, Kin};
ghost use Rattle.tb_wait.specs.Rows as Rows;
ghost use Rattle.tb_wait.specs.Rows.{blank, slot_at, groups_of, ChangesSlot, SetsStanding};

use crate::row::Row;
use std::alloc::{AllocError, Global};

/// Whether the task is there and isn't over.
#[tactic(auto, using(crate::proofs::RowLemmas::shown))]
pub fn is_pending(rows: &Vec<Row>, at: usize) -> bool
    requires { at < length rows.now.items }
    ensures { result ≡ Rows.is_pending (slot_at rows.now.items at).kin }
{
    rows[at].is_pending()
}

#[tactic(auto, using(crate::proofs::RowLemmas::shown))]
pub fn set_over(rows: &mut Vec<Row>, at: usize, over: bool)
    requires { at < length rows.old.items }
    ensures slot { let s = slot_at rows.old.items at in
        ChangesSlot rows.old.items at (record s { kin = option_map (with_over over) s.kin }) rows.new.items }
    ensures capacity { vec_capacity rows.new ≡ vec_capacity rows.old }
{
    rows[at].set_over(over);
}

#[tactic(auto, using(crate::proofs::RowLemmas::shown))]
pub fn set_children(rows: &mut Vec<Row>, at: usize, n: u32)
    requires { at < length rows.old.items }
    ensures slot { let s = slot_at rows.old.items at in
        ChangesSlot rows.old.items at (record s { kin = option_map (with_children n) s.kin }) rows.new.items }
    ensures capacity { vec_capacity rows.new ≡ vec_capacity rows.old }
{
    rows[at].set_children(n);
}

#[tactic(auto, using(crate::proofs::RowLemmas::shown))]
pub fn close(rows: &mut Vec<Row>, at: usize)
    requires { at < length rows.old.items }
    ensures slot { let s = slot_at rows.old.items at in
        ChangesSlot rows.old.items at (record s { kin = option_map closed_kin s.kin }) rows.new.items }
    ensures capacity { vec_capacity rows.new ≡ vec_capacity rows.old }
{
    rows[at].close();
}

#[tactic(auto, using(crate::proofs::RowLemmas::shown))]
pub fn unclose(rows: &mut Vec<Row>, at: usize)
    requires { at < length rows.old.items }
    ensures slot { let s = slot_at rows.old.items at in
        ChangesSlot rows.old.items at (record s { kin = option_map unclosed_kin s.kin }) rows.new.items }
    ensures capacity { vec_capacity rows.new ≡ vec_capacity rows.old }
{
    rows[at].unclose();
}

#[tactic(auto, using(crate::proofs::RowLemmas::shown))]
pub fn reserve_group(rows: &mut Vec<Row>, at: usize) -> Result<(), AllocError>
    requires { at < length rows.old.items }
    ensures ok { OnOk result (0 < (slot_at rows.new.items at).group_room) }
    ensures slot { let s = slot_at rows.old.items at in
        ChangesSlot rows.old.items at (record s { group_room = (slot_at rows.new.items at).group_room }) rows.new.items }
    ensures keeps { (slot_at rows.old.items at).group_room ≤ (slot_at rows.new.items at).group_room }
    ensures succeeds { 0 < (slot_at rows.old.items at).group_room → IsOk result }
    ensures capacity { vec_capacity rows.new ≡ vec_capacity rows.old }
{
    rows[at].reserve_group()
}

#[tactic(auto, using(crate::proofs::RowLemmas::shown))]
pub fn open(rows: &mut Vec<Row>, at: usize) -> Result<(), AllocError>
    requires { at < length rows.old.items }
    ensures slot { ChangesSlot rows.old.items at (slot_at rows.new.items at) rows.new.items }
    ensures ok { OnOk result ((slot_at rows.new.items at).kin ≡ option_map opened_kin (slot_at rows.old.items at).kin) }
    ensures err { OnErr result ((slot_at rows.new.items at).kin ≡ (slot_at rows.old.items at).kin) }
    ensures child_room { (slot_at rows.new.items at).child_room ≡ (slot_at rows.old.items at).child_room }
    ensures succeeds { 0 < (slot_at rows.old.items at).group_room → IsOk result }
    ensures capacity { vec_capacity rows.new ≡ vec_capacity rows.old }
{
    rows[at].open_reserving()
}

#[tactic(auto, using(crate::proofs::RowLemmas::shown))]
pub fn unopen(rows: &mut Vec<Row>, at: usize)
    requires within { at < length rows.old.items }
    ensures slot { ChangesSlot rows.old.items at (slot_at rows.new.items at) rows.new.items }
    ensures kin { (slot_at rows.new.items at).kin ≡ option_map unopened_kin (slot_at rows.old.items at).kin }
    ensures child_room { (slot_at rows.new.items at).child_room ≡ (slot_at rows.old.items at).child_room }
    ensures keeps { (slot_at rows.old.items at).group_room ≤ (slot_at rows.new.items at).group_room }
    ensures group_room { groups_of (slot_at rows.old.items at).kin ≢ [] → 0 < (slot_at rows.new.items at).group_room }
    ensures capacity { vec_capacity rows.new ≡ vec_capacity rows.old }
{
    rows[at].unopen();
}

#[tactic(auto, using(crate::proofs::RowLemmas::shown))]
fn appear(rows: &mut Vec<Row>, at: usize)
    requires within { at < length rows.old.items }
    requires absent { (slot_at rows.old.items at).kin ≡ None }
    ensures slot { ChangesSlot rows.old.items at (record (slot_at rows.old.items at) { kin = Some fresh }) rows.new.items }
    ensures capacity { vec_capacity rows.new ≡ vec_capacity rows.old }
{
    rows[at].appear();
}

#[tactic(auto, using(crate::proofs::RowLemmas::shown))]
fn vanish(rows: &mut Vec<Row>, at: usize)
    requires within { at < length rows.old.items }
    requires fresh { (slot_at rows.old.items at).kin ≡ Some fresh }
    ensures slot { ChangesSlot rows.old.items at (record (slot_at rows.old.items at) { kin = None }) rows.new.items }
    ensures capacity { vec_capacity rows.new ≡ vec_capacity rows.old }
{
    rows[at].vanish();
}

/// The task comes to be, as the last child of the row above.
pub fn enter(rows: &mut Vec<Row>, at: usize, owner: usize, number: u32)
    requires within { at < length rows.old.items }
    requires above { owner < at }
    requires absent { (slot_at rows.old.items at).kin ≡ None }
    ensures rows { SetsStanding rows.old.items at owner (Some fresh) number rows.new.items }
    ensures capacity { vec_capacity rows.new ≡ vec_capacity rows.old }
{
    appear(rows, at);
    set_children(rows, owner, number);
}

/// The task, which was the last child of the row above, is no longer there.
pub fn leave(rows: &mut Vec<Row>, at: usize, owner: usize, number: u32)
    requires within { at < length rows.old.items }
    requires above { owner < at }
    requires fresh { (slot_at rows.old.items at).kin ≡ Some fresh }
    ensures rows { SetsStanding rows.old.items at owner None (number - 1) rows.new.items }
    ensures capacity { vec_capacity rows.new ≡ vec_capacity rows.old }
{
    vanish(rows, at);
    set_children(rows, owner, number.saturating_sub(1));
}

/// Sets how many more children of the task fit with no memory.
#[tactic(auto, using(crate::proofs::RowLemmas::shown))]
pub fn set_child_room(rows: &mut Vec<Row>, at: usize, room: usize)
    requires { at < length rows.old.items }
    ensures slot { ChangesSlot rows.old.items at (record (slot_at rows.old.items at) { child_room = room }) rows.new.items }
    ensures capacity { vec_capacity rows.new ≡ vec_capacity rows.old }
{
    rows[at].set_child_room(room);
}

/// How many more children of the task fit with no memory.
#[tactic(auto, using(crate::proofs::RowLemmas::shown))]
pub fn child_room(rows: &Vec<Row>, at: usize) -> usize
    requires { at < length rows.now.items }
    ensures { result ≡ (slot_at rows.now.items at).child_room }
{
    rows[at].child_room()
}

/// One more task, which isn't there yet.
pub fn push(rows: &mut Vec<Row>, alloc: Global)
    requires { length rows.old.items < vec_capacity rows.old }
    ensures rows { rows.new.items ≡ rows.old.items ++ blank ∷ [] }
    ensures capacity { vec_capacity rows.new ≡ vec_capacity rows.old }
{
    rows.push_reserved(Row::new(alloc));
}

/// The root, which is from the beginning.
pub fn root_rows(alloc: Global) -> Result<Vec<Row>, AllocError>
    ensures rows { IfOk result (λ rows. rows.items ≡ record blank { kin = Some fresh } ∷ []) }
    ensures room { IfOk result (λ rows. 1 ≤ vec_capacity rows) }
{
    let mut rows = Vec::with_capacity(alloc, 1)?;
    let mut row = Row::new(alloc);
    row.appear();
    rows.push_reserved(row);
    Ok(rows)
}

/// Whether the task is over, where it is.
#[tactic(auto, using(crate::proofs::RowLemmas::shown))]
pub fn is_over(rows: &Vec<Row>, at: usize) -> Option<bool>
    requires { at < length rows.now.items }
    ensures { result ≡ option_map (λ (k : Kin). k.over) (slot_at rows.now.items at).kin }
{
    rows[at].is_over()
}

/// The ordinal of the task's last child, where it is.
#[tactic(auto, using(crate::proofs::RowLemmas::shown))]
pub fn children(rows: &Vec<Row>, at: usize) -> Option<u32>
    requires { at < length rows.now.items }
    ensures { result ≡ option_map (λ (k : Kin). k.children) (slot_at rows.now.items at).kin }
{
    let row = &rows[at];
    row.stands().then_some(row.children())
}

/// What the ordinal of its last child was at the beginning of the innermost open group.
#[tactic(auto, using(crate::proofs::RowLemmas::shown))]
pub fn innermost(rows: &Vec<Row>, at: usize) -> Option<u32>
    requires { at < length rows.now.items }
    ensures { result ≡ first_of (groups_of (slot_at rows.now.items at).kin) }
{
    rows[at].innermost()
}

/// Whether the task is there, and nothing is stored of it yet.
#[tactic(auto, using(crate::proofs::RowLemmas::shown))]
pub fn is_fresh(rows: &Vec<Row>, at: usize) -> bool
    requires { at < length rows.now.items }
    ensures { result ≡ is_fresh (slot_at rows.now.items at).kin }
{
    rows[at].is_fresh()
}

/// What the ordinal of its last child was at the beginning of each open group, the outermost first.
#[tactic(auto, using(crate::proofs::RowLemmas::shown))]
pub fn groups(rows: &Vec<Row>, at: usize) -> &[u32]
    requires { at < length rows.now.items }
    ensures { result.now ≡ reverse (groups_of (slot_at rows.now.items at).kin) }
{
    rows[at].groups()
}
