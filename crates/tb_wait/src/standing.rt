//! A task that comes to be, or is no longer there, in its row and in the tree.

ghost use Rattle.std.specs.Prelude.{◌≡◌, ◌<◌, ◌-◌, Some, None, true, false, length, vec_capacity};
ghost use Rattle.tb_wait.specs.Kin.{fresh};
ghost use Rattle.tb_wait.specs.Rows.{slot_at, SetsStanding};
ghost use Rattle.tb_wait.specs.Tree.{node, SetsPending};

use crate::row::Row;
use crate::rows;
use crate::tree::Tree;

/// The task comes to be.
pub fn enter(rows: &mut Vec<Row>, tree: &mut Tree, at: usize)
    requires len { length rows.old.items ≡ length tree.old.nodes }
    requires below { 0 < at }
    requires within { at < length tree.old.nodes }
    requires absent { (slot_at rows.old.items at).kin ≡ None }
    ensures rows { let n = node tree.old.nodes at in SetsStanding rows.old.items at n.owner (Some fresh) n.number rows.new.items }
    ensures set { SetsPending tree.old.nodes at true tree.new.nodes }
    ensures rows_capacity { vec_capacity rows.new ≡ vec_capacity rows.old }
    ensures room { tree.new.room ≡ tree.old.room }
{
    let (owner, number) = (tree.owner(at), tree.number(at));
    rows::enter(rows, at, owner, number);
    tree.set_pending(at, true);
}

/// The task, of which nothing is retained yet, is no longer there.
pub fn leave(rows: &mut Vec<Row>, tree: &mut Tree, at: usize)
    requires len { length rows.old.items ≡ length tree.old.nodes }
    requires below { 0 < at }
    requires within { at < length tree.old.nodes }
    requires fresh { (slot_at rows.old.items at).kin ≡ Some fresh }
    ensures rows { let n = node tree.old.nodes at in SetsStanding rows.old.items at n.owner None (n.number - 1) rows.new.items }
    ensures set { SetsPending tree.old.nodes at false tree.new.nodes }
    ensures rows_capacity { vec_capacity rows.new ≡ vec_capacity rows.old }
    ensures room { tree.new.room ≡ tree.old.room }
{
    let (owner, number) = (tree.owner(at), tree.number(at));
    rows::leave(rows, at, owner, number);
    tree.set_pending(at, false);
}
