//! What the steps that are found have in common with those that are looked for, stored as keys.

ghost use Rattle.std.specs.Prelude.{◌≡◌, ◌&&◌, ◌||◌, ℕ, false, nat_eq, OnOk, IfOk};
ghost use Rattle.indexmap.specs.IndexSet.{contains};
ghost use Rattle.tb_model.specs.Names.{Name, same_name};
ghost use Rattle.tb_cause.specs.Keys.{Key, has, same_item_key};

use indexmap::IndexSet;
use std::alloc::{AllocError, Global};
use tb_model::TaskName;

/// Keys of steps: a step needs an earlier one where it asks for a key that the earlier one gives.
/// These are the keys that some found step gives, or those that some found step asks for.
#[derive(Drop)]
pub(crate) struct Keys {
    /// A step of the task, or its spawn.
    pub tasks: IndexSet<TaskName>,
    /// The end of the task.
    pub ended: IndexSet<TaskName>,
    /// The end of a child of the task.
    pub parents: IndexSet<TaskName>,
    /// The end of the task or of one below it.
    pub within: IndexSet<TaskName>,
    /// The end of a child of the task with an item: its kind and where it is, by code, and its
    /// cell.
    pub items: IndexSet<(TaskName, u32, u32)>,
    /// A store to the cell.
    pub stored: IndexSet<u32>,
    /// A load from the cell or a store to it.
    pub touched: IndexSet<u32>,
    /// A print.
    pub printed: bool,
}

impl Keys {
    /// No keys.
    pub fn new(alloc: Global) -> Keys
        ensures { (k : Key) → has result k ≡ false }
    {
        Keys {
            tasks: IndexSet::new(alloc),
            ended: IndexSet::new(alloc),
            parents: IndexSet::new(alloc),
            within: IndexSet::new(alloc),
            items: IndexSet::new(alloc),
            stored: IndexSet::new(alloc),
            touched: IndexSet::new(alloc),
            printed: false,
        }
    }
}

/// Puts the task into the set.
#[tactic(auto, using(crate::proofs::SetLemmas::put_in))]
pub(crate) fn put(set: &mut IndexSet<TaskName>, task: &TaskName) -> Result<(), AllocError>
    ensures { OnOk result ((q : Name) → contains same_name set.new q ≡ (same_name task.now q || contains same_name set.old q)) }
{
    set.insert(task.clone()?)?;
    Ok(())
}

/// Whether the task is in the set. Where it is the set's only one, no hash is taken, as in a rollback of
/// one task's steps.
pub(crate) fn has_task(set: &IndexSet<TaskName>, task: &TaskName) -> bool
    ensures { result ≡ contains same_name set.now task.now }
{
    if set.len() == 1 {
        if let Some(one) = set.get_index(0) {
            return *one == *task;
        }
    }
    set.contains(task)
}

/// Puts the cell into the set.
#[tactic(auto, using(crate::proofs::SetLemmas::put_in))]
pub(crate) fn put_cell(set: &mut IndexSet<u32>, cell: u32) -> Result<(), AllocError>
    ensures { OnOk result ((q : ℕ) → contains nat_eq set.new q ≡ (nat_eq cell q || contains nat_eq set.old q)) }
{
    set.insert(cell)?;
    Ok(())
}

/// Puts an item of a child of the task into the set.
#[tactic(auto, using(crate::proofs::SetLemmas::put_in))]
pub(crate) fn put_item(
    set: &mut IndexSet<(TaskName, u32, u32)>,
    parent: &TaskName,
    number: u32,
    cell: u32,
) -> Result<(), AllocError>
    ensures { OnOk result ((p : Name) (n c : ℕ) →
        contains same_item_key set.new (p, n, c)
        ≡ (((same_name parent.now p && nat_eq number n) && nat_eq cell c) || contains same_item_key set.old (p, n, c))) }
{
    set.insert((parent.clone()?, number, cell))?;
    Ok(())
}

/// Whether an item of a child of the task is in the set.
pub(crate) fn has_item(
    set: &IndexSet<(TaskName, u32, u32)>,
    parent: &TaskName,
    number: u32,
    cell: u32,
) -> Result<bool, AllocError>
    ensures { IfOk result (λ b. b ≡ contains same_item_key set.now (parent.now, number, cell)) }
{
    let key = (parent.clone()?, number, cell);
    Ok(set.contains(&key))
}
