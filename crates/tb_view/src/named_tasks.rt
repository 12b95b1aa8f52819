//! Tasks with their bodies, in the order of names.

ghost use Rattle.std.specs.Prelude.{◌≡◌, ◌-◌, ◌++◌, ◌∷◌, [], ℕ, IfOk, OnOk, IsTrue, Some, length, reverse, slice_get};
ghost use Rattle.std.specs.BTreeMap.{insert_entry};
ghost use Rattle.std.specs.declared.cmp.Ordering.TheVariants.{Less};
ghost use Rattle.tb_model.specs.Names.{name_cmp};
ghost use Rattle.tb_core.specs.Listed.{Rises};
ghost use Rattle.tb_view.specs.Tasks.{Named, names_of, Precede};

use std::alloc::{AllocError, Global};
use std::collections::BTreeMap;
use std::marker::Model;
use std::mem::replace;
use tb_model::TaskName;

/// How many tasks may pass the gap for each that is added, on the average.
const MOVES: usize = 8;

/// Tasks by their names, each with the line that begins its body. They are in a row with a gap
/// where the next one goes: mostly a task is generated close to those before it, so that few have
/// to pass the gap. Where too many would have to, all go into a map.
#[derive(Drop)]
pub(crate) struct NamedTasks {
    alloc: Global,
    map: BTreeMap<TaskName, u32>,
    // the tasks after all in the map, up to the gap
    front: Vec<(TaskName, u32)>,
    // the tasks after the gap, the first of them last
    back: Vec<(TaskName, u32)>,
    // so many may still pass the gap
    moves: usize,
}

impl Model for NamedTasks {
    ghost use Rattle.std.specs.Prelude.{List, ◌++◌, reverse};
    ghost use Rattle.tb_core.specs.Listed.{Rises};
    ghost use Rattle.tb_view.specs.Tasks.{Named, names_of};

    ghost Value = { List Named };

    ghost view = { λ t. t.map.entries ++ t.front.items ++ reverse t.back.items };

    ghost invariant = { λ t. Rises (names_of (t.map.entries ++ t.front.items ++ reverse t.back.items)) };
}

impl NamedTasks {
    /// No tasks.
    pub(crate) fn new(alloc: Global) -> NamedTasks
        ensures { result ≡ [] }
    {
        NamedTasks {
            alloc,
            map: BTreeMap::new(alloc),
            front: Vec::new(alloc),
            back: Vec::new(alloc),
            moves: 0,
        }
    }

    /// Adds a task.
    pub(crate) fn insert(&mut self, name: TaskName, body: u32) -> Result<(), AllocError>
        ensures { OnOk result (self.new ≡ insert_entry name_cmp self.old name body) }
    {
        self.moves = self.moves.saturating_add(MOVES);
        if goes_between(&self.map, &self.front, &self.back, &name) {
            self.front.push((name, body))?;
            return Ok(());
        }
        self.moves = turn_to(&mut self.front, &mut self.back, &name, self.moves)?;
        if goes_between(&self.map, &self.front, &self.back, &name) {
            self.front.push((name, body))?;
            return Ok(());
        }
        close(&mut self.front, &mut self.back)?;
        let row = replace(&mut self.front, Vec::new(self.alloc));
        put_all(&mut self.map, row.as_slice())?;
        self.map.insert(name, body)?;
        Ok(())
    }

    /// All tasks in the order of their names, each with the line that begins its body.
    pub(crate) fn into_vec(self) -> Result<Vec<(TaskName, u32)>, AllocError>
        ensures { IfOk result (λ tasks. tasks.items ≡ self) }
    {
        let mut front = self.front;
        let mut back = self.back;
        close(&mut front, &mut back)?;
        let mut tasks: Vec<(TaskName, u32)> = self.map.into_iter().collect(self.alloc)?;
        tasks.append(&mut front)?;
        Ok(tasks)
    }
}

/// Moves the gap towards where the name goes, past so many tasks at most. Returns how many may still pass it.
fn turn_to(
    front: &mut Vec<(TaskName, u32)>,
    back: &mut Vec<(TaskName, u32)>,
    name: &TaskName,
    moves: usize,
) -> Result<usize, AllocError>
    ensures { front.new.items ++ reverse back.new.items ≡ front.old.items ++ reverse back.old.items }
{
    let mut left = moves;
    'back: while left > 0 && is_before_last(front, name) {
        pass(front, back)?;
        left -= 1;
    }
    // then it comes before those that passed
    if left < moves {
        return Ok(left);
    }
    'on: while left > 0 && is_after_last(back, name) {
        pass(back, front)?;
        left -= 1;
    }
    Ok(left)
}

/// Whether the name comes before the last of these.
#[inline(always)]
fn is_before_last(tasks: &Vec<(TaskName, u32)>, name: &TaskName) -> bool {
    match tasks.last() {
        Some((last, _)) => name.cmp(last).is_lt(),
        None => false,
    }
}

/// Whether the name comes after the last of these.
#[inline(always)]
fn is_after_last(tasks: &Vec<(TaskName, u32)>, name: &TaskName) -> bool {
    match tasks.last() {
        Some((last, _)) => last.cmp(name).is_lt(),
        None => false,
    }
}

/// The task on one side of the gap passes it.
#[inline(always)]
fn pass(from: &mut Vec<(TaskName, u32)>, to: &mut Vec<(TaskName, u32)>) -> Result<(), AllocError>
    ensures { from.new.items ++ reverse to.new.items ≡ from.old.items ++ reverse to.old.items }
{
    to.reserve(1)?;
    if let Some(task) = from.pop() {
        to.push_reserved(task);
    }
    Ok(())
}

/// Whether the name goes where the gap is.
fn goes_between(
    map: &BTreeMap<TaskName, u32>,
    front: &Vec<(TaskName, u32)>,
    back: &Vec<(TaskName, u32)>,
    name: &TaskName,
) -> bool
    requires { Rises (names_of (map.now.entries ++ front.now.items ++ reverse back.now.items)) }
    ensures { IsTrue result → (v : ℕ) → insert_entry name_cmp (map.now.entries ++ front.now.items ++ reverse back.now.items) name.now v
        ≡ map.now.entries ++ (front.now.items ++ (name.now, v) ∷ []) ++ reverse back.now.items }
{
    comes_last(map, front, name) && comes_before(back, name)
}

/// Whether the name comes before the last of these, if there is one.
fn comes_before(row: &Vec<(TaskName, u32)>, name: &TaskName) -> bool
    ensures { IsTrue result → (x : Named) → slice_get row.now.items (length row.now.items - 1) ≡ Some x → name_cmp name.now x.0 ≡ Less }
{
    match row.last() {
        Some((last, _)) => name.cmp(last).is_lt(),
        None => true,
    }
}

/// Whether the name comes after all of these.
fn comes_last(map: &BTreeMap<TaskName, u32>, row: &Vec<(TaskName, u32)>, name: &TaskName) -> bool
    requires { Rises (names_of (map.now.entries ++ row.now.items)) }
    ensures { IsTrue result → Precede name.now (names_of (map.now.entries ++ row.now.items)) }
{
    if let Some((last, _)) = row.last() {
        return last.cmp(name).is_lt();
    }
    match map.last_key_value() {
        Some((last, _)) => last.cmp(name).is_lt(),
        None => true,
    }
}

/// All tasks pass the gap that are after it.
fn close(
    front: &mut Vec<(TaskName, u32)>,
    back: &mut Vec<(TaskName, u32)>,
) -> Result<(), AllocError>
    ensures all { front.new.items ++ reverse back.new.items ≡ front.old.items ++ reverse back.old.items }
    ensures none { OnOk result (back.new.items ≡ []) }
{
    front.reserve(back.len())?;
    'back: while let Some(task) = back.pop() {
        front.push_reserved(task);
    }
    Ok(())
}

/// Puts tasks into a map that come after all in it.
fn put_all(map: &mut BTreeMap<TaskName, u32>, row: &[(TaskName, u32)]) -> Result<(), AllocError>
    requires { Rises (names_of (map.old.entries ++ row.now)) }
    ensures put { OnOk result (map.new.entries ≡ map.old.entries ++ row.now) }
    ensures rises { Rises (names_of map.new.entries) }
{
    'tasks: for (name, body) in row {
        map.insert(name.clone()?, *body)?;
    }
    Ok(())
}
