//! What the tables say of a task, of the cells and of the output.

ghost use Rattle.std.specs.Prelude.{◌≡◌, ◌<◌, ◌≤◌, [], Some, None, IfSome, IsFalse, length, option_map, reverse, slice_get, if◌then◌else◌};
ghost use Rattle.std.specs.List.{IsDistinct, list_any};
ghost use Rattle.std.specs.Map.{keys_of};
ghost use Rattle.std.specs.Option.{option_copied};
ghost use Rattle.tb_model.specs.declared.action.Action.TheVariants.{Start};
ghost use Rattle.tb_model.specs.Names.{Name, same_name};
ghost use Rattle.tb_model.specs.LeastNames.{IsLeastName};
ghost use Rattle.tb_model.specs.Facts.{own, ends, last, before, apart, is_spawned, items_of};
ghost use Rattle.tb_model.specs.State.{called_by, open_groups, printed, spawn_of};
ghost use Rattle.tb_model.specs.Needs.{waits_for};
ghost use Rattle.tb_model.specs.Legal.{first_number, spawn_count};
ghost use Rattle.tb_model.specs.Lines.{events_of};
ghost use Rattle.tb_wait.specs.Kin.{place};
ghost use Rattle.tb_undo.specs.State.{AreLast, task_of, ForState, ForTasks, ForHistory};
ghost use Rattle.tb_undo.specs.Obstacles.{sibling};
ghost use Rattle.tb_undo.specs.Readings.{IsNthOf, IsNextChild, IsUnendedBehind};
ghost use Rattle.tb_undo.specs.Standings.{standing_of};

use crate::near::{get, standing};
use crate::row::Row;
use crate::standing::Standing;
use crate::tables::Tables;
use tb_model::{Item, TaskName};

impl Tables {
    /// The task's index among all that were ever generated, which it retains for good.
    #[inline(always)]
    pub fn place(&self, name: &TaskName) -> Option<usize>
        ensures { result ≡ place self.now.waits.tasks name.now }
    {
        self.waits.place(self.near, name)
    }

    /// The name of the task at this index, whether the task is there or not. An index fits in 32
    /// bits.
    #[inline(always)]
    pub fn name(&self, at: usize) -> Option<&TaskName>
        ensures name { option_copied result ≡ slice_get (keys_of self.now.waits.tasks) at }
        ensures distinct { IsDistinct same_name (keys_of self.now.waits.tasks) }
        ensures bound { length self.now.waits.tasks ≤ 4294967295 }
    {
        self.waits.name(at)
    }

    /// Whether the task was generated.
    pub fn is_there(&self, name: &TaskName) -> bool
        ensures { ForTasks self.now (λ root_line D. result ≡ is_spawned (events_of D) name.now) }
    {
        get(&self.rows, &self.waits, self.near, name).is_some()
    }

    /// Whether the task is over.
    #[inline(always)]
    pub fn has_ended(&self, name: &TaskName) -> bool
        ensures { ForHistory self.now (λ H. result ≡ list_any (ends name.now) H) }
    {
        self.waits.is_over(name).unwrap_or(false)
    }

    /// Whether the task is over. Its situation says where it is looked for first: mostly its name
    /// has the same index in both tables.
    #[inline(always)]
    pub fn has_ended_at(&self, standing: &Standing<'_>, name: &TaskName) -> bool
        ensures { ForHistory self.now (λ H. result ≡ list_any (ends name.now) H) }
    {
        self.waits
            .is_over_near(standing.row_place(), name)
            .unwrap_or(false)
    }

    /// The least unended task after this one, or the least of all where none is given. So the
    /// unended tasks can be listed in order, each found by a binary search.
    pub fn next_unended(&self, after: Option<&TaskName>) -> Option<&TaskName>
        ensures { ForTasks self.now (λ root_line D.
            IsLeastName (IsUnendedBehind (events_of D) (option_copied after.entry)) (option_copied result)) }
    {
        self.marks.next_marked(after)
    }

    /// The least unended task after this one, or of all, in a walk over them: `walk` is handed on,
    /// at first any, and `near` becomes where its row is looked for first.
    pub fn walk_unended(
        &self,
        walk: &mut usize,
        near: &mut Option<usize>,
        after: Option<&TaskName>,
    ) -> Option<&TaskName>
        ensures { ForTasks self.now (λ root_line D.
            IsLeastName (IsUnendedBehind (events_of D) (option_copied after.entry)) (option_copied result)) }
    {
        let found = self.marks.walk_marked(walk, after);
        // mostly a name has the same index in both tables
        *near = self.marks.index_in(*walk);
        found
    }

    /// Where the task is.
    #[inline(always)]
    pub fn standing(&self, name: &TaskName) -> Option<Standing<'_>>
        ensures { ForTasks self.now (λ root_line D. result ≡ option_map standing_of (task_of root_line D name.now)) }
    {
        standing(&self.rows, &self.waits, self.near, name)
    }

    /// Where the task is, in a walk over tasks: `near` hands on where the last one's row is, at
    /// first none.
    pub fn walk_standing(&self, near: &mut Option<usize>, name: &TaskName) -> Option<Standing<'_>>
        ensures { ForTasks self.now (λ root_line D. result ≡ option_map standing_of (task_of root_line D name.now)) }
    {
        let found = standing(&self.rows, &self.waits, near.unwrap_or(self.near), name);
        if let Some(standing) = &found {
            *near = Some(standing.row_place());
        }
        found
    }

    /// The line that begins the body of a task that was generated.
    pub fn body(&self, name: &TaskName) -> Option<u32>
        ensures { ForTasks self.now (λ root_line D.
            result ≡ (if is_spawned (events_of D) name.now then Some (called_by root_line (spawn_of name.now (events_of D))).line else None)) }
    {
        match get(&self.rows, &self.waits, self.near, name) {
            Some(row) => Some(row.body),
            None => None,
        }
    }

    /// How many children the task generated.
    pub fn children(&self, name: &TaskName) -> Option<u32>
        ensures { ForTasks self.now (λ root_line D.
            result ≡ (if is_spawned (events_of D) name.now then Some (spawn_count (own name.now (events_of D))) else None)) }
    {
        self.waits.children(name)
    }

    /// The least ordinal above `low` of a child of the task that hasn't ended. So its unended
    /// children can be listed in order, from 0 on. Takes no memory.
    pub fn next_child(&self, name: &TaskName, low: u32) -> Option<u32>
        ensures { ForTasks self.now (λ root_line D. IsNextChild (events_of D) name.now low result) }
    {
        self.waits.next_unended(name, low)
    }

    /// How many groups of the task are open.
    pub fn groups(&self, name: &TaskName) -> usize
        ensures { ForHistory self.now (λ H. result ≡ length (open_groups (own name.now H))) }
    {
        self.waits.groups(name).len()
    }

    /// The items of the task.
    pub fn items(&self, name: &TaskName) -> &[Item]
        ensures { ForHistory self.now (λ H. result.now ≡ items_of name.now H) }
    {
        match self.family(name) {
            Some((n, parent)) => parent.children.items(n as usize),
            None => &[],
        }
    }

    /// Whether the task depends on its sibling with this ordinal.
    pub fn is_before(&self, number: u32, name: &TaskName) -> bool
        ensures { ForHistory self.now (λ H. result ≡ before H (sibling name.now number) name.now) }
    {
        match self.family(name) {
            Some((n, parent)) => parent.children.is_before(number as usize, n as usize),
            None => false,
        }
    }

    /// Whether the task and its sibling with this ordinal exclude each other.
    pub fn is_apart(&self, number: u32, name: &TaskName) -> bool
        ensures { ForHistory self.now (λ H. result ≡ apart H (sibling name.now number) name.now) }
    {
        match self.family(name) {
            Some((n, parent)) => parent.children.is_apart(number as usize, n as usize),
            None => false,
        }
    }

    /// Whether a start may wait for the end of the task: some sibling may depend on it or exclude it.
    pub fn is_met(&self, name: &TaskName) -> bool
        ensures { ForHistory self.now (λ H. IsFalse result → (t : Name)
            → IsFalse (waits_for H t Start name.now)) }
    {
        match self.family(name) {
            Some((n, parent)) => parent.children.is_met(n as usize),
            None => false,
        }
    }

    /// The values of the cells, in order.
    pub fn cells(&self) -> &[i64]
        ensures { ForState self.now (λ first root_line D. AreLast first (events_of D) result.now) }
    {
        self.store.cells()
    }

    /// The printed values, in order.
    pub fn output(&self) -> &[i64]
        ensures { ForState self.now (λ first root_line D. result.now ≡ reverse (printed (events_of D))) }
    {
        self.store.output()
    }

    /// The value of a cell.
    pub fn get(&self, cell: u32) -> i64
        requires { cell < length self.now.store.cells }
        ensures { ForState self.now (λ first root_line D. result ≡ last (first_number first cell) cell (events_of D)) }
    {
        self.store.get(cell)
    }

    /// The task's ordinal among its parent's children, and the parent. The root has none.
    fn family(&self, name: &TaskName) -> Option<(u32, &Row)>
        ensures some { IfSome result (λ r. ForHistory self.now (λ H. IsNthOf H name.now r.0 r.1.now.children.siblings)) }
        ensures none { result ≡ None → ForHistory self.now (λ H. items_of name.now H ≡ []) }
    {
        let n = name.ordinal()?;
        let row = get(&self.rows, &self.waits, self.near, name)?;
        let parent = get(&self.rows, &self.waits, row.above(), &row.parent)?;
        Some((n, parent))
    }
}
