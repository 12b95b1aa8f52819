//! How a task relates to its siblings, as text.

ghost use Rattle.std.specs.Prelude.{◌≡◌, ◌<◌, ◌≤◌, ◌++◌, IfOk, OnOk, drop, length};
ghost use Rattle.tb_model.specs.Names.{child};
ghost use Rattle.tb_core.specs.Seen.{history};
ghost use Rattle.tb_view.specs.Listing.{joined};
ghost use Rattle.tb_view.specs.Relations.{line_where, relation_lines, lines_among, deps_text};

use crate::listing::headed;
use std::alloc::{AllocError, Global};
use tb_core::Core;
use tb_draft::Draft;
use tb_model::TaskName;

/// Appends the name with the word, where the relation holds, and returns how many lines that took.
fn append_where(
    text: &mut Draft,
    holds: bool,
    other: &TaskName,
    word: &str,
) -> Result<usize, AllocError>
    ensures text { OnOk result (text.new
        ≡ text.old ++ joined (line_where holds other.now word.now)) }
    ensures count { IfOk result (λ n. n ≡ length (line_where holds other.now word.now)) }
    ensures few { IfOk result (λ n. n ≤ 1) }
{
    if !holds {
        return Ok(0);
    }
    text.push_name(other)?;
    text.push_str(word)?;
    text.push('\n')?;
    Ok(1)
}

/// Appends whether the parent's nth child is before the task and whether the two exclude each
/// other, and returns how many lines that took.
fn append_relations(
    text: &mut Draft,
    core: &Core,
    task: &TaskName,
    parent: &TaskName,
    n: u32,
) -> Result<usize, AllocError>
    requires from_one { 0 < n }
    requires parent { parent.now ≡ drop 1 task.now }
    ensures text { OnOk result (text.new ≡ text.old
        ++ joined (relation_lines (history core.now.run) task.now (child parent.now n))) }
    ensures count { IfOk result
        (λ k. k ≡ length (relation_lines (history core.now.run) task.now (child parent.now n))) }
    ensures few { IfOk result (λ k. k ≤ 2) }
{
    let is_before = core.is_before(n, task);
    let is_apart = core.is_apart(n, task);
    if !is_before && !is_apart {
        return Ok(0);
    }
    let sibling = parent.child(n)?;
    let first = append_where(text, is_before, &sibling, " before")?;
    let second = append_where(text, is_apart, &sibling, " apart")?;
    Ok(first + second)
}

/// Appends the relations to the parent's children, and returns how many lines that took.
fn append_siblings(
    text: &mut Draft,
    core: &Core,
    task: &TaskName,
    parent: &TaskName,
) -> Result<usize, AllocError>
    requires parent { parent.now ≡ drop 1 task.now }
    ensures text { OnOk result (text.new ≡ text.old
        ++ joined (lines_among (history core.now.run) task.now (history core.now.run))) }
    ensures count { IfOk result
        (λ k. k ≡ length (lines_among (history core.now.run) task.now (history core.now.run))) }
{
    core.history_is_legal();
    let children = core.children(parent).unwrap_or(0);
    let mut count = 0;
    'children: for n in 0..children {
        count += append_relations(text, core, task, parent, n + 1)?;
    }
    Ok(count)
}

/// Appends the relations to the siblings of the task, and returns how many lines that took.
fn append_related(text: &mut Draft, core: &Core, task: &TaskName) -> Result<usize, AllocError>
    ensures text { OnOk result (text.new ≡ text.old
        ++ joined (lines_among (history core.now.run) task.now (history core.now.run))) }
    ensures count { IfOk result
        (λ k. k ≡ length (lines_among (history core.now.run) task.now (history core.now.run))) }
{
    core.history_is_legal();
    match task.parent()? {
        Some(parent) => append_siblings(text, core, task, &parent),
        None => Ok(0),
    }
}

/// The siblings that are before the task, and those that exclude it.
pub(crate) fn deps_text(alloc: Global, core: &Core, task: &TaskName) -> Result<Draft, AllocError>
    ensures { IfOk result (λ text. text ≡ deps_text (history core.now.run) task.now) }
{
    let mut text = Draft::new(alloc);
    let count = append_related(&mut text, core, task)?;
    headed(alloc, "deps", count, text)
}
