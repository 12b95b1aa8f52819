//! What blocks a task's action.

use tb_model::TaskName;

/// What blocks a task's action: one of its children or siblings, by its ordinal among them, or a
/// member of the group that it would close.
#[derive(Clone, Copy)]
pub enum Obstacle<'a> {
    Undeferred { child: u32 },
    Waiting { sibling: u32 },
    Excluded { sibling: u32 },
    Children { child: u32 },
    Group { member: &'a TaskName },
}
