//! The definitions of a history, run as they are: slow and plain, to compare faster programs with.
//! A history is a slice of events from the newest to the oldest, as the definitions list it, and so
//! are the actions of a task.
#![tactic(auto)]

mod facts;
mod legality;
mod names;
mod needing;
mod own_actions;
mod own_rules;
mod records;
mod state;
mod status;

pub use facts::{
    apart, before, covers, has_ended, has_started, is_spawned, items_of, last, newest_first, own,
};
pub use legality::{is_legal, may_follow};
pub use names::Names;
pub use needing::{is_removed, is_step, needs, removed, without};
pub use own_actions::{
    children_since, groups, holds, is_member, is_member_of, open_groups, spawn_count,
};
pub use records::{first_number, register, register_of, replaced_by};
pub use state::{
    is_unended, is_unended_child, is_unended_covered, is_unended_member, is_unended_member_of,
    is_unended_undeferred, printed, spawn_of, status_of,
};
pub use status::Status;
