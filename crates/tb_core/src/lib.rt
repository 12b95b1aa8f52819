//! The history of a run: every step, and the undo of any step that nothing needs.
#![tactic(auto)]

mod answers;
mod elsewhere;
mod entry;
mod filling;
mod groups;
mod history;
mod needing;
mod numbers;
mod places;
mod removed;
mod renumbering;
mod rollback;
mod run;
mod scans;
mod step_refusal;
mod undo_refusal;
mod unwinding;

pub use elsewhere::Elsewhere;
pub use entry::Entry;
pub use history::History;
pub use needing::{first_needer, is_apart, is_before, is_covered, needs};
pub use places::{ordinal_of, place_in, place_of, step_among, step_at};
pub use removed::Removed;
pub use rollback::Rollback;
pub use run::Core;
pub use scans::{holds, is_member};
pub use step_refusal::StepRefusal;
pub use undo_refusal::UndoRefusal;
