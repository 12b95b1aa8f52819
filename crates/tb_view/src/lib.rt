//! Texts of steps and of what a run shows, as a session writes them.
#![tactic(auto)]

mod action_text;
mod breaks;
mod counting;
mod hindrances;
mod listing;
mod named_tasks;
mod numbers;
mod reasons;
mod relations;
mod short_line;
mod showing;
mod states;
mod step_counts;
mod step_line;
mod step_text;
mod steps;
mod task_text;
mod tasks;
mod unended;
mod view;
mod view_refusal;
mod waits;

pub use showing::{draft, line, text};
pub use step_counts::StepCounts;
pub use step_line::append_line;
pub use step_text::write_step;
pub use steps::{append_newest, history_head};
pub use view::View;
pub use view_refusal::ViewRefusal;
