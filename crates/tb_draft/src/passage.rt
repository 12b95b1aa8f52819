//! A piece of a draft.

use tb_model::TaskName;

/// A text, and the long name after it.
#[derive(Drop)]
pub(crate) struct Passage {
    pub text: String,
    pub name: TaskName,
}
