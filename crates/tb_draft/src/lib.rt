//! Texts that are still to be written. A long name in one is spelled only as it is written. Short texts, as most lines are,
//! are put together from their end.
#![tactic(auto)]

mod digit_levels;
mod digits;
mod draft;
mod passage;
mod races;
mod short_text;
mod spelling;
mod waiting;

pub use draft::Draft;
pub use short_text::ShortText;
