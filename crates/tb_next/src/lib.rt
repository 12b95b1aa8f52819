//! What tasks do next by the program, which of them can step, and the work of a seat.
#![tactic(auto)]

mod claim;
mod coming;
mod ending;
mod finding;
mod floor;
mod native;
mod newest;
mod offer;
mod planning;
mod ready;
mod same_instr;
mod situated;
mod unevaluated;
mod work;

pub use claim::Claim;
pub use coming::Coming;
pub use ending::{end_core, end_program};
pub use finding::{barred, named_offer, taken_on};
pub use floor::Floor;
pub use native::foreign;
pub use newest::{newest_print, newest_store};
pub use offer::Offer;
pub use planning::{coming_of, strip_at};
pub use ready::{known_coming, least_behind, refusal_of};
pub use situated::Situated;
pub use unevaluated::{least_wanting, wanting};
pub use work::Work;
