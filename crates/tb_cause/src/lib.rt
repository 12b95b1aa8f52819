//! Which steps need a step, and which it needs, directly or through others.
#![tactic(auto)]

mod answering;
mod asking;
mod cause_refusal;
mod causes;
mod cone;
mod counting;
mod finding;
mod giving;
mod indexed;
mod keys;
mod names;
mod nearest;
mod noting;
mod skipping;
mod taking;

pub use asking::{needed_by, needs, place_among};
pub use cause_refusal::CauseRefusal;
pub use cone::Cone;
pub use finding::{cone_in, cone_of};
pub use nearest::nearest_places;
