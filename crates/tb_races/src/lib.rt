//! Why one step needs another, which steps synchronisation orders, and which race: the definitions
//! and what they say in other words.
#![tactic(auto)]

mod cause;
mod conflict;
mod need_kind;
mod race;
pub mod readings;

pub use cause::Cause;
pub use conflict::Conflict;
pub use need_kind::NeedKind;
pub use race::Race;
