//! The cells of a program and what was printed, with what each change replaces.
#![tactic(auto)]

pub mod laws;
mod replaced;
mod store;

pub use replaced::Replaced;
pub use store::Store;
