//! What a run has besides its journal: the seats' claims, the breakpoints, and whether steps are
//! executed.
#![tactic(auto)]

mod break_refusal;
mod breakpoint;
mod breakpoints;
mod breaks;
mod claim_refusal;
mod claims;
mod control;
mod mode;
mod paused_by;

pub use break_refusal::BreakRefusal;
pub use breakpoint::Breakpoint;
pub use breakpoints::Breakpoints;
pub use breaks::Break;
pub use claim_refusal::ClaimRefusal;
pub use claims::Claims;
pub use control::Control;
pub use mode::Mode;
pub use paused_by::PausedBy;
