//! Evaluates one statement for one task.
#![tactic(auto)]

mod burst;
mod config;
mod evaluation;
mod instr;
mod planned;
mod private;
mod private_instr;
mod private_line;
mod strip;

pub use burst::plan_burst;
pub use config::Config;
pub use evaluation::{evaluate, line_behind, plan};
pub use instr::Instr;
pub use planned::Plan;
pub use private::Private;
pub use private_instr::private_of;
pub use private_line::PrivateLine;
pub use strip::Strip;
