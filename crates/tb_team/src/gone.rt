//! What a `go` did.

use crate::stop::Stop;
use tb_live::Live;

/// The run after a `go`, how many steps the workers took, and why no more.
#[derive(Drop)]
pub struct Gone {
    pub live: Live,
    pub count: u32,
    pub stop: Stop,
}
