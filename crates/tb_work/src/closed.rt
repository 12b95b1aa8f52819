//! What a team leaves.

use crate::receipt::Receipt;
use tb_live::Live;

/// The run, and the receipts of all seats by their slots.
#[derive(Drop)]
pub struct Closed {
    pub live: Live,
    pub receipts: Vec<Receipt>,
}
