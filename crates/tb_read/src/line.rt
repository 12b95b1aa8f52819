//! What a line is to the flow of control.

use crate::parsed::Parsed;
use std::mem::size_of;

/// What a line of a text is to the flow of control.
#[derive(Debug, Drop)]
pub enum Line {
    /// Control passes over it.
    Passed,
    /// A task can be there.
    Stands(Parsed),
    Else,
    /// The end of an `if`, over which control passes.
    EndIf,
    /// The end of the `while` of that line.
    EndWhile(u32),
}

const _: () = prove!(size_of::<Line>() == 64);
