//! What a step replaces.

/// What one step replaced: at most one value, of a cell or of a register, and the line at which its
/// task was. With it the step can be taken back without running anything again.
#[derive(Clone, Copy, Debug, Drop, PartialEq, Eq)]
pub struct Replaced {
    /// The number of the cell or register that the step wrote.
    pub number: Option<i64>,
    /// The register that the step wrote, 0 to 15. A step that wrote a cell names none.
    pub reg: Option<u8>,
    /// The line at which the task was.
    pub at: u32,
}
