//! A body of a program.

/// A body, by its name and the line that begins it.
#[derive(Debug, Drop)]
pub struct Body {
    pub name: String,
    pub line: u32,
}
