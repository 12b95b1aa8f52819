//! Where control goes in a text.

/// For each line, and for the end of the text, where control is that comes there from above; and
/// for each line where the innermost block that is open after it turns.
#[derive(Drop)]
pub struct Ways {
    pub arrivals: Vec<u32>,
    pub turns: Vec<u32>,
}
