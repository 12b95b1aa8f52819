//! An item of a depend clause.

use crate::kind::Kind;
use crate::place::Place;

/// One item of a depend clause, with its address worked out.
#[derive(Clone, Copy, Debug, Drop, PartialEq, Eq)]
pub struct Item {
    pub kind: Kind,
    pub place: Place,
}
