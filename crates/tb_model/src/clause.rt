//! An item of a depend clause as it is written.

use crate::address::Address;
use crate::kind::Kind;

/// One item of a depend clause, before its address is worked out.
#[derive(Clone, Copy, Debug, Drop, PartialEq, Eq)]
pub struct Clause {
    pub kind: Kind,
    pub address: Address,
}
