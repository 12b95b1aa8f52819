//! What the tables are made of.

use crate::row::Row;
use crate::tables::Tables;

/// The patterns name every field: none is a program or an event, and none a copy of an earlier
/// state. They are compiled with the crate, so that a further field is refused until it is named
/// here.
fn name_every_field(tables: &Tables, row: &Row) {
    let Tables {
        alloc: _,
        store: _,
        waits: _,
        marks: _,
        rows: _,
        near: _,
        copies: _,
    } = tables;
    let Row {
        parent: _,
        near_parent: _,
        body: _,
        at: _,
        steps: _,
        regs: _,
        undeferred: _,
        children: _,
        holders: _,
    } = row;
}
