//! The last values of the cells, where only those are stored that were given one.

ghost use Rattle.std.specs.Prelude.{◌≡◌, OnOk};
ghost use Rattle.indexmap.specs.IndexMap.{spare};
ghost use Rattle.tb_verdict.specs.Values.{HasRoomFor, Stores, value_in};

use indexmap::IndexMap;
use std::alloc::AllocError;
use tb_model::Action;

/// By the index of the cell.
pub type Values = IndexMap<u32, i64>;

/// The value of a cell.
pub fn value_of(values: &Values, cell: u32) -> i64
    ensures { result ≡ value_in values.now.entries cell }
{
    match values.get(&cell) {
        Some(value) => *value,
        None => 0,
    }
}

/// Reserves the capacity for the value that the action stores, if it stores one.
pub fn reserve_value(values: &mut Values, action: &Action) -> Result<(), AllocError>
    ensures same { values.new.entries ≡ values.old.entries }
    ensures room { OnOk result (HasRoomFor action.now (spare values.new)) }
{
    match action {
        Action::Store { .. } => values.reserve(1),
        _ => Ok(()),
    }
}

/// Sets the value that the action stores, if it stores one, in the capacity that is there.
pub fn set_value(values: &mut Values, action: &Action)
    requires { HasRoomFor action.now (spare values.old) }
    ensures { Stores action.now values.old.entries values.new.entries }
{
    match action {
        Action::Store { cell, value } => {
            values.insert(*cell, *value).unwrap();
        }
        _ => {}
    }
}
