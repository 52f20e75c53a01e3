//! Whether a row may be put into a table.

ghost use Rattle.std.specs.Prelude.{◌≡◌, ◌<◌, [], length, IsTrue};
ghost use Rattle.std.specs.BTreeMap.{values};
ghost use Rattle.aria_value.specs.Defined.{is_definition};
ghost use Rattle.aria_value.specs.Order.{key_columns};
ghost use Rattle.aria_model.specs.declared.refusal.Refusal.TheVariants.{Duplicate};
ghost use Rattle.aria_model.specs.Step.{bad_column, first_key_name, row_refusal};
ghost use Rattle.aria_memory.specs.Keyed.{values_in, are_keyed};
ghost use Rattle.aria_memory.specs.Stopping.{refusal_of};

use crate::limits::holds_values;
use crate::row_key::RowKey;
use aria_model::Refusal;
use aria_page::Name;
use aria_value::{Column, Definition, Row, Value, is_too_long};
use std::collections::BTreeMap;

// The first column that may not hold its value or has none, and the last where values are left.
fn bad_column(columns: &[Column], keyed: &[u8], row: &[Value]) -> Option<Name>
    requires { 0 < length columns.now }
    ensures { result ≡ bad_column keyed.now 0 [] columns.now row.now }
{
    let mut last = columns[0].name;
    for (nth, column) in columns.iter().enumerate() {
        match row.get(nth) {
            None => return Some(column.name),
            Some(value) => {
                if !column.may_hold(nth, keyed, value) {
                    return Some(column.name);
                }
            }
        }
        last = column.name;
    }
    if row.len() > columns.len() {
        Some(last)
    } else {
        None
    }
}

/// The refusal of a row whose key is among the table's.
pub(crate) fn duplicate(definition: &Definition) -> Refusal
    requires { IsTrue (is_definition definition.now) }
    ensures { result ≡ Duplicate (first_key_name definition.now.keys) }
{
    Refusal::Duplicate {
        key: definition.keys.as_slice()[0].name,
    }
}

/// Refused where the row with this key may not be put beside the rows of the table.
pub(crate) fn check_row(
    definition: &Definition,
    rows: &BTreeMap<RowKey, Row>,
    key: &RowKey,
    row: &Row,
) -> Result<(), Refusal>
    requires defined { IsTrue (is_definition definition.now) }
    requires keyed { IsTrue (are_keyed definition.now rows.now.entries) }
    requires key { key.now ≡ values_in (key_columns definition.now.keys 0) row.now }
    ensures { refusal_of result ≡ row_refusal definition.now None 1 (values rows.now) row.now }
{
    let columns = definition.columns.as_slice();
    holds_values(bad_column(columns, definition.first_key_columns(), row.as_slice()))?;
    if is_too_long(row.as_slice()) {
        return Err(Refusal::RowTooLong);
    }
    if rows.contains_key(key) {
        return Err(duplicate(definition));
    }
    if rows.len() >= definition.max_rows as usize {
        return Err(Refusal::RowsFull);
    }
    Ok(())
}
