//! Which rows a definition has.

ghost use Rattle.std.specs.Prelude.{◌≡◌, ◌+◌, ◌<◌, nat_lt, MatchOption};
ghost use Rattle.aria_value.specs.declared.row.TheConstants.{MAX_ROW_BYTES};
ghost use Rattle.aria_value.specs.Stored.{value_length, row_length};
ghost use Rattle.aria_value.specs.Rows.{may_hold_all, is_row};

use crate::definition::{Column, Definition};
use crate::value::Value;
use aria_page::List;

/// The longest stored row, in bytes (docs/LANGUAGE.md, "Limits").
pub const MAX_ROW_BYTES: u32 = 65_536;

/// A row: a value for each column, in the columns' order.
pub type Row = List<Value>;

#[tactic(auto, using(crate::proofs::RowChecks::holds_none))]
fn may_hold_all(keyed: &[u8], columns: &[Column], row: &[Value]) -> bool
    ensures { result ≡ may_hold_all keyed.now 0 columns.now row.now }
{
    if columns.len() != row.len() {
        return false;
    }
    for (nth, column) in columns.iter().enumerate() {
        if !column.may_hold(nth, keyed, &row[nth]) {
            return false;
        }
    }
    true
}

// What is left of so many bytes behind a stored value, if it fits them.
fn room_behind(room: usize, value: &Value) -> Option<usize>
    ensures { MatchOption result (room < value_length value.now) (λ left. left + value_length value.now ≡ room) }
{
    match value {
        Value::Null => room.checked_sub(1),
        Value::Int(_) => room.checked_sub(9),
        Value::Text(bytes) => room.checked_sub(5)?.checked_sub(bytes.len()),
    }
}

/// Whether a row is longer, as it is stored, than a table may hold.
pub fn is_too_long(row: &[Value]) -> bool
    ensures { result ≡ nat_lt MAX_ROW_BYTES (row_length row.now) }
{
    let mut room = MAX_ROW_BYTES as usize;
    for value in row {
        match room_behind(room, value) {
            None => return true,
            Some(left) => room = left,
        }
    }
    false
}

/// Whether the values are a row of the definition.
pub(crate) fn is_row(definition: &Definition, row: &[Value]) -> bool
    ensures { result ≡ is_row definition.now row.now }
{
    may_hold_all(
        definition.first_key_columns(),
        definition.columns.as_slice(),
        row,
    ) && !is_too_long(row)
}
