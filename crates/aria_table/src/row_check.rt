//! Whether a row may stand in a table by itself.

ghost use Rattle.std.specs.Prelude.{◌≡◌, ◌<◌, [], length, nat_lt, None, IsTrue};
ghost use Rattle.aria_value.specs.Defined.{IsDefinition};
ghost use Rattle.aria_model.specs.declared.refusal.Refusal.TheVariants.{RowTooLong};
ghost use Rattle.aria_model.specs.Step.{bad_column, refused_where};
ghost use Rattle.aria_value.specs.Rows.{is_row};
ghost use Rattle.aria_value.specs.Stored.{row_length};
ghost use Rattle.aria_table.specs.Refusing.{unfit};

use aria_model::Refusal;
use aria_page::Name;
use aria_value::{Column, Definition, Row, Value, is_too_long};

// The first column that may not hold its value or has none, and the last where values are left.
fn bad_column(columns: &[Column], keyed: &[u8], row: &[Value]) -> Option<Name>
    requires { 0 < length columns.now }
    ensures { result ≡ bad_column keyed.now 0 [] columns.now row.now }
{
    let mut last = columns[0].name;
    for (nth, column) in columns.iter().enumerate() {
        match row.get(nth) {
            None => return Some(column.name),
            Some(value) => {
                if !column.may_hold(nth, keyed, value) {
                    return Some(column.name);
                }
            }
        }
        last = column.name;
    }
    if row.len() > columns.len() {
        Some(last)
    } else {
        None
    }
}

// Whether the row is too long as it is stored.
fn too_long(row: &[Value]) -> Option<Refusal>
    ensures { result ≡ refused_where (nat_lt 65536 (row_length row.now)) RowTooLong }
{
    if is_too_long(row) {
        return Some(Refusal::RowTooLong);
    }
    None
}

// The refusal of a row by its values, and then by its length.
fn unfit_of(definition: &Definition, row: &[Value]) -> Option<Refusal>
    requires { IsDefinition definition.now }
    ensures { result ≡ unfit definition.now row.now }
{
    let columns = definition.columns.as_slice();
    match bad_column(columns, definition.first_key_columns(), row) {
        Some(column) => Some(Refusal::BadValue { column }),
        None => too_long(row),
    }
}

/// The refusal of a row, whatever other rows there are.
#[tactic(auto, using(crate::proofs::Fitting::is_fit))]
pub(crate) fn unfit(definition: &Definition, row: &Row) -> Option<Refusal>
    requires { IsDefinition definition.now }
    ensures refusal { result ≡ unfit definition.now row.now }
    ensures fits { result ≡ None → IsTrue (is_row definition.now row.now) }
{
    unfit_of(definition, row.as_slice())
}
