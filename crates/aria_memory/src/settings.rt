//! What an update makes of a row.

ghost use Rattle.std.specs.Prelude.{◌≡◌, IfOk, map, None, replicate, slice_get};
ghost use Rattle.std.specs.List.{list_any, position};
ghost use Rattle.std.specs.Option.{option_map, unwrap_or};
ghost use Rattle.aria_value.specs.Defined.{same_name};
ghost use Rattle.aria_model.specs.Step.{unknown_column, may_set, bad_setting};
ghost use Rattle.aria_memory.specs.LastSet.{AreLastSet, with_set};
ghost use Rattle.aria_memory.specs.Stopping.{refusal_of};

use aria_model::{Refusal, Setting};
use aria_page::{List, Name};
use aria_value::{Column, Definition, Row, Value};
use std::alloc::{AllocError, Global};

// The number of the column of a name.
fn column_number(columns: &[Column], name: Name) -> Option<usize>
    ensures { result ≡ position (λ c. same_name c.name name) columns.now }
{
    columns.iter().position(|column| column.name == name)
}

fn has_column(columns: &[Column], name: Name) -> bool
    ensures { result ≡ list_any (λ c. same_name c.name name) columns.now }
{
    columns.iter().any(|column| column.name == name)
}

/// Refused where a column is set that the table hasn't.
pub(crate) fn has_columns(columns: &[Column], settings: &[Setting]) -> Result<(), Refusal>
    ensures { refusal_of result ≡ unknown_column columns.now settings.now }
{
    for setting in settings {
        let name = setting.column;
        if !has_column(columns, name) {
            return Err(Refusal::NoColumn { name });
        }
    }
    Ok(())
}

// Whether the column of the name, if there is one, may hold the value.
fn may_set(columns: &[Column], keyed: &[u8], name: Name, value: &Value) -> bool
    ensures { result ≡ may_set keyed.now 0 columns.now name value.now }
{
    for (nth, column) in columns.iter().enumerate() {
        if column.name == name {
            return column.may_hold(nth, keyed, value);
        }
    }
    true
}

/// The first column set that may not hold its value.
pub(crate) fn bad_setting(definition: &Definition, settings: &[Setting]) -> Option<Name>
    ensures { result ≡ bad_setting definition.now settings.now }
{
    let columns = definition.columns.as_slice();
    let keyed = definition.first_key_columns();
    for setting in settings {
        if !may_set(columns, keyed, setting.column, &setting.value) {
            return Some(setting.column);
        }
    }
    None
}

// Room for what so many columns are set to, with none set.
fn none_set<'a>(alloc: Global, columns: usize) -> Result<Vec<Option<&'a Value>>, AllocError>
    ensures { IfOk result (λ sets. sets.items ≡ replicate columns None) }
{
    let mut sets = Vec::with_capacity(alloc, columns)?;
    for _nth in 0..columns {
        sets.push(None)?;
    }
    Ok(sets)
}

/// For each column the value that it is set to last, if it is set.
pub(crate) fn last_set<'a>(
    alloc: Global,
    columns: &[Column],
    settings: &'a [Setting],
) -> Result<Vec<Option<&'a Value>>, AllocError>
    ensures { IfOk result (λ sets. AreLastSet columns.now settings.now (map (option_map (λ v. v.now)) sets.items)) }
{
    let mut sets = none_set(alloc, columns.len())?;
    for setting in settings {
        match column_number(columns, setting.column) {
            None => {}
            Some(nth) => sets[nth] = Some(&setting.value),
        }
    }
    Ok(sets)
}

// What a column is set to, or else its old value.
fn value_set<'a>(sets: &[Option<&'a Value>], nth: usize, old: &'a Value) -> &'a Value
    ensures { result.now ≡ unwrap_or (unwrap_or (slice_get (map (option_map (λ v. v.now)) sets.now) nth) None) old.now }
{
    match sets.get(nth) {
        Some(Some(value)) => value,
        _ => old,
    }
}

/// A copy of a row with what its columns are set to.
pub(crate) fn set_row(
    alloc: Global,
    sets: &[Option<&Value>],
    row: &[Value],
) -> Result<Row, AllocError>
    ensures { IfOk result (λ set. set ≡ with_set (map (option_map (λ v. v.now)) sets.now) row.now) }
{
    let mut values = Vec::with_capacity(alloc, row.len())?;
    for (nth, old) in row.iter().enumerate() {
        values.push(value_set(sets, nth, old).copy(alloc)?)?;
    }
    Ok(List::from_vec(values))
}
