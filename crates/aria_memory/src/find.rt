//! The rows that a statement concerns: those that have its values first in a key's columns.

ghost use Rattle.std.specs.Prelude.{◌≡◌, ◌<◌, [], map, length, IfOk, IfErr, IsTrue, Some, None};
ghost use Rattle.std.specs.List.{filter};
ghost use Rattle.std.specs.BTreeMap.{IsOrdered, values};
ghost use Rattle.std.specs.Ordering.{is_eq};
ghost use Rattle.aria_value.specs.Defined.{is_definition};
ghost use Rattle.aria_value.specs.Order.{value_cmp, value_at, columns_cmp, key_columns, order_columns, sorted, has_values};
ghost use Rattle.aria_model.specs.declared.refusal.Refusal.TheVariants.{NoKey};
ghost use Rattle.aria_model.specs.Step.{key_number, bad_sought, concerned};
ghost use Rattle.aria_memory.specs.Keyed.{values_cmp, values_in, are_keyed, are_columns_of};
ghost use Rattle.aria_memory.specs.Seeking.{seek_refusal};

use crate::limits::holds_values;
use crate::row_key::RowKey;
use aria_model::Refusal;
use aria_page::{List, Name};
use aria_value::{Column, Definition, Row, Value};
use std::alloc::{AllocError, Global};
use std::collections::BTreeMap;

/// The first of a key's columns in which a value may not be sought, and the last one where values are left.
pub(crate) fn bad_sought(columns: &[Column], key: &[u8], values: &[Value]) -> Option<Name>
    requires some { 0 < length key.now }
    requires within { IsTrue (are_columns_of columns.now key.now) }
    ensures { result ≡ bad_sought columns.now [] key.now values.now }
{
    let mut last = columns[key[0] as usize].name;
    for (nth, value) in values.iter().enumerate() {
        match key.get(nth) {
            None => return Some(last),
            Some(number) => {
                let column = columns[*number as usize];
                if !column.kind.is_type_of(value) {
                    return Some(column.name);
                }
                last = column.name;
            }
        }
    }
    None
}

/// The number of the key of this name, counted from 0.
pub(crate) fn named_key(definition: &Definition, name: Name) -> Result<usize, Refusal>
    ensures none { IfErr result (λ why. (why ≡ NoKey name) × (key_number definition.now.keys name ≡ None)) }
    ensures found { IfOk result (λ number. key_number definition.now.keys name ≡ Some number) }
{
    match definition.key_number(&name) {
        Some(number) => Ok(number),
        None => Err(Refusal::NoKey { name }),
    }
}

/// The number of the key of this name, by which the values may be sought.
pub(crate) fn seek(definition: &Definition, key: Name, values: &[Value]) -> Result<usize, Refusal>
    requires { IsTrue (is_definition definition.now) }
    ensures refused { IfErr result (λ why. seek_refusal definition.now key values.now ≡ Some why) }
    ensures found { IfOk result (λ number. key_number definition.now.keys key ≡ Some number) }
    ensures sought { IfOk result (λ _. seek_refusal definition.now key values.now ≡ None) }
{
    let number = named_key(definition, key)?;
    holds_values(bad_sought(
        definition.columns.as_slice(),
        definition.key_columns(number),
        values,
    ))?;
    Ok(number)
}

// Whether a row has the value in a column.
fn has_value(row: &[Value], column: u8, value: &Value) -> bool
    ensures { result ≡ is_eq (value_cmp (value_at row.now column) value.now) }
{
    match row.get(column as usize) {
        Some(found) => *found == *value,
        None => Value::Null == *value,
    }
}

/// Whether a row has the values first in these columns.
pub(crate) fn has_values(columns: &[u8], values: &[Value], row: &[Value]) -> bool
    ensures { result ≡ has_values columns.now values.now row.now }
{
    for (nth, value) in values.iter().enumerate() {
        match columns.get(nth) {
            None => return false,
            Some(column) => {
                if !has_value(row, *column, value) {
                    return false;
                }
            }
        }
    }
    true
}

// The columns by which a key orders rows: its own, and then those of the first key.
fn order_columns(
    alloc: Global,
    definition: &Definition,
    number: usize,
) -> Result<List<u8>, AllocError>
    ensures { IfOk result (λ columns. columns ≡ order_columns definition.now number) }
{
    let mut columns = List::from_slice(alloc, definition.key_columns(number))?;
    if number > 0 {
        columns.extend_from_slice(definition.first_key_columns())?;
    }
    Ok(columns)
}

// The rows that have the values first in the first key's columns. They stand together, right behind those below the
// values.
fn find_by_first<'a>(
    alloc: Global,
    definition: &Definition,
    rows: &'a BTreeMap<RowKey, Row>,
    sought: &[Value],
) -> Result<Vec<&'a Row>, AllocError>
    requires { IsTrue (are_keyed definition.now rows.now.entries) }
    ensures found { IfOk result (λ found. map (λ r. r.now) found.items ≡ concerned definition.now 0 sought.now (values rows.now)) }
    ensures ordered { IfOk result (λ _. IsOrdered values_cmp rows.now) }
{
    let columns = definition.first_key_columns();
    let least = RowKey::from_slice(alloc, sought)?;
    let mut found = Vec::new(alloc);
    for (_, row) in rows.range(&least..) {
        if !has_values(columns, sought, row.as_slice()) {
            return Ok(found);
        }
        found.push(row)?;
    }
    Ok(found)
}

// The rows that have the values first in these columns, in the rows' order.
fn find_among<'a>(
    alloc: Global,
    columns: &[u8],
    rows: &'a BTreeMap<RowKey, Row>,
    sought: &[Value],
) -> Result<Vec<&'a Row>, AllocError>
    ensures found { IfOk result (λ found. map (λ r. r.now) found.items ≡ filter (has_values columns.now sought.now) (values rows.now)) }
    ensures ordered { IfOk result (λ _. IsOrdered values_cmp rows.now) }
{
    let mut found = Vec::new(alloc);
    for row in rows.values() {
        if has_values(columns, sought, row.as_slice()) {
            found.push(row)?;
        }
    }
    Ok(found)
}

// The rows by their values in these columns.
fn by_columns<'a>(
    alloc: Global,
    columns: &[u8],
    mut found: Vec<&'a Row>,
) -> Result<BTreeMap<RowKey, &'a Row>, AllocError>
    ensures { IfOk result (λ ordered. map (λ r. r.now) (values ordered) ≡ sorted (columns_cmp columns.now) (map (λ r. r.now) found.entry.items)) }
{
    let mut ordered = BTreeMap::new(alloc);
    while let Some(row) = found.pop() {
        ordered.insert(RowKey::from_row(alloc, columns, row.as_slice())?, row)?;
    }
    Ok(ordered)
}

/// The rows that have the values first in a key's columns, in the key's order.
pub(crate) fn find<'a>(
    alloc: Global,
    definition: &Definition,
    rows: &'a BTreeMap<RowKey, Row>,
    number: usize,
    sought: &[Value],
) -> Result<Vec<&'a Row>, AllocError>
    requires { IsTrue (are_keyed definition.now rows.now.entries) }
    ensures found { IfOk result (λ found. map (λ r. r.now) found.items ≡ concerned definition.now number sought.now (values rows.now)) }
    ensures ordered { IfOk result (λ _. IsOrdered values_cmp rows.now) }
{
    if number == 0 {
        return find_by_first(alloc, definition, rows, sought);
    }
    let columns = definition.key_columns(number);
    let found = find_among(alloc, columns, rows, sought)?;
    let columns = order_columns(alloc, definition, number)?;
    by_columns(alloc, columns.as_slice(), found)?
        .into_values()
        .collect(alloc)
}

/// The keys of rows: their values in the first key's columns.
pub(crate) fn keys_of(
    alloc: Global,
    definition: &Definition,
    found: &[&Row],
) -> Result<Vec<RowKey>, AllocError>
    ensures { IfOk result (λ keys. keys.items ≡ map (values_in (key_columns definition.now.keys 0)) (map (λ r. r.now) found.now)) }
{
    let columns = definition.first_key_columns();
    let mut keys = Vec::with_capacity(alloc, found.len())?;
    for row in found {
        keys.push(RowKey::from_row(alloc, columns, row.as_slice())?)?;
    }
    Ok(keys)
}
