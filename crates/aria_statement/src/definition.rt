//! Which definition is written, or what is wrong in it.

ghost use Rattle.std.specs.Prelude.{◌≡◌, ◌≤◌, not, length, map, IsTrue, IfOk};
ghost use Rattle.std.specs.List.{list_any};
ghost use Rattle.aria_value.specs.Defined.{same_name, distinct};
ghost use Rattle.aria_model.specs.declared.refusal.Refusal.TheVariants.{BadDefinition};
ghost use Rattle.aria_model.specs.declared.refusal.Which.TheVariants.{Packed};
ghost use Rattle.aria_model.specs.Grammar.{column_number as number_of_column, column_numbers as numbers_of_columns, keys_of as keys_found, is_packed as is_packed_kind, is_spatial as is_spatial_key, is_fulltext as is_fulltext_key, unless_bad, defined as defined_of};
ghost use Rattle.aria_model.specs.declared.stopped.Stopped.TheVariants.{Refused};
ghost use Rattle.aria_statement.specs.Reading.{Reads};
ghost use Rattle.aria_statement.specs.Writing.{type_seen, column_seen, special_seen, key_seen, kind_seen};
ghost use Rattle.aria_statement.specs.Defining.{up_to, type_if, columns_if, tested, are_good_columns, with_columns, with_rows};

use crate::written::{Special, TableKind, WrittenColumn, WrittenKey, WrittenType};
use aria_model::{Refusal, Stopped, Which};
use aria_page::{Bytes, List, Name};
use aria_value::{
    Column, ColumnType, Definition, Key, MAX_COLUMNS, MAX_ROWS, MAX_TEXT_BYTES, are_keys,
    entries_fit,
};
use std::alloc::{AllocError, Global};

fn bad(which: Which) -> Stopped
    ensures { result ≡ Refused (BadDefinition which) }
{
    Stopped::Refused(Refusal::BadDefinition { which })
}

fn is_packed(kind: TableKind) -> bool
    ensures { result ≡ is_packed_kind (kind_seen kind) }
{
    match kind {
        TableKind::Trans => false,
        TableKind::Plain => false,
        TableKind::Packed => true,
    }
}

// The number, if it is from 1 to the greatest.
fn up_to(greatest: u32, n: i64) -> Option<u32>
    ensures { result ≡ up_to greatest n }
{
    if n < 1 || n > i64::from(greatest) {
        return None;
    }
    Some(n as u32)
}

fn has_name(columns: &[WrittenColumn], name: &Name) -> bool
    ensures { result ≡ list_any (λ column. same_name name.now column.name) columns.now }
{
    columns.iter().any(|column| *name == column.name)
}

fn are_distinct(columns: &[WrittenColumn]) -> bool
    ensures { result ≡ distinct (λ a b. same_name a.name b.name) columns.now }
{
    for (i, column) in columns.iter().enumerate() {
        if has_name(&columns[i + 1..], &column.name) {
            return false;
        }
    }
    true
}

// The type, if there is one.
fn type_of(kind: WrittenType) -> Option<ColumnType>
    ensures { result ≡ type_if (type_seen kind) }
{
    match kind {
        WrittenType::Int => Some(ColumnType::Int),
        WrittenType::Text(limit) => {
            let limit = up_to(MAX_TEXT_BYTES, limit)?;
            Some(ColumnType::Text(limit))
        }
    }
}

// The columns, if each has a type.
fn columns_of(alloc: Global, written: &[WrittenColumn]) -> Result<Option<List<Column>>, AllocError>
    ensures { IfOk result (λ columns. columns ≡ columns_if (map column_seen written.now)) }
{
    let mut columns = List::new(alloc);
    for column in written {
        let Some(kind) = type_of(column.kind) else {
            return Ok(None);
        };
        let name = column.name;
        columns.push(Column { name, kind })?;
    }
    Ok(Some(columns))
}

fn column_number(columns: &[WrittenColumn], wanted: &Name) -> Option<u8>
    requires { length columns.now ≤ 32 }
    ensures { result ≡ number_of_column (map column_seen columns.now) wanted.now }
{
    for (i, column) in columns.iter().enumerate() {
        if column.name == *wanted {
            return Some(i as u8);
        }
    }
    None
}

// The numbers of the columns of names, if there are all of them.
fn column_numbers(
    alloc: Global,
    columns: &[WrittenColumn],
    names: &[Name],
) -> Result<Option<Bytes>, AllocError>
    requires { length columns.now ≤ 32 }
    ensures { IfOk result (λ numbers. numbers ≡ numbers_of_columns (map column_seen columns.now) names.now) }
{
    let mut numbers = List::new(alloc);
    for name in names {
        let Some(number) = column_number(columns, name) else {
            return Ok(None);
        };
        numbers.push(number)?;
    }
    Ok(Some(numbers))
}

// The keys, if all their columns are there.
fn keys_of(
    alloc: Global,
    columns: &[WrittenColumn],
    written: &[WrittenKey],
) -> Result<Option<List<Key>>, AllocError>
    requires { length columns.now ≤ 32 }
    ensures { IfOk result (λ keys. keys ≡ keys_found (map column_seen columns.now) (map key_seen written.now)) }
{
    let mut keys = List::new(alloc);
    for key in written {
        match column_numbers(alloc, columns, key.columns.as_slice())? {
            None => return Ok(None),
            Some(columns) => {
                let name = key.name;
                keys.push(Key { name, columns })?;
            }
        }
    }
    Ok(Some(keys))
}

fn is_spatial(special: Special) -> bool
    ensures { result ≡ is_spatial_key (special_seen special) }
{
    match special {
        Special::Plain => false,
        Special::Spatial => true,
        Special::Fulltext => false,
    }
}

fn is_fulltext(special: Special) -> bool
    ensures { result ≡ is_fulltext_key (special_seen special) }
{
    match special {
        Special::Plain => false,
        Special::Spatial => false,
        Special::Fulltext => true,
    }
}

fn any_is_spatial(keys: &[WrittenKey]) -> bool
    ensures { result ≡ list_any (λ key. is_spatial_key (special_seen key.special)) keys.now }
{
    keys.iter().any(|key| is_spatial(key.special))
}

fn any_is_fulltext(keys: &[WrittenKey]) -> bool
    ensures { result ≡ list_any (λ key. is_fulltext_key (special_seen key.special)) keys.now }
{
    keys.iter().any(|key| is_fulltext(key.special))
}

// The definition, unless its keys make it a bad one.
#[tactic(auto, using(crate::proofs::Defining::specials_are))]
fn tested(definition: Definition, keys: &[WrittenKey]) -> Result<Definition, Stopped>
    ensures { Reads result (tested definition (map key_seen keys.now)) }
{
    if !are_keys(definition.columns.as_slice(), definition.keys.as_slice()) {
        return Err(bad(Which::Keys));
    }
    if any_is_spatial(keys) {
        return Err(bad(Which::Spatial));
    }
    if any_is_fulltext(keys) {
        return Err(bad(Which::Fulltext));
    }
    if !entries_fit(&definition) {
        return Err(bad(Which::Entry));
    }
    Ok(definition)
}

// The definition of columns whose names are good.
fn with_columns(
    alloc: Global,
    max_rows: u32,
    columns: &[WrittenColumn],
    keys: &[WrittenKey],
) -> Result<Definition, Stopped>
    requires { length columns.now ≤ 32 }
    ensures { Reads result (with_columns max_rows (map column_seen columns.now) (map key_seen keys.now) (columns_if (map column_seen columns.now))) }
{
    match columns_of(alloc, columns)? {
        None => Err(bad(Which::Kind)),
        Some(typed) => match keys_of(alloc, columns, keys)? {
            None => Err(bad(Which::Keys)),
            Some(found) => {
                let definition = Definition {
                    columns: typed,
                    keys: found,
                    max_rows,
                };
                tested(definition, keys)
            }
        },
    }
}

// Whether the columns are few enough, and none stands twice.
fn are_good_columns(columns: &[WrittenColumn]) -> bool
    ensures same { result ≡ are_good_columns (map column_seen columns.now) }
    ensures few { IsTrue result → length columns.now ≤ 32 }
{
    columns.len() <= MAX_COLUMNS && are_distinct(columns)
}

// The tests one after another.
fn defined_in_turn(
    alloc: Global,
    kind: TableKind,
    rows: i64,
    columns: &[WrittenColumn],
    keys: &[WrittenKey],
) -> Result<Definition, Stopped>
    ensures { Reads result (unless_bad (not (is_packed_kind (kind_seen kind))) Packed (with_rows (map column_seen columns.now) (map key_seen keys.now) (up_to 16777216 rows))) }
{
    if is_packed(kind) {
        return Err(bad(Which::Packed));
    }
    let Some(max_rows) = up_to(MAX_ROWS, rows) else {
        return Err(bad(Which::MaxRows));
    };
    if !are_good_columns(columns) {
        return Err(bad(Which::Columns));
    }
    with_columns(alloc, max_rows, columns, keys)
}

/// The definition that is written, or what is the first to be wrong in it.
pub fn defined(
    alloc: Global,
    kind: TableKind,
    rows: i64,
    columns: &[WrittenColumn],
    keys: &[WrittenKey],
) -> Result<Definition, Stopped>
    ensures { Reads result (defined_of (kind_seen kind) rows (map column_seen columns.now) (map key_seen keys.now)) }
{
    defined_in_turn(alloc, kind, rows, columns, keys)
}
