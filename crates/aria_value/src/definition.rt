ghost use Rattle.std.specs.Prelude.{◌≡◌, ◌==◌};
ghost use Rattle.std.specs.List.{list_any};
ghost use Rattle.aria_value.specs.Named.{nth_named};
ghost use Rattle.aria_value.specs.Order.{key_columns};
ghost use Rattle.aria_value.specs.Defined.{kind_at};
ghost use Rattle.aria_value.specs.Rows.{may_hold};
ghost use Rattle.aria_value.specs.Entry.{has_type};

use crate::named::{Named, number_of};
use crate::value::Value;
use aria_page::{List, Name};

/// The most columns that a table has.
pub const MAX_COLUMNS: usize = 32;

/// The most keys that a table has.
pub const MAX_KEYS: usize = 8;

/// The longest entry of a key, in bytes.
pub const MAX_ENTRY_BYTES: u32 = 1000;

/// The largest limit that a text column gives to its texts, in bytes.
pub const MAX_TEXT_BYTES: u32 = 65_535;

/// The most rows that a table may hold, and how many it may where its definition doesn't say.
pub const MAX_ROWS: u32 = 16_777_216;

/// What a column holds. The number of `Text` is the most bytes of a stored text.
#[derive(Clone, Copy, Debug, PartialEq, Eq)]
pub enum ColumnType {
    Int,
    Text(u32),
}

impl ColumnType {
    /// Whether the value is null or of this type, a text however long.
    pub fn is_type_of(self, value: &Value) -> bool
        ensures { result ≡ has_type self value.now }
    {
        match (self, value) {
            (_, Value::Null) => true,
            (ColumnType::Int, Value::Int(_)) => true,
            (ColumnType::Int, Value::Text(_)) => false,
            (ColumnType::Text(_), Value::Int(_)) => false,
            (ColumnType::Text(_), Value::Text(_)) => true,
        }
    }

    /// Whether a column of this type may hold the value. Null isn't allowed in a column of the first key, which is
    /// `keyed`.
    pub fn may_hold(self, keyed: bool, value: &Value) -> bool
        ensures { result ≡ may_hold keyed self value.now }
    {
        match (self, value) {
            (_, Value::Null) => !keyed,
            (ColumnType::Int, Value::Int(_)) => true,
            (ColumnType::Int, Value::Text(_)) => false,
            (ColumnType::Text(_), Value::Int(_)) => false,
            (ColumnType::Text(limit), Value::Text(bytes)) => bytes.len() <= limit as usize,
        }
    }
}

/// A column of a table.
#[derive(Clone, Copy, Debug)]
pub struct Column {
    pub name: Name,
    pub kind: ColumnType,
}

fn is_among(columns: &[u8], nth: usize) -> bool
    ensures { result ≡ list_any (λ k. k == nth) columns.now }
{
    columns.iter().any(|column| *column as usize == nth)
}

impl Column {
    /// Whether the column may hold the value, as the one of this number in a table whose first key has the columns
    /// `first_key`.
    pub fn may_hold(&self, nth: usize, first_key: &[u8], value: &Value) -> bool
        ensures { result ≡ may_hold (list_any (λ k. k == nth) first_key.now) self.now.kind value.now }
    {
        self.kind.may_hold(is_among(first_key, nth), value)
    }
}

impl Named for Column {
    ghost named = { λ column. column.name };

    fn name(&self) -> &Name {
        &self.name
    }
}

/// A key of a table: the numbers of its columns, counted from 0.
#[derive(Debug, Drop)]
pub struct Key {
    pub name: Name,
    pub columns: List<u8>,
}

impl Named for Key {
    ghost named = { λ key. key.name };

    fn name(&self) -> &Name {
        &self.name
    }
}

/// What a table is made of. The first key is unique. `max_rows` is the most rows that it may hold.
#[derive(Debug, Drop)]
pub struct Definition {
    pub columns: List<Column>,
    pub keys: List<Key>,
    pub max_rows: u32,
}

// What a column holds; past the columns it is nothing longer than a number.
pub(crate) fn kind_at(columns: &[Column], number: usize) -> ColumnType
    ensures { result ≡ kind_at columns.now number }
{
    match columns.get(number) {
        Some(column) => column.kind,
        None => ColumnType::Int,
    }
}

impl Definition {
    /// The number of the column of this name, counted from 0.
    pub fn column_number(&self, name: &Name) -> Option<usize>
        ensures { result ≡ nth_named (λ column. column.name) self.now.columns name.now }
    {
        number_of(self.columns.as_slice(), name)
    }

    /// The number of the key of this name, counted from 0.
    pub fn key_number(&self, name: &Name) -> Option<usize>
        ensures { result ≡ nth_named (λ key. key.name) self.now.keys name.now }
    {
        number_of(self.keys.as_slice(), name)
    }

    /// The numbers of the columns of a key, and none where there is no such key.
    pub fn key_columns(&self, key: usize) -> &[u8]
        ensures { result.now ≡ key_columns self.now.keys key }
    {
        key_columns(self.keys.as_slice(), key)
    }

    /// The numbers of the columns of the first key.
    pub fn first_key_columns(&self) -> &[u8]
        ensures { result.now ≡ key_columns self.now.keys 0 }
    {
        self.key_columns(0)
    }

    /// Whether the column of this number may hold the value; past the columns, whether one of numbers may.
    pub fn may_hold(&self, nth: usize, value: &Value) -> bool
        ensures { result ≡ may_hold (list_any (λ k. k == nth) (key_columns self.now.keys 0)) (kind_at self.now.columns nth) value.now }
    {
        kind_at(self.columns.as_slice(), nth).may_hold(
            is_among(self.first_key_columns(), nth),
            value,
        )
    }
}

/// The numbers of the columns of a key, and none where there is no such key.
pub fn key_columns(keys: &[Key], number: usize) -> &[u8]
    ensures { result.now ≡ key_columns keys.now number }
{
    match keys.get(number) {
        Some(key) => key.columns.as_slice(),
        None => &[],
    }
}

/// The numbers of the columns of the first key.
pub fn first_key_columns(definition: &Definition) -> &[u8]
    ensures { result.now ≡ key_columns definition.now.keys 0 }
{
    definition.first_key_columns()
}

/// Whether the column of this number, of this kind, may hold the value in a table whose first key has the columns
/// `first_key`.
pub fn may_hold(first_key: &[u8], nth: usize, kind: ColumnType, value: &Value) -> bool
    ensures { result ≡ may_hold (list_any (λ k. k == nth) first_key.now) kind value.now }
{
    kind.may_hold(is_among(first_key, nth), value)
}
