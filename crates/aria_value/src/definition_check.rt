//! Which definitions there are.

ghost use Rattle.std.specs.Prelude.{◌≡◌, ◌+◌, ◌<◌, ◌==◌, ◌&&◌, nat_le, nat_lt, length, sum_by, MatchOption};
ghost use Rattle.std.specs.List.{list_all, list_any};
ghost use Rattle.aria_value.specs.declared.definition.TheConstants.{MAX_ENTRY_BYTES};
ghost use Rattle.aria_value.specs.Defined.{distinct, kind_at, longest_part, longest_parts, longest_entry, are_columns, is_type, is_key, are_keys, entries_fit, is_definition};

use crate::definition::{
    Column, ColumnType, Definition, Key, MAX_COLUMNS, MAX_ENTRY_BYTES, MAX_KEYS, MAX_ROWS,
    MAX_TEXT_BYTES, kind_at,
};
use crate::named::have_distinct_names;

fn has_number(numbers: &[u8], number: u8) -> bool
    ensures { result ≡ list_any (λ other. number == other) numbers.now }
{
    numbers.iter().any(|other| number == *other)
}

fn are_distinct_numbers(numbers: &[u8]) -> bool
    ensures { result ≡ distinct ◌==◌ numbers.now }
{
    for (i, number) in numbers.iter().enumerate() {
        if has_number(&numbers[i + 1..], *number) {
            return false;
        }
    }
    true
}

fn are_columns(columns: &[Column]) -> bool
    ensures { result ≡ are_columns columns.now }
{
    !columns.is_empty() && columns.len() <= MAX_COLUMNS && have_distinct_names(columns)
}

fn is_type(kind: ColumnType) -> bool
    ensures { result ≡ is_type kind }
{
    match kind {
        ColumnType::Int => true,
        ColumnType::Text(limit) => 1 <= limit && limit <= MAX_TEXT_BYTES,
    }
}

fn are_types(columns: &[Column]) -> bool
    ensures { result ≡ list_all (λ column. is_type column.kind) columns.now }
{
    columns.iter().all(|column| is_type(column.kind))
}

fn are_numbers(numbers: &[u8], count: usize) -> bool
    ensures { result ≡ list_all (λ c. nat_lt c count) numbers.now }
{
    numbers.iter().all(|number| (*number as usize) < count)
}

fn is_key(columns: &[Column], key: &Key) -> bool
    ensures { result ≡ is_key columns.now key.now }
{
    let numbers = key.columns.as_slice();
    !numbers.is_empty() && are_numbers(numbers, columns.len()) && are_distinct_numbers(numbers)
}

fn are_all_keys(columns: &[Column], keys: &[Key]) -> bool
    ensures { result ≡ list_all (is_key columns.now) keys.now }
{
    keys.iter().all(|key| is_key(columns, key))
}

/// Whether a table of these columns may have the keys.
pub fn are_keys(columns: &[Column], keys: &[Key]) -> bool
    ensures { result ≡ are_keys columns.now keys.now }
{
    !keys.is_empty()
        && keys.len() <= MAX_KEYS
        && have_distinct_names(keys)
        && are_all_keys(columns, keys)
}

// What is left of so many bytes behind the longest part of a type, if it fits them.
fn room_behind(room: usize, kind: ColumnType) -> Option<usize>
    ensures { MatchOption result (room < longest_part kind) (λ left. left + longest_part kind ≡ room) }
{
    match kind {
        ColumnType::Int => room.checked_sub(9),
        ColumnType::Text(limit) => room.checked_sub(2 * limit as usize + 3),
    }
}

// The same behind the parts of these columns.
fn room_behind_all(limit: usize, columns: &[Column], numbers: &[u8]) -> Option<usize>
    ensures { MatchOption result (limit < sum_by (λ c. longest_part (kind_at columns.now c)) numbers.now) (λ left. left + sum_by (λ c. longest_part (kind_at columns.now c)) numbers.now ≡ limit) }
{
    let mut room = limit;
    for number in numbers {
        match room_behind(room, kind_at(columns, *number as usize)) {
            None => return None,
            Some(left) => room = left,
        }
    }
    Some(room)
}

// What is left of so many bytes behind the longest parts of a key's own columns, if they fit.
fn room_behind_key(limit: usize, definition: &Definition, key: usize) -> Option<usize>
    ensures { MatchOption result (limit < longest_parts definition.now key) (λ left. left + longest_parts definition.now key ≡ limit) }
{
    let columns = definition.columns.as_slice();
    room_behind_all(limit, columns, definition.key_columns(key))
}

// Whether the longest entry of a key is short enough.
#[tactic(auto, using(crate::proofs::Definitions::entry_rules))]
fn entry_fits(definition: &Definition, key: usize) -> bool
    ensures { result ≡ nat_le (longest_entry definition.now key) MAX_ENTRY_BYTES }
{
    match room_behind_key(MAX_ENTRY_BYTES as usize, definition, key) {
        None => false,
        Some(room) => {
            if key == 0 {
                return true;
            }
            match room_behind_key(room, definition, 0) {
                None => false,
                Some(_) => true,
            }
        }
    }
}

/// Whether each key has entries that are short enough.
pub fn entries_fit(definition: &Definition) -> bool
    ensures { result ≡ entries_fit definition.now (length definition.now.keys) }
{
    for key in 0..definition.keys.len() {
        if !entry_fits(definition, key) {
            return false;
        }
    }
    true
}

/// Whether a table may have the definition.
pub(crate) fn is_definition(definition: &Definition) -> bool
    ensures { result ≡ is_definition definition.now }
{
    let columns = definition.columns.as_slice();
    1 <= definition.max_rows
        && definition.max_rows <= MAX_ROWS
        && are_columns(columns)
        && are_types(columns)
        && are_keys(columns, definition.keys.as_slice())
        && entries_fit(definition)
}
