//! Values, rows and definitions of tables, how they are stored, and the order that rows have.
//!
//! A `Value` is null, a whole number or a text, a `Row` a list of values, and a `Definition` says which
//! columns and keys a table has. `encode_row` gives the bytes of a stored row (docs/FORMATS.md, "Rows"), and
//! `decode_row` the row of a definition that bytes spell. `encode_definition` and `decode_definition` do so
//! for definitions (docs/FORMATS.md, "Definitions"), and `keep_row` and `read_kept` for rows as a table of
//! either format keeps them (docs/FORMATS.md, "Kept rows"). `entry` gives what a key has of a row, and
//! `prefix` what the entries of rows with given values begin with (docs/FORMATS.md, "Entries of keys").
//! `first_pages` makes the first pages of a table's files, and `read_header` reads that of its index file as
//! a `Header` (docs/FORMATS.md, "The header of an index file"). Bytes and pages that spell none are `None`,
//! whatever they are, and the only failure is want of memory.
//!
//! `specs/Order.antt` has the order of values and the order that a key gives to rows, `specs/Defined.antt`
//! which definitions there are, `specs/Rows.antt` which rows a definition has, `specs/Stored.antt` how they are
//! stored, `specs/Reading.antt` how they are read, `specs/Kept.antt` how tables keep rows, `specs/Entry.antt`
//! the entries of keys, and `specs/Header.antt` the first pages.
#![tactic(auto)]

mod definition;
mod definition_check;
mod definition_codec;
mod header;
mod kept_row;
mod key_entry;
mod named;
mod row;
mod row_codec;
mod value;

pub use definition::{
    Column, ColumnType, Definition, Key, MAX_COLUMNS, MAX_ENTRY_BYTES, MAX_KEYS, MAX_ROWS,
    MAX_TEXT_BYTES, first_key_columns, key_columns, may_hold,
};
pub use definition_check::{are_keys, entries_fit};
pub use definition_codec::{decode_definition, encode_definition};
pub use header::{Header, first_pages, read_header};
pub use kept_row::{keep_row, read_kept};
pub use key_entry::{entry, prefix};
pub use named::{Named, has_name, have_distinct_names, number_of};
pub use row::{MAX_ROW_BYTES, Row, is_too_long};
pub use row_codec::{decode_row, encode_row};
pub use value::Value;

#[cfg(test)]
mod tests;
