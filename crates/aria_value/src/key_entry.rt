//! Entries of keys (docs/FORMATS.md, "Entries of keys").

ghost use Rattle.std.specs.Prelude.{◌≡◌, ◌<◌, ◌≤◌, ◌++◌, ◌==◌, List as Seq, length, OnOk, IfOk, IsTrue};
ghost use Rattle.std.specs.List.{flat_map, starts_with, AllByRecursion};
ghost use Rattle.std.specs.Cmp.Lexicographic.{slice_cmp};
ghost use Rattle.std.specs.Ordering.{nat_cmp};
ghost use Rattle.aria_value.specs.declared.value.Value.{Value as AnyValue};
ghost use Rattle.aria_value.specs.declared.definition.TheConstants.{MAX_ENTRY_BYTES};
ghost use Rattle.aria_value.specs.Order.{value_at, key_columns, key_cmp, has_values};
ghost use Rattle.aria_value.specs.Rows.{Fits, IsRow};
ghost use Rattle.aria_value.specs.Defined.{IsDefinition};
ghost use Rattle.aria_value.specs.Entry.{raised, escaped, part, parts, entry_bytes, prefix_bytes, have_types};

use crate::definition::Definition;
use crate::row::Row;
use crate::value::Value;
use aria_page::{Bytes, List, push_u64};
use std::alloc::{AllocError, Global};

// The number and 2^63.
fn raised(n: i64) -> u64
    ensures { result ≡ raised n }
{
    n.cast_unsigned().wrapping_add(1 << 63)
}

fn push_escaped(out: &mut Bytes, byte: u8) -> Result<(), AllocError>
    ensures { OnOk result (out.new ≡ out.old ++ escaped byte) }
{
    if byte == 0 {
        return out.extend_from_slice(&[0, 255]);
    }
    out.push(byte)
}

fn push_all_escaped(out: &mut Bytes, text: &[u8]) -> Result<(), AllocError>
    ensures { OnOk result (out.new ≡ out.old ++ flat_map escaped text.now) }
{
    for byte in text {
        push_escaped(out, *byte)?;
    }
    Ok(())
}

fn push_part(out: &mut Bytes, value: &Value) -> Result<(), AllocError>
    ensures { OnOk result (out.new ≡ out.old ++ part value.now) }
{
    match value {
        Value::Null => out.push(0),
        Value::Int(n) => {
            out.push(1)?;
            push_u64(out, raised(*n))
        }
        Value::Text(text) => {
            out.push(1)?;
            push_all_escaped(out, text.as_slice())?;
            out.extend_from_slice(&[0, 0])
        }
    }
}

// The part of a row in a column; past the values it is that of null.
fn push_part_of(out: &mut Bytes, row: &[Value], column: u8) -> Result<(), AllocError>
    ensures { OnOk result (out.new ≡ out.old ++ part (value_at row.now column)) }
{
    match row.get(column as usize) {
        None => out.push(0),
        Some(value) => push_part(out, value),
    }
}

fn push_parts(out: &mut Bytes, row: &[Value], columns: &[u8]) -> Result<(), AllocError>
    ensures { OnOk result (out.new ≡ out.old ++ parts row.now columns.now) }
{
    for column in columns {
        push_part_of(out, row, *column)?;
    }
    Ok(())
}

fn entry_of(
    alloc: Global,
    definition: &Definition,
    key: usize,
    row: &Row,
) -> Result<Bytes, AllocError>
    ensures { IfOk result (λ bytes. bytes ≡ entry_bytes definition.now key row.now) }
{
    let mut out = List::new(alloc);
    push_parts(&mut out, row.as_slice(), definition.key_columns(key))?;
    if key != 0 {
        push_parts(&mut out, row.as_slice(), definition.first_key_columns())?;
    }
    Ok(out)
}

/// The entry of a row in a key, counted from 0.
pub fn entry(
    alloc: Global,
    definition: &Definition,
    key: usize,
    row: &Row,
) -> Result<Bytes, AllocError>
    ensures spelled { IfOk result (λ bytes. bytes ≡ entry_bytes definition.now key row.now) }
    // Byte order of entries is the key's order of rows.
    ensures order { (other : Seq AnyValue) → IsRow definition.now row.now → IsRow definition.now other → IfOk result (λ bytes. slice_cmp nat_cmp bytes (entry_bytes definition.now key other) ≡ key_cmp definition.now key row.now other) }
    ensures length { IsDefinition definition.now → IsRow definition.now row.now → key < length definition.now.keys → IfOk result (λ bytes. length bytes ≤ MAX_ENTRY_BYTES) }
{
    entry_of(alloc, definition, key, row)
}

fn push_all_parts(out: &mut Bytes, values: &[Value]) -> Result<(), AllocError>
    ensures { OnOk result (out.new ≡ out.old ++ prefix_bytes values.now) }
{
    for value in values {
        push_part(out, value)?;
    }
    Ok(())
}

fn prefix_of(alloc: Global, values: &[Value]) -> Result<Bytes, AllocError>
    ensures { IfOk result (λ bytes. bytes ≡ prefix_bytes values.now) }
{
    let mut out = List::new(alloc);
    push_all_parts(&mut out, values)?;
    Ok(out)
}

/// What the entries in a key begin with whose rows have these values in the first columns of the key.
pub fn prefix(
    alloc: Global,
    definition: &Definition,
    key: usize,
    values: &[Value],
) -> Result<Bytes, AllocError>
    ensures spelled { IfOk result (λ bytes. bytes ≡ prefix_bytes values.now) }
    // An entry begins with it exactly where the row has the values.
    ensures begins { (row : Seq AnyValue) → IsRow definition.now row → AllByRecursion Fits values.now → IsTrue (have_types definition.now.columns (key_columns definition.now.keys key) values.now) → IfOk result (λ bytes. starts_with ◌==◌ (entry_bytes definition.now key row) bytes ≡ has_values (key_columns definition.now.keys key) values.now row) }
{
    prefix_of(alloc, values)
}
