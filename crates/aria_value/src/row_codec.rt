//! Rows as they are stored (docs/FORMATS.md, "Rows").

ghost use Rattle.std.specs.Prelude.{◌≡◌, ◌<◌, ◌^◌, ◌++◌, List as Seq, length, All, OnOk, IfOk, IfSome};
ghost use Rattle.aria_page.specs.Field.{Gives};
ghost use Rattle.aria_value.specs.declared.value.Value.{Value as AnyValue};
ghost use Rattle.aria_value.specs.Stored.{row_bytes, row_length, text_length};
ghost use Rattle.aria_value.specs.Rows.{IsRow};
ghost use Rattle.aria_page.specs.Items.{items_at};
ghost use Rattle.aria_value.specs.Reading.{read_int, read_value, read_row};

use crate::definition::Definition;
use crate::row::{MAX_ROW_BYTES, Row, is_row};
use crate::value::Value;
use aria_page::{
    Bytes, List, Stored, counted_u32_at, items_at, push_counted_u32, push_items, push_u64, u64_at,
};
use std::alloc::{AllocError, Global};

/// The bytes of a stored row. Each text has fewer than 2^32 bytes.
pub fn encode_row(alloc: Global, row: &Row) -> Result<Bytes, AllocError>
    requires { All (λ value. text_length value < 2 ^ 32) row.now }
    ensures spelled { IfOk result (λ bytes. bytes ≡ row_bytes row.now) }
    ensures length { IfOk result (λ bytes. length bytes ≡ row_length row.now) }
{
    let mut out = List::new(alloc);
    push_items(&mut out, row.as_slice())?;
    Ok(out)
}

#[tactic(auto, unfolding(crate::specs::Reading::read_int))]
fn int_at(bytes: &[u8]) -> Option<(i64, &[u8])>
    ensures { Gives (λ x. (x.0, x.1.now)) result (read_int bytes.now) }
{
    let (n, rest) = u64_at(bytes)?;
    Some((n.cast_signed(), rest))
}

impl Stored for Value {
    ghost use Rattle.std.specs.Prelude.{◌<◌, ◌^◌};
    ghost use Rattle.aria_value.specs.Stored.{value_bytes, text_length};
    ghost use Rattle.aria_value.specs.Reading.{read_value};

    ghost spelled = { value_bytes };

    ghost fits = { λ value. text_length value < 2 ^ 32 };

    ghost holds = { λ value. Unit {0} };

    ghost reads = { read_value };

    fn write(&self, out: &mut Bytes) -> Result<(), AllocError> {
        match self {
            Value::Null => out.push(0),
            Value::Int(n) => {
                out.push(1)?;
                push_u64(out, n.cast_unsigned())
            }
            Value::Text(text) => {
                out.push(2)?;
                push_counted_u32(out, text.as_slice())
            }
        }
    }

    #[tactic(auto, unfolding(crate::specs::Reading::read_value))]
    fn read(alloc: Global, bytes: &[u8]) -> Result<Option<(Value, &[u8])>, AllocError> {
        match bytes {
            [0, rest @ ..] => Ok(Some((Value::Null, rest))),
            [1, rest @ ..] => match int_at(rest) {
                None => Ok(None),
                Some((n, rest)) => Ok(Some((Value::Int(n), rest))),
            },
            [2, rest @ ..] => match counted_u32_at(rest) {
                None => Ok(None),
                Some((text, rest)) => {
                    let text = List::from_slice(alloc, text)?;
                    Ok(Some((Value::Text(text), rest)))
                }
            },
            _ => Ok(None),
        }
    }
}

// The row that the bytes spell.
#[tactic(auto, unfolding(crate::specs::Reading::read_row))]
fn row_at(alloc: Global, definition: &Definition, bytes: &[u8]) -> Result<Option<Row>, AllocError>
    ensures { IfOk result (λ row. row ≡ read_row definition.now bytes.now) }
{
    match items_at::<Value>(alloc, definition.columns.len(), bytes)? {
        None => Ok(None),
        Some((row, rest)) => {
            if rest.is_empty() && is_row(definition, row.as_slice()) {
                Ok(Some(row))
            } else {
                Ok(None)
            }
        }
    }
}

/// The row of the definition that the bytes spell; `None` where they spell none.
pub fn decode_row(
    alloc: Global,
    definition: &Definition,
    bytes: &[u8],
) -> Result<Option<Row>, AllocError>
    ensures read { IfOk result (λ row. row ≡ read_row definition.now bytes.now) }
    // What is read is spelled so.
    ensures found { IfOk result (λ r. IfSome r (λ row. IsRow definition.now row × (bytes.now ≡ row_bytes row))) }
    // What is spelled so is read.
    ensures only { (row : Seq AnyValue) → IsRow definition.now row → bytes.now ≡ row_bytes row → IfOk result (λ r. r ≡ Some row) }
{
    if bytes.len() > MAX_ROW_BYTES as usize {
        return Ok(None);
    }
    row_at(alloc, definition, bytes)
}
