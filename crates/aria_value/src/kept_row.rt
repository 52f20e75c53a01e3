//! Rows as tables keep them (docs/FORMATS.md, "Kept rows").

ghost use Rattle.std.specs.Prelude.{◌≡◌, ◌<◌, ◌^◌, List as Seq, All, OnOk, IfOk, IfSome};
ghost use Rattle.aria_page.specs.Field.{Gives};
ghost use Rattle.aria_value.specs.declared.value.Value.{Value as AnyValue};
ghost use Rattle.aria_value.specs.Stored.{text_length};
ghost use Rattle.aria_value.specs.Rows.{IsRow};
ghost use Rattle.aria_value.specs.Kept.{with_checksum, kept_bytes, without_checksum, stored_in, read_kept};

use crate::definition::Definition;
use crate::row::Row;
use crate::row_codec::{decode_row, encode_row};
use aria_page::{Bytes, SUM_BYTES, checksum, u32_bytes, u32_of};
use std::alloc::{AllocError, Global};

// The format of tables whose rows are kept with a checksum.
const SUMMED: u8 = 2;

#[tactic(auto, unfolding(crate::specs::Kept::with_checksum))]
fn push_checksum(bytes: &mut Bytes) -> Result<(), AllocError>
    ensures { OnOk result (bytes.new ≡ with_checksum bytes.old) }
{
    let sum = checksum(bytes.as_slice());
    bytes.extend_from_slice(&u32_bytes(sum))
}

/// What a table of the format, 1 or 2, keeps of a row. Each text has fewer than 2^32 bytes.
pub fn keep_row(alloc: Global, format: u8, row: &Row) -> Result<Bytes, AllocError>
    requires { All (λ value. text_length value < 2 ^ 32) row.now }
    ensures { IfOk result (λ bytes. bytes ≡ kept_bytes format row.now) }
{
    let mut bytes = encode_row(alloc, row)?;
    if format == SUMMED {
        push_checksum(&mut bytes)?;
    }
    Ok(bytes)
}

// What stands before the checksum that the bytes end with; `None` where they don't end with it.
#[tactic(auto, unfolding(crate::specs::Kept::without_checksum))]
fn without_checksum(bytes: &[u8]) -> Option<&[u8]>
    ensures { Gives (λ x. x.now) result (without_checksum bytes.now) }
{
    if bytes.len() < SUM_BYTES {
        return None;
    }
    let (stored, sum) = bytes.split_at(bytes.len() - SUM_BYTES);
    if u32_of(sum) == checksum(stored) {
        Some(stored)
    } else {
        None
    }
}

fn stored_in(format: u8, bytes: &[u8]) -> Option<&[u8]>
    ensures { Gives (λ x. x.now) result (stored_in format bytes.now) }
{
    if format == SUMMED {
        without_checksum(bytes)
    } else {
        Some(bytes)
    }
}

#[tactic(auto, unfolding(crate::specs::Kept::read_kept))]
fn kept_row(
    alloc: Global,
    definition: &Definition,
    format: u8,
    bytes: &[u8],
) -> Result<Option<Row>, AllocError>
    ensures { IfOk result (λ row. row ≡ read_kept definition.now format bytes.now) }
{
    match stored_in(format, bytes) {
        None => Ok(None),
        Some(stored) => decode_row(alloc, definition, stored),
    }
}

/// The row of the definition that a table of the format, 1 or 2, keeps so; `None` where it keeps none so.
pub fn read_kept(
    alloc: Global,
    definition: &Definition,
    format: u8,
    bytes: &[u8],
) -> Result<Option<Row>, AllocError>
    ensures read { IfOk result (λ row. row ≡ read_kept definition.now format bytes.now) }
    // What is read is kept so.
    ensures found { IfOk result (λ r. IfSome r (λ row. IsRow definition.now row × (bytes.now ≡ kept_bytes format row))) }
    // What is kept so is read.
    ensures only { (row : Seq AnyValue) → IsRow definition.now row → bytes.now ≡ kept_bytes format row → IfOk result (λ r. r ≡ Some row) }
{
    kept_row(alloc, definition, format, bytes)
}
