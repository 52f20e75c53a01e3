//! What a head says of its row.

ghost use Rattle.std.specs.Prelude.{◌≡◌, ◌≤◌, ◌+◌, IfSome, MatchOption, length};
ghost use Rattle.aria_block.specs.declared.layout.TheConstants.{HEAD_FIELDS};
ghost use Rattle.aria_block.specs.Pieces.{head_of};
ghost use Rattle.aria_block.specs.Rows.{Kept, IsLaid};
ghost use Rattle.aria_block.specs.Reading.{FitsHead, HasNumbers, InRange, IsHead, IsHeadOf, FieldsOf};

use crate::layout::{HEAD_FIELDS, ROW_MAX};
use crate::row_sizes::{blob_count, head_size, tail_size};
use aria_page::{Place, bytes_from, u32_of};

/// The numbers in front of a head's row bytes.
#[derive(Clone, Copy)]
pub struct HeadNumbers {
    pub len: u32,
    pub page: u32,
    pub slot: u8,
    pub blob: u32,
    pub blobs: u8,
}

/// What a head says of its row: its length, its tail where it has one, and its blob pages.
#[derive(Clone, Copy)]
pub struct HeadFields {
    pub len: u32,
    pub tail: Option<Place>,
    pub blob: u32,
    pub blobs: u8,
}

// The numbers that the bytes begin with.
fn numbers_in(bytes: &[u8]) -> HeadNumbers
    requires { HEAD_FIELDS ≤ length bytes.now }
    ensures numbers { HasNumbers bytes.now result }
    ensures range { InRange result }
{
    HeadNumbers {
        len: u32_of(bytes),
        page: u32_of(bytes_from(bytes, 4)),
        slot: bytes[8],
        blob: u32_of(bytes_from(bytes, 9)),
        blobs: bytes[13],
    }
}

// What these numbers say of a row, with so many row bytes behind them; `None` where they don't fit each other.
fn fields_of(n: HeadNumbers, size: usize) -> Option<HeadFields>
    ensures { FieldsOf n size result }
{
    let len = n.len as usize;
    if len > ROW_MAX {
        return None;
    }
    if size != head_size(len) {
        return None;
    }
    if n.blobs as usize != blob_count(len) {
        return None;
    }
    if tail_size(len) > 0 {
        return Some(HeadFields {
            len: n.len,
            tail: Some(Place {
                page: n.page,
                slot: n.slot,
            }),
            blob: n.blob,
            blobs: n.blobs,
        });
    }
    if n.page > 0 || n.slot > 0 {
        return None;
    }
    Some(HeadFields {
        len: n.len,
        tail: None,
        blob: n.blob,
        blobs: n.blobs,
    })
}

/// What a head says of its row; `None` where the bytes are no head of a row.
pub fn head_in(bytes: &[u8]) -> Option<HeadFields>
    ensures head { IfSome result (λ h. IsHead bytes.now h) }
    ensures row { (k : Kept) → IsLaid k → FitsHead k → bytes.now ≡ head_of k.places k.row → MatchOption result ⊥ (λ h. IsHeadOf k h) }
{
    if bytes.len() < HEAD_FIELDS {
        return None;
    }
    fields_of(numbers_in(bytes), bytes.len() - HEAD_FIELDS)
}
