//! Bytes as they are stored, read and written like the numbers.
//!
//! Counted bytes stand behind their number, which is stored in 1, 2 or 4 bytes.

ghost use Rattle.std.specs.Prelude.{◌≡◌, ◌+◌, ◌^◌, ◌<◌, ◌≤◌, ◌↔◌, ◌++◌, length, drop, IsTrue, OnOk};
ghost use Rattle.aria_page.specs.Field.{Gives};
ghost use Rattle.aria_page.specs.Text.{bytes_at, counted, counted_at};

use crate::list::Bytes;
use crate::number::{push_u8, push_u16, push_u32, u8_at, u16_at, u32_at};
use std::alloc::AllocError;

/// The bytes from a place on.
pub fn bytes_from(bytes: &[u8], at: usize) -> &[u8]
    requires { at ≤ length bytes.now }
    ensures value { result.now ≡ drop at bytes.now }
    ensures len { length result.now + at ≡ length bytes.now }
{
    &bytes[at..]
}

/// Whether both have the same bytes.
pub fn same_bytes(a: &[u8], b: &[u8]) -> bool
    ensures { IsTrue result ↔ (a.now ≡ b.now) }
{
    a == b
}

/// The first bytes, as many as are asked for, and the bytes after them; `None` where there are fewer.
#[tactic(auto, unfolding(crate::specs::Text::bytes_at))]
pub fn bytes_at(bytes: &[u8], count: usize) -> Option<(&[u8], &[u8])>
    ensures { Gives (λ x. (x.0.now, x.1.now)) result (bytes_at count bytes.now) }
{
    if bytes.len() < count {
        return None;
    }
    Some(bytes.split_at(count))
}

/// The bytes behind 1 byte with their number, and the bytes after them; `None` where they run out.
#[tactic(auto, unfolding(crate::specs::Text::counted_at))]
pub fn counted_u8_at(bytes: &[u8]) -> Option<(&[u8], &[u8])>
    ensures { Gives (λ x. (x.0.now, x.1.now)) result (counted_at 1 bytes.now) }
{
    let (count, rest) = u8_at(bytes)?;
    bytes_at(rest, count as usize)
}

/// The bytes behind 2 bytes with their number, and the bytes after them; `None` where they run out.
#[tactic(auto, unfolding(crate::specs::Text::counted_at))]
pub fn counted_u16_at(bytes: &[u8]) -> Option<(&[u8], &[u8])>
    ensures { Gives (λ x. (x.0.now, x.1.now)) result (counted_at 2 bytes.now) }
{
    let (count, rest) = u16_at(bytes)?;
    bytes_at(rest, count as usize)
}

/// The bytes behind 4 bytes with their number, and the bytes after them; `None` where they run out.
#[tactic(auto, unfolding(crate::specs::Text::counted_at))]
pub fn counted_u32_at(bytes: &[u8]) -> Option<(&[u8], &[u8])>
    ensures { Gives (λ x. (x.0.now, x.1.now)) result (counted_at 4 bytes.now) }
{
    let (count, rest) = u32_at(bytes)?;
    bytes_at(rest, count as usize)
}

/// Adds the bytes behind 1 byte with their number.
pub fn push_counted_u8(out: &mut Bytes, bytes: &[u8]) -> Result<(), AllocError>
    requires { length bytes.now < 2 ^ 8 }
    ensures { OnOk result (out.new ≡ out.old ++ counted 1 bytes.now) }
{
    push_u8(out, bytes.len() as u8)?;
    out.extend_from_slice(bytes)
}

/// Adds the bytes behind 2 bytes with their number.
pub fn push_counted_u16(out: &mut Bytes, bytes: &[u8]) -> Result<(), AllocError>
    requires { length bytes.now < 2 ^ 16 }
    ensures { OnOk result (out.new ≡ out.old ++ counted 2 bytes.now) }
{
    push_u16(out, bytes.len() as u16)?;
    out.extend_from_slice(bytes)
}

/// Adds the bytes behind 4 bytes with their number.
pub fn push_counted_u32(out: &mut Bytes, bytes: &[u8]) -> Result<(), AllocError>
    requires { length bytes.now < 2 ^ 32 }
    ensures { OnOk result (out.new ≡ out.old ++ counted 4 bytes.now) }
{
    push_u32(out, bytes.len() as u32)?;
    out.extend_from_slice(bytes)
}
