//! Numbers as they are stored: a fixed number of bytes, the highest first (docs/FORMATS.md).
//!
//! `u32_of` gives the number that stands in front, `u32_at` tests whether there is one and also gives the
//! bytes after it, `u32_bytes` gives the bytes of a number and `push_u32` adds them to others; and so for the
//! other sizes.

ghost use Rattle.std.specs.Prelude.{◌≡◌, ◌≤◌, ◌<◌, ◌^◌, ◌++◌, length, IfSome, OnOk, if◌then◌else◌};
ghost use Rattle.aria_page.specs.Field.{Gives};
ghost use Rattle.aria_page.specs.Number.{number, number_of, number_at};

use crate::list::Bytes;
use byteorder::{BigEndian, ByteOrder};
use std::alloc::AllocError;

/// The byte that a flag is stored in.
pub fn flag(holds: bool) -> u8
    ensures { result ≡ (if holds then 1 else 0) }
{
    if holds { 1 } else { 0 }
}

/// The number in the first 2 bytes.
#[tactic(auto, unfolding(crate::specs::Number::number_of))]
pub fn u16_of(bytes: &[u8]) -> u16
    requires { 2 ≤ length bytes.now }
    ensures { result ≡ number_of 2 bytes.now }
{
    BigEndian::read_u16(bytes)
}

/// The number in the first 3 bytes.
#[tactic(auto, unfolding(crate::specs::Number::number_of))]
pub fn u24_of(bytes: &[u8]) -> u32
    requires { 3 ≤ length bytes.now }
    ensures value { result ≡ number_of 3 bytes.now }
    ensures fits { result < 2 ^ 24 }
{
    BigEndian::read_u24(bytes)
}

/// The number in the first 4 bytes.
#[tactic(auto, unfolding(crate::specs::Number::number_of))]
pub fn u32_of(bytes: &[u8]) -> u32
    requires { 4 ≤ length bytes.now }
    ensures { result ≡ number_of 4 bytes.now }
{
    BigEndian::read_u32(bytes)
}

/// The number in the first 5 bytes.
#[tactic(auto, unfolding(crate::specs::Number::number_of))]
pub fn u40_of(bytes: &[u8]) -> u64
    requires { 5 ≤ length bytes.now }
    ensures value { result ≡ number_of 5 bytes.now }
    ensures fits { result < 2 ^ 40 }
{
    BigEndian::read_uint(bytes, 5)
}

/// The number in the first 8 bytes.
#[tactic(auto, unfolding(crate::specs::Number::number_of))]
pub fn u64_of(bytes: &[u8]) -> u64
    requires { 8 ≤ length bytes.now }
    ensures { result ≡ number_of 8 bytes.now }
{
    BigEndian::read_u64(bytes)
}

/// The number in the first byte, and the bytes after it; `None` where the bytes run out.
#[tactic(auto, unfolding(crate::specs::Number::number_at, crate::specs::Number::number_of))]
pub fn u8_at(bytes: &[u8]) -> Option<(u8, &[u8])>
    ensures { Gives (λ x. (x.0, x.1.now)) result (number_at 1 bytes.now) }
{
    if bytes.is_empty() {
        return None;
    }
    Some((bytes[0], &bytes[1..]))
}

/// The number in the first 2 bytes, and the bytes after it; `None` where the bytes run out.
#[tactic(auto, unfolding(crate::specs::Number::number_at))]
pub fn u16_at(bytes: &[u8]) -> Option<(u16, &[u8])>
    ensures { Gives (λ x. (x.0, x.1.now)) result (number_at 2 bytes.now) }
{
    if bytes.len() < 2 {
        return None;
    }
    Some((u16_of(bytes), &bytes[2..]))
}

/// The number in the first 3 bytes, and the bytes after it; `None` where the bytes run out.
#[tactic(auto, unfolding(crate::specs::Number::number_at))]
pub fn u24_at(bytes: &[u8]) -> Option<(u32, &[u8])>
    ensures value { Gives (λ x. (x.0, x.1.now)) result (number_at 3 bytes.now) }
    ensures fits { IfSome result (λ x. x.0 < 2 ^ 24) }
{
    if bytes.len() < 3 {
        return None;
    }
    Some((u24_of(bytes), &bytes[3..]))
}

/// The number in the first 4 bytes, and the bytes after it; `None` where the bytes run out.
#[tactic(auto, unfolding(crate::specs::Number::number_at))]
pub fn u32_at(bytes: &[u8]) -> Option<(u32, &[u8])>
    ensures { Gives (λ x. (x.0, x.1.now)) result (number_at 4 bytes.now) }
{
    if bytes.len() < 4 {
        return None;
    }
    Some((u32_of(bytes), &bytes[4..]))
}

/// The number in the first 5 bytes, and the bytes after it; `None` where the bytes run out.
#[tactic(auto, unfolding(crate::specs::Number::number_at))]
pub fn u40_at(bytes: &[u8]) -> Option<(u64, &[u8])>
    ensures value { Gives (λ x. (x.0, x.1.now)) result (number_at 5 bytes.now) }
    ensures fits { IfSome result (λ x. x.0 < 2 ^ 40) }
{
    if bytes.len() < 5 {
        return None;
    }
    Some((u40_of(bytes), &bytes[5..]))
}

/// The number in the first 8 bytes, and the bytes after it; `None` where the bytes run out.
#[tactic(auto, unfolding(crate::specs::Number::number_at))]
pub fn u64_at(bytes: &[u8]) -> Option<(u64, &[u8])>
    ensures { Gives (λ x. (x.0, x.1.now)) result (number_at 8 bytes.now) }
{
    if bytes.len() < 8 {
        return None;
    }
    Some((u64_of(bytes), &bytes[8..]))
}

/// The 2 bytes that a number is stored in.
#[tactic(auto, unfolding(crate::specs::Number::number))]
pub fn u16_bytes(n: u16) -> [u8; 2]
    ensures { result ≡ number 2 n }
{
    n.to_be_bytes()
}

/// The 3 bytes that a number below 2^24 is stored in; of another its lowest 3 bytes.
#[tactic(auto, unfolding(crate::specs::Number::number))]
pub fn u24_bytes(n: u32) -> [u8; 3]
    ensures { result ≡ number 3 n }
{
    let [_, a, b, c] = n.to_be_bytes();
    [a, b, c]
}

/// The 4 bytes that a number is stored in.
#[tactic(auto, unfolding(crate::specs::Number::number))]
pub fn u32_bytes(n: u32) -> [u8; 4]
    ensures { result ≡ number 4 n }
{
    n.to_be_bytes()
}

/// The 5 bytes that a number below 2^40 is stored in; of another its lowest 5 bytes.
#[tactic(auto, unfolding(crate::specs::Number::number))]
pub fn u40_bytes(n: u64) -> [u8; 5]
    ensures { result ≡ number 5 n }
{
    let [_, _, _, a, b, c, d, e] = n.to_be_bytes();
    [a, b, c, d, e]
}

/// The 8 bytes that a number is stored in.
#[tactic(auto, unfolding(crate::specs::Number::number))]
pub fn u64_bytes(n: u64) -> [u8; 8]
    ensures { result ≡ number 8 n }
{
    n.to_be_bytes()
}

/// Adds the byte that a number is stored in.
#[tactic(auto, unfolding(crate::specs::Number::number))]
pub fn push_u8(out: &mut Bytes, n: u8) -> Result<(), AllocError>
    ensures { OnOk result (out.new ≡ out.old ++ number 1 n) }
{
    out.push(n)
}

/// Adds the 2 bytes that a number is stored in.
pub fn push_u16(out: &mut Bytes, n: u16) -> Result<(), AllocError>
    ensures { OnOk result (out.new ≡ out.old ++ number 2 n) }
{
    out.extend_from_slice(&u16_bytes(n))
}

/// Adds the 4 bytes that a number is stored in.
pub fn push_u32(out: &mut Bytes, n: u32) -> Result<(), AllocError>
    ensures { OnOk result (out.new ≡ out.old ++ number 4 n) }
{
    out.extend_from_slice(&u32_bytes(n))
}

/// Adds the 5 bytes that a number below 2^40 is stored in; of another its lowest 5 bytes.
pub fn push_u40(out: &mut Bytes, n: u64) -> Result<(), AllocError>
    ensures { OnOk result (out.new ≡ out.old ++ number 5 n) }
{
    out.extend_from_slice(&u40_bytes(n))
}

/// Adds the 8 bytes that a number is stored in.
pub fn push_u64(out: &mut Bytes, n: u64) -> Result<(), AllocError>
    ensures { OnOk result (out.new ≡ out.old ++ number 8 n) }
{
    out.extend_from_slice(&u64_bytes(n))
}
