//! Texts, behind their opening quote.

ghost use Rattle.std.specs.Prelude.{◌≡◌, ◌<◌, false, drop, IfOk, IfSome};
ghost use Rattle.aria_model.specs.Token.{hex_value, begins_quote};
ghost use Rattle.aria_statement.specs.Texts.{begins_hex, text_length, undoubled, front_pair, hex_length, hex_bytes};

use aria_page::{Bytes, List};
use std::alloc::{AllocError, Global};

/// What is left of the bytes from one on.
pub fn bytes_from(bytes: &[u8], at: usize) -> &[u8]
    ensures { result.now ≡ drop at bytes.now }
{
    if at < bytes.len() { &bytes[at..] } else { &[] }
}

/// Whether a quote comes first.
pub fn begins_quote(bytes: &[u8]) -> bool
    ensures { result ≡ begins_quote bytes.now }
{
    match bytes {
        [] => false,
        [first, ..] => *first == b'\'',
    }
}

/// Whether a hexadecimal text comes first: an x and a quote.
pub fn begins_hex(bytes: &[u8]) -> bool
    ensures { result ≡ begins_hex bytes.now }
{
    match bytes {
        [] => false,
        [first, behind @ ..] => *first == b'x' && begins_quote(behind),
    }
}

/// How many bytes of a text stand in front of the quote that ends it.
pub fn text_length(bytes: &[u8]) -> Option<usize>
    ensures { result ≡ text_length bytes.now }
{
    let mut at = 0;
    while at < bytes.len() {
        if bytes[at] != b'\'' {
            at += 1;
            continue;
        }
        if !begins_quote(bytes_from(bytes, at + 1)) {
            return Some(at);
        }
        at += 2;
    }
    None
}

/// The bytes that a text means: of two quotes that follow each other it has one.
pub fn undoubled(alloc: Global, text: &[u8]) -> Result<Bytes, AllocError>
    ensures { IfOk result (λ bytes. bytes ≡ undoubled false text.now) }
{
    let mut bytes = List::new(alloc);
    let mut second = false;
    for byte in text {
        if second {
            second = false;
            continue;
        }
        bytes.push(*byte)?;
        second = *byte == b'\'';
    }
    Ok(bytes)
}

fn hex_value(byte: u8) -> Option<u8>
    ensures same { result ≡ hex_value byte }
    ensures small { IfSome result (λ value. value < 16) }
{
    match byte {
        b'0'..=b'9' => Some(byte - b'0'),
        b'a'..=b'f' => Some(byte - b'a' + 10),
        b'A'..=b'F' => Some(byte - b'A' + 10),
        _ => None,
    }
}

// The byte that two hexadecimal digits in front spell.
fn front_pair(bytes: &[u8]) -> Option<u8>
    ensures { result ≡ front_pair bytes.now }
{
    let [high, low, ..] = bytes else {
        return None;
    };
    let high = hex_value(*high)?;
    let low = hex_value(*low)?;
    Some(16 * high + low)
}

/// How many bytes of a hexadecimal text stand in front of the quote that ends it.
pub fn hex_length(bytes: &[u8]) -> Option<usize>
    ensures { result ≡ hex_length bytes.now }
{
    let mut at = 0;
    while at < bytes.len() {
        if bytes[at] == b'\'' {
            return Some(at);
        }
        match front_pair(bytes_from(bytes, at)) {
            None => return None,
            Some(_) => at += 2,
        }
    }
    None
}

/// The bytes that a hexadecimal text means.
pub fn hex_bytes(alloc: Global, text: &[u8]) -> Result<Bytes, AllocError>
    ensures { IfOk result (λ bytes. bytes ≡ hex_bytes text.now) }
{
    let mut bytes = List::new(alloc);
    let mut at = 0;
    while let Some(byte) = front_pair(bytes_from(text, at)) {
        bytes.push(byte)?;
        at += 2;
    }
    Ok(bytes)
}
