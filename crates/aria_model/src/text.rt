//! How rows and replies are spelled (docs/LANGUAGE.md, "Replies").

ghost use Rattle.std.specs.Prelude.{◌≡◌, ◌<◌, ◌==◌, ◌++◌, decimal, codes, OnOk, IfOk, MatchOption};
ghost use Rattle.std.specs.List.{list_all, flat_map, join_by, position};
ghost use Rattle.std.specs.Fmt.{signed_decimal};
ghost use Rattle.aria_value.specs.declared.value.Value.TheVariants.{Text};
ghost use Rattle.aria_model.specs.declared.reply.Reply.TheVariants.{Count, No};
ghost use Rattle.aria_model.specs.Text.{is_printed, quoted, CutsAtQuote, hex_digit, hex, value_text, which_text, refusal_text, row_text as row_spelled, reply_text as reply_spelled, HasNoLineEnd, IsOneLine};

use crate::refusal::{Refusal, Which};
use crate::reply::Reply;
use aria_page::{Bytes, Name};
use aria_value::{Row, Value};
use itoa::Buffer;
use std::alloc::{AllocError, Global};

fn push_decimal(out: &mut Bytes, number: u64) -> Result<(), AllocError>
    ensures { OnOk result (out.new ≡ out.old ++ decimal number) }
{
    let mut buffer = Buffer::new();
    out.extend_from_slice(buffer.format(number).as_bytes())
}

fn push_signed_decimal(out: &mut Bytes, number: i64) -> Result<(), AllocError>
    ensures { OnOk result (out.new ≡ out.old ++ signed_decimal number) }
{
    let mut buffer = Buffer::new();
    out.extend_from_slice(buffer.format(number).as_bytes())
}

fn all_printed(bytes: &[u8]) -> bool
    ensures { result ≡ list_all is_printed bytes.now }
{
    bytes.iter().all(|byte| matches!(*byte, b' '..=b'~'))
}

fn first_quote(bytes: &[u8]) -> Option<usize>
    ensures { result ≡ position (λ b. b == 39) bytes.now }
{
    bytes.iter().position(|byte| *byte == b'\'')
}

// The bytes in front of the first quote, and those behind it.
fn cut_at_quote(bytes: &[u8]) -> Option<(&[u8], &[u8])>
    ensures { MatchOption result (flat_map quoted bytes.now ≡ bytes.now) (λ parts. CutsAtQuote bytes.now parts.0.now parts.1.now) }
{
    let at = first_quote(bytes)?;
    Some((&bytes[..at], &bytes[at + 1..]))
}

// A text is told run by run between its quotes, since most have none.
fn push_quoted(out: &mut Bytes, bytes: &[u8]) -> Result<(), AllocError>
    ensures { OnOk result (out.new ≡ out.old ++ flat_map quoted bytes.now) }
{
    let mut rest = bytes;
    while let Some((run, behind)) = cut_at_quote(rest) {
        push_both(out, run, b"''")?;
        rest = behind;
    }
    out.extend_from_slice(rest)
}

fn hex_digit(digit: u8) -> u8
    requires { digit < 16 }
    ensures { result ≡ hex_digit digit }
{
    if digit < 10 {
        b'0' + digit
    } else {
        b'a' - 10 + digit
    }
}

fn push_hex_byte(out: &mut Bytes, byte: u8) -> Result<(), AllocError>
    ensures { OnOk result (out.new ≡ out.old ++ hex byte) }
{
    out.extend_from_slice(&[hex_digit(byte / 16), hex_digit(byte % 16)])
}

fn push_hex(out: &mut Bytes, bytes: &[u8]) -> Result<(), AllocError>
    ensures { OnOk result (out.new ≡ out.old ++ flat_map hex bytes.now) }
{
    for byte in bytes {
        push_hex_byte(out, *byte)?;
    }
    Ok(())
}

fn push_text(out: &mut Bytes, bytes: &[u8]) -> Result<(), AllocError>
    ensures { OnOk result (out.new ≡ out.old ++ value_text (Text bytes.now)) }
{
    if all_printed(bytes) {
        out.push(b'\'')?;
        push_quoted(out, bytes)?;
    } else {
        out.extend_from_slice(b"x'")?;
        push_hex(out, bytes)?;
    }
    out.push(b'\'')
}

fn push_value(out: &mut Bytes, value: &Value) -> Result<(), AllocError>
    ensures { OnOk result (out.new ≡ out.old ++ value_text value.now) }
{
    match value {
        Value::Null => out.extend_from_slice(b"null"),
        Value::Int(number) => push_signed_decimal(out, *number),
        Value::Text(bytes) => push_text(out, bytes.as_slice()),
    }
}

fn push_further_values(out: &mut Bytes, values: &[Value]) -> Result<(), AllocError>
    ensures { OnOk result (out.new ≡ out.old ++ flat_map (λ value. codes "," ++ value_text value) values.now) }
{
    for value in values {
        out.push(b',')?;
        push_value(out, value)?;
    }
    Ok(())
}

fn push_values(out: &mut Bytes, values: &[Value]) -> Result<(), AllocError>
    ensures { OnOk result (out.new ≡ out.old ++ join_by value_text (codes ",") values.now) }
{
    match values {
        [] => Ok(()),
        [first, further @ ..] => {
            push_value(out, first)?;
            push_further_values(out, further)
        }
    }
}

fn which_text(which: Which) -> &'static [u8]
    ensures { result.now ≡ which_text which }
{
    match which {
        Which::Packed => b"packed",
        Which::MaxRows => b"max_rows",
        Which::Columns => b"columns",
        Which::Kind => b"type",
        Which::Keys => b"keys",
        Which::Spatial => b"spatial",
        Which::Fulltext => b"fulltext",
        Which::Entry => b"entry",
    }
}

fn push_both(out: &mut Bytes, first: &[u8], second: &[u8]) -> Result<(), AllocError>
    ensures { OnOk result (out.new ≡ out.old ++ (first.now ++ second.now)) }
{
    out.extend_from_slice(first)?;
    out.extend_from_slice(second)
}

fn push_named(out: &mut Bytes, what: &[u8], name: &Name) -> Result<(), AllocError>
    ensures spelled { OnOk result (out.new ≡ out.old ++ (what.now ++ name.now)) }
    ensures on_line { HasNoLineEnd what.now → HasNoLineEnd (what.now ++ name.now) }
{
    push_both(out, what, name.as_slice())
}

fn push_counted(out: &mut Bytes, what: &[u8], number: u64) -> Result<(), AllocError>
    ensures { OnOk result (out.new ≡ out.old ++ (what.now ++ decimal number)) }
{
    out.extend_from_slice(what)?;
    push_decimal(out, number)
}

fn push_refusal_text(out: &mut Bytes, refusal: &Refusal) -> Result<(), AllocError>
    ensures spelled { OnOk result (out.new ≡ out.old ++ refusal_text refusal.now) }
    ensures on_line { HasNoLineEnd (refusal_text refusal.now) }
{
    match refusal {
        Refusal::BadStatement { at } => push_counted(out, b"bad statement at ", *at),
        Refusal::LineTooLong => out.extend_from_slice(b"line too long"),
        Refusal::NumberTooWide { at } => push_counted(out, b"number too wide at ", *at),
        Refusal::LogSpent { file } => push_counted(out, b"log spent ", u64::from(*file)),
        Refusal::TableFull { pages } => push_counted(out, b"table full ", u64::from(*pages)),
        Refusal::TableCrashed { name } => push_named(out, b"table crashed ", name),
        Refusal::Duplicate { key } => push_named(out, b"duplicate ", key),
        Refusal::RowTooLong => out.extend_from_slice(b"row too long"),
        Refusal::BadValue { column } => push_named(out, b"bad value ", column),
        Refusal::RowsFull => out.extend_from_slice(b"rows full"),
        Refusal::NoTable { name } => push_named(out, b"table ", name),
        Refusal::TableExists { name } => push_named(out, b"table exists ", name),
        Refusal::NoKey { name } => push_named(out, b"key ", name),
        Refusal::TooManyRows => out.extend_from_slice(b"too many rows"),
        Refusal::BadDefinition { which } => push_both(out, b"bad definition ", which_text(*which)),
        Refusal::NoColumn { name } => push_named(out, b"column ", name),
        Refusal::NotBuilt => out.extend_from_slice(b"not built"),
    }
}

/// Adds a row's line, with its LF. After an `Err` what `out` holds is not to be told.
pub fn push_row_text(out: &mut Bytes, row: &Row) -> Result<(), AllocError>
    ensures { OnOk result (out.new ≡ out.old ++ row_spelled row.now) }
{
    out.extend_from_slice(b"row ")?;
    push_values(out, row.as_slice())?;
    out.push(b'\n')
}

fn push_count(out: &mut Bytes, number: u64) -> Result<(), AllocError>
    ensures { OnOk result (out.new ≡ out.old ++ reply_spelled (Count number)) }
{
    push_counted(out, b"ok ", number)?;
    out.push(b'\n')
}

fn push_refused(out: &mut Bytes, refusal: &Refusal) -> Result<(), AllocError>
    ensures spelled { OnOk result (out.new ≡ out.old ++ reply_spelled (No refusal.now)) }
    ensures one_line { OnOk result (IsOneLine (reply_spelled (No refusal.now))) }
{
    out.extend_from_slice(b"no ")?;
    push_refusal_text(out, refusal)?;
    out.push(b'\n')
}

/// Adds a reply's line, with its LF. After an `Err` what `out` holds is not to be told.
pub fn push_reply_text(out: &mut Bytes, reply: &Reply) -> Result<(), AllocError>
    ensures spelled { OnOk result (out.new ≡ out.old ++ reply_spelled reply.now) }
    ensures one_line { OnOk result (IsOneLine (reply_spelled reply.now)) }
{
    match reply {
        Reply::Done => out.extend_from_slice(b"ok\n"),
        Reply::Count(number) => push_count(out, *number),
        Reply::No(refusal) => push_refused(out, refusal),
    }
}

/// A row's line, with its LF.
pub fn row_text(alloc: Global, row: &Row) -> Result<Bytes, AllocError>
    ensures { IfOk result (λ text. text ≡ row_spelled row.now) }
{
    let mut text = Bytes::new(alloc);
    push_row_text(&mut text, row)?;
    Ok(text)
}

/// A reply's line, with its LF.
pub fn reply_text(alloc: Global, reply: &Reply) -> Result<Bytes, AllocError>
    ensures spelled { IfOk result (λ text. text ≡ reply_spelled reply.now) }
    ensures one_line { IfOk result (λ _. IsOneLine (reply_spelled reply.now)) }
{
    let mut text = Bytes::new(alloc);
    push_reply_text(&mut text, reply)?;
    Ok(text)
}
