use crate::{Refusal, Reply, Which, push_reply_text, push_row_text, reply_text, row_text};
use aria_page::{Bytes, List, Name};
use aria_value::Value;
use std::alloc::AllocError;

#[test]
fn each_reply_is_told_on_a_line(rt: HostRuntime) -> Result<(), AllocError> {
    let alloc = rt.alloc();
    let replies: [(Reply, &str); 4] = [
        (Reply::Done, "ok\n"),
        (Reply::Count(0), "ok 0\n"),
        (Reply::Count(2), "ok 2\n"),
        (Reply::Count(u64::MAX), "ok 18446744073709551615\n"),
    ];
    for (reply, line) in &replies {
        let told = reply_text(alloc, reply)?;
        assert_eq!(rt; told.as_slice(), line.as_bytes());
    }
    Ok(())
}

#[test]
fn each_refusal_is_told_in_its_words(rt: HostRuntime) -> Result<(), AllocError> {
    let alloc = rt.alloc();
    let who = Name::read(b"people").ok_or(AllocError)?;
    let refusals: [(Refusal, &str); 16] = [
        (Refusal::BadStatement { at: 7 }, "no bad statement at 7\n"),
        (Refusal::LineTooLong, "no line too long\n"),
        (
            Refusal::NumberTooWide { at: 0 },
            "no number too wide at 0\n",
        ),
        (
            Refusal::LogSpent { file: 16_000_000 },
            "no log spent 16000000\n",
        ),
        (
            Refusal::TableFull {
                pages: 1_073_741_824,
            },
            "no table full 1073741824\n",
        ),
        (
            Refusal::TableCrashed { name: who },
            "no table crashed people\n",
        ),
        (Refusal::Duplicate { key: who }, "no duplicate people\n"),
        (Refusal::RowTooLong, "no row too long\n"),
        (Refusal::BadValue { column: who }, "no bad value people\n"),
        (Refusal::RowsFull, "no rows full\n"),
        (Refusal::NoTable { name: who }, "no table people\n"),
        (
            Refusal::TableExists { name: who },
            "no table exists people\n",
        ),
        (Refusal::NoKey { name: who }, "no key people\n"),
        (Refusal::TooManyRows, "no too many rows\n"),
        (Refusal::NoColumn { name: who }, "no column people\n"),
        (Refusal::NotBuilt, "no not built\n"),
    ];
    for (refusal, line) in &refusals {
        let mut told = Bytes::new(alloc);
        push_reply_text(&mut told, &Reply::No(*refusal))?;
        assert_eq!(rt; told.as_slice(), line.as_bytes());
    }
    Ok(())
}

#[test]
fn a_bad_definition_is_told_by_its_word(rt: HostRuntime) -> Result<(), AllocError> {
    let alloc = rt.alloc();
    let words: [(Which, &str); 8] = [
        (Which::Packed, "no bad definition packed\n"),
        (Which::MaxRows, "no bad definition max_rows\n"),
        (Which::Columns, "no bad definition columns\n"),
        (Which::Kind, "no bad definition type\n"),
        (Which::Keys, "no bad definition keys\n"),
        (Which::Spatial, "no bad definition spatial\n"),
        (Which::Fulltext, "no bad definition fulltext\n"),
        (Which::Entry, "no bad definition entry\n"),
    ];
    for (which, line) in &words {
        let told = reply_text(alloc, &Reply::No(Refusal::BadDefinition { which: *which }))?;
        assert_eq!(rt; told.as_slice(), line.as_bytes());
    }
    Ok(())
}

#[test]
fn a_row_is_told_on_a_line(rt: HostRuntime) -> Result<(), AllocError> {
    let alloc = rt.alloc();
    let mut row = List::new(alloc);
    row.push(Value::Null)?;
    row.push(Value::Int(-1))?;
    row.push(Value::Text(Bytes::from_slice(alloc, b"it's")?))?;
    let mut told = Bytes::new(alloc);
    push_row_text(&mut told, &row)?;
    assert_eq!(rt; told.as_slice(), "row null,-1,'it''s'\n".as_bytes());
    Ok(())
}

#[test]
fn a_number_is_told_in_decimal(rt: HostRuntime) -> Result<(), AllocError> {
    let alloc = rt.alloc();
    let numbers: [(i64, &str); 3] = [
        (0, "row 0\n"),
        (i64::MIN, "row -9223372036854775808\n"),
        (i64::MAX, "row 9223372036854775807\n"),
    ];
    for (number, line) in &numbers {
        let mut row = List::new(alloc);
        row.push(Value::Int(*number))?;
        let told = row_text(alloc, &row)?;
        assert_eq!(rt; told.as_slice(), line.as_bytes());
    }
    Ok(())
}

#[test]
fn a_text_that_is_not_printed_is_told_in_digits(rt: HostRuntime) -> Result<(), AllocError> {
    let alloc = rt.alloc();
    let texts: [(&[u8], &str); 5] = [
        (b"", "row ''\n"),
        (b" ~", "row ' ~'\n"),
        (b"\x00", "row x'00'\n"),
        (b"a\x7f", "row x'617f'\n"),
        (b"'\xab\n", "row x'27ab0a'\n"),
    ];
    for (bytes, line) in &texts {
        let mut row = List::new(alloc);
        row.push(Value::Text(Bytes::from_slice(alloc, bytes)?))?;
        let told = row_text(alloc, &row)?;
        assert_eq!(rt; told.as_slice(), line.as_bytes());
    }
    Ok(())
}
