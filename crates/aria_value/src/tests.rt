//! Stored forms, byte by byte.

use super::*;
use aria_page::{List, Lsn, Name, Page, checksum};
use std::alloc::{AllocError, Global};

fn column(name: &[u8], kind: ColumnType) -> Result<Column, AllocError> {
    let name = Name::read(name).ok_or(AllocError)?;
    Ok(Column { name, kind })
}

fn key(alloc: Global, name: &[u8], columns: &[u8]) -> Result<Key, AllocError> {
    let name = Name::read(name).ok_or(AllocError)?;
    let columns = List::from_slice(alloc, columns)?;
    Ok(Key { name, columns })
}

// The columns id, a number, and name, a text of up to so many bytes, with a key on each.
fn table(alloc: Global, longest_name: u32) -> Result<Definition, AllocError> {
    let mut columns = List::new(alloc);
    columns.push(column(b"id", ColumnType::Int)?)?;
    columns.push(column(b"name", ColumnType::Text(longest_name))?)?;
    let mut keys = List::new(alloc);
    keys.push(key(alloc, b"k1", &[0])?)?;
    keys.push(key(alloc, b"k2", &[1])?)?;
    Ok(Definition {
        columns,
        keys,
        max_rows: MAX_ROWS,
    })
}

fn is_row(row: &Row, id: i64, name: &[u8]) -> bool {
    match row.as_slice() {
        [Value::Int(n), Value::Text(text)] => *n == id && text.as_slice() == name,
        _ => false,
    }
}

#[test]
fn a_row_is_stored_value_by_value(rt: HostRuntime) -> Result<(), AllocError> {
    let alloc = rt.alloc();
    let mut row = List::new(alloc);
    row.push(Value::Int(1))?;
    row.push(Value::Text(List::from_slice(alloc, b"a")?))?;
    let bytes = encode_row(alloc, &row)?;
    assert_eq!(rt;
        bytes.as_slice(),
        [1, 0, 0, 0, 0, 0, 0, 0, 1, 2, 0, 0, 0, 1, 0x61].as_slice()
    );

    let mut row = List::new(alloc);
    row.push(Value::Null)?;
    row.push(Value::Int(-2))?;
    let bytes = encode_row(alloc, &row)?;
    assert_eq!(rt;
        bytes.as_slice(),
        [0, 1, 255, 255, 255, 255, 255, 255, 255, 254].as_slice()
    );
    Ok(())
}

#[test]
fn a_stored_row_is_read_again(rt: HostRuntime) -> Result<(), AllocError> {
    let alloc = rt.alloc();
    let table = table(alloc, 20)?;
    let bytes = [1, 128, 0, 0, 0, 0, 0, 0, 0, 2, 0, 0, 0, 2, 0x61, 0];
    match decode_row(alloc, &table, &bytes)? {
        None => assert!(rt; false),
        Some(row) => assert!(rt; is_row(&row, i64::MIN, b"a\0")),
    }
    Ok(())
}

fn spells_a_row(alloc: Global, table: &Definition, bytes: &[u8]) -> Result<bool, AllocError> {
    Ok(decode_row(alloc, table, bytes)?.is_some())
}

#[test]
fn bytes_that_spell_a_row_and_others(rt: HostRuntime) -> Result<(), AllocError> {
    let alloc = rt.alloc();
    let table = table(alloc, 2)?;
    for (bytes, is_good) in [
        (b"\x01\0\0\0\0\0\0\0\x01\x02\0\0\0\x01a".as_slice(), true),
        (b"\x01\0\0\0\0\0\0\0\x01\x02\0\0\0\x02ab".as_slice(), true),
        (b"\x01\0\0\0\0\0\0\0\x01\0".as_slice(), true),
        // one byte more, and one less
        (b"\x01\0\0\0\0\0\0\0\x01\x02\0\0\0\x01ab".as_slice(), false),
        (b"\x01\0\0\0\0\0\0\0\x01\x02\0\0\0\x02a".as_slice(), false),
        // a value is missing, or one too many
        (b"".as_slice(), false),
        (b"\x01\0\0\0\0\0\0\0\x01".as_slice(), false),
        (b"\x01\0\0\0\0\0\0\0\x01\0\0".as_slice(), false),
        // no such kind
        (b"\x01\0\0\0\0\0\0\0\x01\x03".as_slice(), false),
        // null in the first key, and values of the other type
        (b"\0\0".as_slice(), false),
        (b"\x02\0\0\0\0\0".as_slice(), false),
        (
            b"\x01\0\0\0\0\0\0\0\x01\x01\0\0\0\0\0\0\0\x01".as_slice(),
            false,
        ),
        // a text that is too long for its column
        (b"\x01\0\0\0\0\0\0\0\x01\x02\0\0\0\x03abc".as_slice(), false),
    ] {
        assert_eq!(rt; spells_a_row(alloc, &table, bytes)?, is_good);
    }
    Ok(())
}

#[test]
fn a_stored_row_has_at_most_65536_bytes(rt: HostRuntime) -> Result<(), AllocError> {
    let alloc = rt.alloc();
    let table = table(alloc, MAX_TEXT_BYTES)?;
    // 9 bytes of a number, 5 bytes before the text, and its bytes
    for (length, is_good) in [(65_522_u32, true), (65_523_u32, false)] {
        let mut bytes = List::from_slice(alloc, &[1, 0, 0, 0, 0, 0, 0, 0, 1, 2])?;
        bytes.extend_from_slice(&length.to_be_bytes())?;
        for _ in 0..length {
            bytes.push(0x61)?;
        }
        assert_eq!(rt; spells_a_row(alloc, &table, bytes.as_slice())?, is_good);
    }
    Ok(())
}

// The definition of the columns id and name with a key on each, and up to 16777216 rows.
const STORED: [u8; 34] = [
    2, 2, 0x69, 0x64, 0, 0, 0, 0, 0, 4, 0x6E, 0x61, 0x6D, 0x65, 1, 0, 0, 0, 20, 2, 2, 0x6B, 0x31,
    1, 0, 2, 0x6B, 0x32, 1, 1, 1, 0, 0, 0,
];

fn spells_a_definition(alloc: Global, bytes: &[u8]) -> Result<bool, AllocError> {
    Ok(decode_definition(alloc, bytes)?.is_some())
}

fn is_last_key(keys: &[Key], columns: &[u8]) -> bool {
    match keys.last() {
        Some(key) => key.columns.as_slice() == columns,
        None => false,
    }
}

#[test]
fn a_definition_is_stored_part_by_part(rt: HostRuntime) -> Result<(), AllocError> {
    let alloc = rt.alloc();
    match decode_definition(alloc, &STORED)? {
        None => assert!(rt; false),
        Some(definition) => {
            assert_eq!(rt; definition.columns.len(), 2);
            assert_eq!(rt; definition.columns.as_slice()[1].kind, ColumnType::Text(20));
            assert_eq!(rt; definition.keys.len(), 2);
            assert!(rt; is_last_key(definition.keys.as_slice(), &[1]));
            assert_eq!(rt; definition.max_rows, MAX_ROWS);
            let bytes = encode_definition(alloc, &definition)?;
            assert_eq!(rt; bytes.as_slice(), STORED.as_slice());
        }
    }
    Ok(())
}

// The bytes with one of them changed.
fn with_byte(at: usize, byte: u8) -> [u8; 34] {
    let mut bytes = STORED;
    if at < bytes.len() {
        bytes[at] = byte;
    }
    bytes
}

#[test]
fn bytes_that_spell_a_definition_and_others(rt: HostRuntime) -> Result<(), AllocError> {
    let alloc = rt.alloc();
    for (at, byte, is_good) in [
        (34, 0, true),
        // another name, and a text of 276 bytes
        (2, b'_', true),
        (17, 1, true),
        // no rows, and one too many
        (30, 0, false),
        (33, 1, false),
        // numbers of columns and keys
        (0, 1, false),
        (19, 1, false),
        // the name of a column is no word, and the length of a name
        (2, b'1', false),
        (1, 3, false),
        // no such type, and a number with a limit
        (4, 2, false),
        (8, 1, false),
        // a text of 0 bytes, and one of 65556
        (18, 0, false),
        (16, 1, false),
        // two keys of a name
        (27, b'1', false),
        // no such column, and a key without columns
        (29, 2, false),
        (28, 0, false),
    ] {
        assert_eq!(rt; spells_a_definition(alloc, &with_byte(at, byte))?, is_good);
    }
    assert!(rt; !spells_a_definition(alloc, &STORED[..33])?);
    assert!(rt; !spells_a_definition(alloc, &[])?);
    Ok(())
}

// The longest entry of k2 is that of a name, 2 * 494 + 3 bytes, and that of an id, 9 bytes.
#[test]
fn an_entry_has_at_most_1000_bytes(rt: HostRuntime) -> Result<(), AllocError> {
    let alloc = rt.alloc();
    for (limit, is_good) in [(494_u16, true), (495, false)] {
        let mut bytes = STORED;
        let [high, low] = limit.to_be_bytes();
        bytes[17] = high;
        bytes[18] = low;
        assert_eq!(rt; spells_a_definition(alloc, &bytes)?, is_good);
    }
    Ok(())
}

fn row_of(alloc: Global, id: i64, name: Option<&[u8]>) -> Result<Row, AllocError> {
    let mut row = List::new(alloc);
    row.push(Value::Int(id))?;
    match name {
        None => row.push(Value::Null)?,
        Some(name) => row.push(Value::Text(List::from_slice(alloc, name)?))?,
    }
    Ok(row)
}

#[test]
fn an_entry_has_the_parts_of_its_columns(rt: HostRuntime) -> Result<(), AllocError> {
    let alloc = rt.alloc();
    let table = table(alloc, 20)?;
    let first = row_of(alloc, 1, Some(b"a"))?;
    let second = row_of(alloc, 2, None)?;
    let low = row_of(alloc, -1, Some(b"\0b"))?;
    assert_eq!(rt;
        entry(alloc, &table, 0, &first)?.as_slice(),
        b"\x01\x80\0\0\0\0\0\0\x01".as_slice()
    );
    assert_eq!(rt;
        entry(alloc, &table, 1, &first)?.as_slice(),
        b"\x01a\0\0\x01\x80\0\0\0\0\0\0\x01".as_slice()
    );
    assert_eq!(rt;
        entry(alloc, &table, 1, &second)?.as_slice(),
        b"\0\x01\x80\0\0\0\0\0\0\x02".as_slice()
    );
    assert_eq!(rt;
        entry(alloc, &table, 1, &low)?.as_slice(),
        b"\x01\0\xFFb\0\0\x01\x7F\xFF\xFF\xFF\xFF\xFF\xFF\xFF".as_slice()
    );
    Ok(())
}

#[test]
fn a_prefix_has_the_parts_of_its_values(rt: HostRuntime) -> Result<(), AllocError> {
    let alloc = rt.alloc();
    let table = table(alloc, 20)?;
    let mut values = List::new(alloc);
    assert_eq!(rt;
        prefix(alloc, &table, 1, values.as_slice())?.as_slice(),
        b"".as_slice()
    );
    values.push(Value::Text(List::from_slice(alloc, b"a\0")?))?;
    assert_eq!(rt;
        prefix(alloc, &table, 1, values.as_slice())?.as_slice(),
        b"\x01a\0\xFF\0\0".as_slice()
    );
    Ok(())
}

#[test]
fn a_row_is_kept_with_its_checksum_in_format_2(rt: HostRuntime) -> Result<(), AllocError> {
    let alloc = rt.alloc();
    let table = table(alloc, 20)?;
    let mut row = List::new(alloc);
    row.push(Value::Int(1))?;
    row.push(Value::Text(List::from_slice(alloc, b"a")?))?;
    let stored = encode_row(alloc, &row)?;
    let first = keep_row(alloc, 1, &row)?;
    let second = keep_row(alloc, 2, &row)?;
    assert_eq!(rt; first.as_slice(), stored.as_slice());
    assert_eq!(rt; second.len(), 19);
    let sum = checksum(stored.as_slice()).to_be_bytes();
    assert!(rt; second.as_slice().starts_with(stored.as_slice()));
    assert!(rt; second.as_slice().ends_with(&sum));
    assert!(rt; read_kept(alloc, &table, 1, first.as_slice())?.is_some());
    assert!(rt; read_kept(alloc, &table, 2, second.as_slice())?.is_some());
    assert!(rt; read_kept(alloc, &table, 1, second.as_slice())?.is_none());
    assert!(rt; read_kept(alloc, &table, 2, first.as_slice())?.is_none());
    assert!(rt; read_kept(alloc, &table, 2, b"abc")?.is_none());
    Ok(())
}

// The page with another byte in its body, and a checksum that fits.
fn with_body_byte(page: &Page, at: usize, byte: u8) -> Page {
    let mut page = *page;
    if at < 8181 {
        page.put(11 + at, &[byte]);
        page.sum();
    }
    page
}

const CREATED: Lsn = Lsn {
    file: 1,
    offset: 16,
};

fn spells_a_header(alloc: Global, page: &Page) -> Result<bool, AllocError> {
    Ok(read_header(alloc, page)?.is_some())
}

fn is_new(header: &Header, plain: bool, format: u8) -> bool {
    header.plain == plain
        && !header.marked
        && header.created == CREATED
        && header.rows == 0
        && header.free == 0
        && header.roots == [0; 8]
        && header.end == 0
        && header.definition.columns.len() == 2
        && header.format == format
}

#[test]
fn the_first_pages_of_a_table(rt: HostRuntime) -> Result<(), AllocError> {
    let alloc = rt.alloc();
    let Some(table) = decode_definition(alloc, &STORED)? else {
        return Err(AllocError);
    };
    let (index, data) = first_pages(alloc, &table, false, CREATED, 1)?;
    assert!(rt; index.is_sound() && data.is_sound());
    assert!(rt; index.lsn() == CREATED && data.lsn() == CREATED);
    assert!(rt;
        index
            .body()
            .starts_with(b"\x01ARIAOWN1\x01\0\0\0\0\x01\0\0\0\x10")
    );
    assert!(rt; index.body()[69..].starts_with(b"\0\x22\x02\x02id"));
    assert!(rt; data.body().starts_with(b"\x02\0\0"));
    match read_header(alloc, &index)? {
        None => assert!(rt; false),
        Some(header) => assert!(rt; is_new(&header, false, 1) && header.deleted == 0),
    }
    let (index, data) = first_pages(alloc, &table, true, CREATED, 2)?;
    assert!(rt; data.body().starts_with(b"\x09\0\0"));
    match read_header(alloc, &index)? {
        None => assert!(rt; false),
        Some(header) => assert!(rt; is_new(&header, true, 2) && header.deleted == (1 << 40) - 1),
    }
    Ok(())
}

#[test]
fn pages_that_spell_a_header_and_others(rt: HostRuntime) -> Result<(), AllocError> {
    let alloc = rt.alloc();
    let Some(table) = decode_definition(alloc, &STORED)? else {
        return Err(AllocError);
    };
    let (index, data) = first_pages(alloc, &table, false, CREATED, 1)?;
    for (at, byte, is_good) in [
        // the kind, the magic, the format
        (0, 2, false),
        (8, b'2', false),
        (9, 2, true),
        (9, 3, false),
        // a plain table, and a mark in a transactional one
        (10, 1, true),
        (10, 2, false),
        (11, 1, false),
        // a file that made the table, rows, and a root
        (14, 9, true),
        (22, 9, true),
        (35, 9, true),
        // the length of the definition, and a byte of it
        (70, 33, false),
        (69, 255, false),
        (72, 1, false),
        // what comes behind it isn't looked at
        (105, 9, true),
    ] {
        let page = with_body_byte(&index, at, byte);
        assert_eq!(rt; spells_a_header(alloc, &page)?, is_good);
    }
    let plain = with_body_byte(&index, 10, 1);
    assert!(rt; spells_a_header(alloc, &with_body_byte(&plain, 11, 1))?);
    assert!(rt; !spells_a_header(alloc, &data)?);
    assert!(rt; !spells_a_header(alloc, &Page::zero())?);
    // a checksum that doesn't fit
    let mut torn = index;
    torn.put(200, &[1]);
    assert!(rt; !spells_a_header(alloc, &torn)?);
    Ok(())
}
