use super::*;
use aria_model::{MAX_LINE_BYTES, Refusal, Setting, Which, push_row_text};
use aria_page::{Bytes, List, Name};
use aria_value::{Column, ColumnType, Definition, Key, Row};
use std::alloc::{AllocError, Global};
use std::test::*;

fn push_number(alloc: Global, out: &mut Bytes, number: u64) -> Result<(), AllocError> {
    out.extend_from_slice(format!(in alloc; "{number}")?.as_bytes())
}

// Words with a space in front of each.
fn push_name(out: &mut Bytes, name: &Name) -> Result<(), AllocError> {
    out.push(b' ')?;
    out.extend_from_slice(name.as_slice())
}

fn push_column(alloc: Global, out: &mut Bytes, column: &Column) -> Result<(), AllocError> {
    push_name(out, &column.name)?;
    match column.kind {
        ColumnType::Int => out.extend_from_slice(b":int"),
        ColumnType::Text(limit) => {
            out.extend_from_slice(b":text(")?;
            push_number(alloc, out, u64::from(limit))?;
            out.push(b')')
        }
    }
}

// A key with the numbers of its columns.
fn push_key(alloc: Global, out: &mut Bytes, key: &Key) -> Result<(), AllocError> {
    push_name(out, &key.name)?;
    out.push(b'(')?;
    for number in key.columns.as_slice() {
        push_number(alloc, out, u64::from(*number))?;
        out.push(b',')?;
    }
    out.push(b')')
}

fn push_definition(
    alloc: Global,
    out: &mut Bytes,
    definition: &Definition,
) -> Result<(), AllocError> {
    out.push(b' ')?;
    push_number(alloc, out, u64::from(definition.max_rows))?;
    for column in definition.columns.as_slice() {
        push_column(alloc, out, column)?;
    }
    for key in definition.keys.as_slice() {
        push_key(alloc, out, key)?;
    }
    Ok(())
}

fn push_rows(out: &mut Bytes, rows: &[Row]) -> Result<(), AllocError> {
    out.push(b' ')?;
    for row in rows {
        push_row_text(out, row)?;
    }
    Ok(())
}

fn push_sought(out: &mut Bytes, name: &Name, key: &Name, values: &Row) -> Result<(), AllocError> {
    push_name(out, name)?;
    push_name(out, key)?;
    out.push(b' ')?;
    push_row_text(out, values)
}

fn push_settings(
    alloc: Global,
    out: &mut Bytes,
    settings: List<Setting>,
) -> Result<(), AllocError> {
    for setting in settings.into_vec() {
        let Setting { column, value } = setting;
        push_name(out, &column)?;
        out.push(b'=')?;
        let mut row = List::new(alloc);
        row.push(value)?;
        push_row_text(out, &row)?;
    }
    Ok(())
}

fn push_create(
    alloc: Global,
    out: &mut Bytes,
    name: &Name,
    plain: bool,
    definition: &Definition,
) -> Result<(), AllocError> {
    out.extend_from_slice(b"create")?;
    push_name(out, name)?;
    if plain {
        out.extend_from_slice(b" plain")?;
    }
    push_definition(alloc, out, definition)
}

// What was read, with the values as rows are told.
fn push_statement(alloc: Global, out: &mut Bytes, read: Statement) -> Result<(), AllocError> {
    match read {
        Statement::Create {
            name,
            plain,
            definition,
        } => push_create(alloc, out, &name, plain, &definition),
        Statement::Insert { name, rows } => {
            out.extend_from_slice(b"insert")?;
            push_name(out, &name)?;
            push_rows(out, rows.as_slice())
        }
        Statement::Delete { name, key, values } => {
            out.extend_from_slice(b"delete")?;
            push_sought(out, &name, &key, &values)
        }
        Statement::Update {
            name,
            key,
            values,
            set,
        } => {
            out.extend_from_slice(b"update")?;
            push_sought(out, &name, &key, &values)?;
            push_settings(alloc, out, set)
        }
        Statement::Select { name, key, values } => {
            out.extend_from_slice(b"select")?;
            push_sought(out, &name, &key, &values)
        }
        Statement::Drop { name } => {
            out.extend_from_slice(b"drop")?;
            push_name(out, &name)
        }
        Statement::Flush { name } => {
            out.extend_from_slice(b"flush")?;
            push_name(out, &name)
        }
        Statement::Checkpoint => out.extend_from_slice(b"checkpoint"),
    }
}

fn which_word(which: Which) -> &'static [u8] {
    match which {
        Which::Packed => b"packed",
        Which::MaxRows => b"max_rows",
        Which::Columns => b"columns",
        Which::Kind => b"type",
        Which::Keys => b"keys",
        Which::Spatial => b"spatial",
        Which::Fulltext => b"fulltext",
        Which::Entry => b"entry",
    }
}

fn push_refusal(alloc: Global, out: &mut Bytes, why: &Refusal) -> Result<(), AllocError> {
    match why {
        Refusal::BadStatement { at } => {
            out.extend_from_slice(b"bad ")?;
            push_number(alloc, out, *at)
        }
        Refusal::NumberTooWide { at } => {
            out.extend_from_slice(b"wide ")?;
            push_number(alloc, out, *at)
        }
        Refusal::BadDefinition { which } => out.extend_from_slice(which_word(*which)),
        Refusal::LineTooLong => out.extend_from_slice(b"long"),
        _ => out.extend_from_slice(b"other"),
    }
}

// What a line gives. The lines of rows end with a semicolon here.
fn answer(alloc: Global, line: &[u8]) -> Result<Bytes, AllocError> {
    let mut told = List::new(alloc);
    match parse(alloc, line) {
        Ok(None) => told.extend_from_slice(b"blank")?,
        Ok(Some(read)) => push_statement(alloc, &mut told, read)?,
        Err(Stopped::Refused(why)) => push_refusal(alloc, &mut told, &why)?,
        Err(Stopped::Memory) => told.extend_from_slice(b"memory")?,
    }
    let mut answer = List::new(alloc);
    for byte in told.as_slice() {
        answer.push(if *byte == b'\n' { b';' } else { *byte })?;
    }
    Ok(answer)
}

// The first row of a table, each a line, an arrow and what it gives, that is not so.
fn first_wrong(alloc: Global, table: &str) -> Result<String, AllocError> {
    for row in table.lines() {
        match row.split_once(" => ") {
            None => return String::from_str(alloc, row),
            Some((line, want)) => {
                if answer(alloc, line.as_bytes())?.as_slice() != want.as_bytes() {
                    return String::from_str(alloc, row);
                }
            }
        }
    }
    Ok(String::new(alloc))
}

#[test]
fn lines_worked_by_hand(rt: HostRuntime) -> Result<(), Fail> {
    let wrong = first_wrong(
        rt.alloc(),
        "create t trans id:int v:int keys k(id) => create t 16777216 id:int v:int k(0,)
create t trans keys:int keys keys(keys) => create t 16777216 keys:int keys(0,)
create a trans keys k(a) => bad 20
create t trans a:int a:int keys k(a) => columns
create t trans a:int keys k(b) => keys
create t plain a:int keys k(a) => create t plain 16777216 a:int k(0,)
create t kind a:int keys k(a) => bad 9
create t trans a:int keys k(a) x => bad 32
create t trans a:int keys k(a,a) => keys
create t trans a:int b int keys k(a) => bad 23
insert t (2,20) (-1,5) => insert t row 2,20;row -1,5;
insert t 5 => bad 9
insert t (9223372036854775807) => insert t row 9223372036854775807;
insert t (9223372036854775808) => wide 10
insert t (-9223372036854775808) => insert t row -9223372036854775808;
insert t (-9223372036854775809) => wide 10
insert t (99999999999999999999999) => wide 10
insert 99999999999999999999999 => bad 7
insert t (1)(2) => insert t row 1;row 2;
insert t(1,2,3) => insert t row 1,2,3;
insert t (007) => insert t row 7;
insert t (--1) => bad 10
insert t (-) => bad 10
insert t (1,) => bad 12
insert t () => bad 10
insert t (1 2) => bad 12
insert t (1) 2 => bad 13
insert t => bad 8
insert t (1) \0 => bad 13
select => bad 6
select t k x => bad 11
drop t => drop t
drop t k => bad 7
drop => bad 4
flush t => flush t
flush => bad 5
checkpoint => checkpoint
checkpoint t => bad 11
vacuum t => bad 0
5a => bad 0
  ( => bad 2",
    )?;
    assert_eq!(rt; wrong.as_str(), "");
    Ok(())
}

#[test]
fn texts_and_nulls(rt: HostRuntime) -> Result<(), Fail> {
    let wrong = first_wrong(
        rt.alloc(),
        "insert t (null) => insert t row null;
insert t (nul) => bad 10
insert t (NULL) => bad 10
insert t ('') => insert t row '';
insert t ('it''s') => insert t row 'it''s';
insert t ('it's') => bad 14
insert t ('''') => insert t row '''';
insert t (''') => bad 10
insert t ('a => bad 10
insert t (' => bad 10
insert t ('a'' => bad 10
insert t ('a' => bad 13
insert t (x'') => insert t row '';
insert t (x'00fF') => insert t row x'00ff';
insert t (x'0g') => bad 10
insert t (x'0') => bad 10
insert t (x'00 => bad 10
insert t (x'00''11') => bad 15
insert t (X'00') => bad 10
insert t (x '00') => bad 10
insert t (x) => bad 10
insert t (5-3) => bad 11
insert t (5a) => bad 11
insert 't' (1) => bad 7
insert x'74' (1) => bad 7
x => bad 0
x'00' => bad 0
' => bad 0",
    )?;
    assert_eq!(rt; wrong.as_str(), "");
    Ok(())
}

#[test]
fn rows_by_a_key(rt: HostRuntime) -> Result<(), Fail> {
    let wrong = first_wrong(
        rt.alloc(),
        "select t k1 (1,null,'it''s',x'00fF') => select t k1 row 1,null,'it''s',x'00ff';
select t k1 () => bad 13
select t k1 (1) => select t k1 row 1;
select t k1 (1) (2) => bad 16
select t k1 1 => bad 12
select t k1 (9223372036854775808) => wide 13
delete t k1 => delete t k1 row ;
delete t k1 ('a',5) => delete t k1 row 'a',5;
delete t => bad 8
delete t k1 (1) x => bad 16
update t k1 (1) set name='q', id=null => update t k1 row 1; name=row 'q'; id=row null;
update t k1 set a=1 => update t k1 row ; a=row 1;
update t k1 => bad 11
update t k1 set => bad 15
update t k1 set a => bad 17
update t k1 set a= => bad 18
update t k1 set a=1, => bad 20
update t k1 set a=1 b=2 => bad 20
update t k1 set a=b => bad 18
update t k1 set a=9223372036854775808 => wide 18
update t k1 (1) a=1 => bad 16",
    )?;
    assert_eq!(rt; wrong.as_str(), "");
    Ok(())
}

#[test]
fn definitions_and_where_they_go_wrong(rt: HostRuntime) -> Result<(), Fail> {
    let wrong = first_wrong(
        rt.alloc(),
        "create s trans a:int b:text(5) keys k(a) l(b,a) => create s 16777216 a:int b:text(5) k(0,) l(1,0,)
create s trans max_rows=5a:int keys k(a) => create s 5 a:int k(0,)
create s trans max_rows:int keys k(max_rows) => create s 16777216 max_rows:int k(0,)
create s trans max_rows=5 max_rows:int keys k(max_rows) => create s 5 max_rows:int k(0,)
create s trans max_rows 5 a:int keys k(a) => bad 24
create s trans max_rows=a:int keys k(a) => bad 24
create s trans max_rows=9223372036854775808 a:int keys k(a) => wide 24
create s trans keys k(a) => bad 20
create s trans a:int keys:int keys k(keys) => create s 16777216 a:int keys:int k(1,)
create s trans a:int keys => bad 25
create s trans a:int keys k => bad 27
create s trans a:int keys k() => bad 28
create s trans a:int keys k(a) l(a) x => bad 37
create s trans a:real keys k(a) => bad 17
create s trans a:text keys k(a) => bad 22
create s trans a:text() keys k(a) => bad 22
create s trans a:text(5 keys k(a) => bad 24
create s trans a:text('5') keys k(a) => bad 22
create s trans a:text(9223372036854775808) keys k(a) => wide 22",
    )?;
    assert_eq!(rt; wrong.as_str(), "");
    Ok(())
}

#[test]
fn definitions_that_are_bad(rt: HostRuntime) -> Result<(), Fail> {
    let wrong = first_wrong(
        rt.alloc(),
        "create s trans a:int keys k(a):x => bad 31
create s trans a:int keys k(a): => bad 31
create s packed a:int keys k(a) => packed
create s packed max_rows=0 a:int a:int keys k(b) => packed
create s trans max_rows=-1 a:int keys k(a) => max_rows
create s trans max_rows=0 a:int keys k(a) => max_rows
create s trans max_rows=1 a:int keys k(a) => create s 1 a:int k(0,)
create s trans max_rows=16777216 a:int keys k(a) => create s 16777216 a:int k(0,)
create s trans max_rows=16777217 a:int keys k(a) => max_rows
create s trans max_rows=0 a:int a:int keys k(a) => max_rows
create s trans a:int a:text(0) keys k(a) => columns
create s trans a:text(0) keys k(a) => type
create s trans a:text(-1) keys k(a) => type
create s trans a:text(-9223372036854775808) keys k(a) => type
create s trans a:int b:text(65535) keys k(a) => create s 16777216 a:int b:text(65535) k(0,)
create s trans a:int b:text(65536) keys k(a) => type
create s trans a:int b:text(9223372036854775807) keys k(a) => type
create s trans a:int b:text(0) keys k(c) => type
create s trans a:int keys k(b) => keys
create s trans a:int keys k(a,a) => keys
create s trans a:int keys k(a) k(a) => keys
create s trans a:int keys k(a) l(b):spatial => keys
create s trans a:int keys k(a):spatial => spatial
create s trans a:int keys k(a):fulltext l(a):spatial => spatial
create s trans a:int keys k(a) : fulltext => fulltext
create s trans a:text(499) keys k(a):fulltext => fulltext
create s trans a:text(498) keys k(a) => create s 16777216 a:text(498) k(0,)
create s trans a:text(499) keys k(a) => entry
create s trans a:int b:text(494) keys k(a) l(b) => create s 16777216 a:int b:text(494) k(0,) l(1,)
create s trans a:int b:text(495) keys k(a) l(b) => entry
create s trans a:int b:text(495) keys k(b) => create s 16777216 a:int b:text(495) k(1,)",
    )?;
    assert_eq!(rt; wrong.as_str(), "");
    Ok(())
}

fn gives(alloc: Global, line: &[u8], want: &[u8]) -> Result<bool, AllocError> {
    Ok(answer(alloc, line)?.as_slice() == want)
}

#[test]
fn blanks(rt: HostRuntime) -> Result<(), Fail> {
    assert!(rt; gives(rt.alloc(), b"  \t\r", b"blank")?);
    assert!(rt; gives(rt.alloc(), b"", b"blank")?);
    assert!(rt; gives(rt.alloc(), b" drop\t t \r", b"drop t")?);
    assert!(rt; gives(rt.alloc(), b"drop t \xff", b"bad 7")?);
    assert!(rt; gives(rt.alloc(), b"drop t \0", b"bad 7")?);
    Ok(())
}

// A front, so many times a part, and an end.
fn repeated(
    alloc: Global,
    front: &[u8],
    times: usize,
    part: &[u8],
    end: &[u8],
) -> Result<Bytes, AllocError> {
    let mut line = List::from_slice(alloc, front)?;
    for _ in 0..times {
        line.extend_from_slice(part)?;
    }
    line.extend_from_slice(end)?;
    Ok(line)
}

#[test]
fn longest_lines_and_words(rt: HostRuntime) -> Result<(), Fail> {
    let alloc = rt.alloc();
    let line = repeated(alloc, b"", MAX_LINE_BYTES, b" ", b"")?;
    assert!(rt; gives(alloc, line.as_slice(), b"blank")?);
    let line = repeated(alloc, b" ", MAX_LINE_BYTES, b" ", b"")?;
    assert!(rt; gives(alloc, line.as_slice(), b"long")?);
    let line = repeated(alloc, b"drop t", 63, b"t", b" x")?;
    assert!(rt; gives(alloc, line.as_slice(), b"bad 70")?);
    let line = repeated(alloc, b"drop t", 64, b"t", b" x")?;
    assert!(rt; gives(alloc, line.as_slice(), b"bad 5")?);
    Ok(())
}

// A create of columns, or of keys, with names of two letters.
fn named(
    alloc: Global,
    front: &[u8],
    names: u8,
    behind: &[u8],
    end: &[u8],
) -> Result<Bytes, AllocError> {
    let mut line = List::from_slice(alloc, front)?;
    for name in 0..names {
        line.push(b' ')?;
        line.push(b'A' + name / 26)?;
        line.push(b'A' + name % 26)?;
        line.extend_from_slice(behind)?;
    }
    line.extend_from_slice(end)?;
    Ok(line)
}

#[test]
fn most_columns_and_keys(rt: HostRuntime) -> Result<(), Fail> {
    let alloc = rt.alloc();
    let line = named(alloc, b"create t trans", 32, b":int", b" keys k(BF) x")?;
    assert!(rt; gives(alloc, line.as_slice(), b"bad 251")?);
    let line = named(alloc, b"create t trans", 33, b":int", b" keys k(BF)")?;
    assert!(rt; gives(alloc, line.as_slice(), b"columns")?);
    let line = named(alloc, b"create t trans a:int keys", 8, b"(a)", b":fulltext")?;
    assert!(rt; gives(alloc, line.as_slice(), b"fulltext")?);
    let line = named(alloc, b"create t trans a:int keys", 9, b"(a)", b":fulltext")?;
    assert!(rt; gives(alloc, line.as_slice(), b"keys")?);
    Ok(())
}

#[test]
fn long_lists_and_texts(rt: HostRuntime) -> Result<(), Fail> {
    let alloc = rt.alloc();
    let line = repeated(alloc, b"create t trans", 20_000, b" a:int", b" keys k(a)")?;
    assert!(rt; gives(alloc, line.as_slice(), b"columns")?);
    let line = repeated(alloc, b"create t trans a:int keys k(a", 50_000, b",a", b")")?;
    assert!(rt; gives(alloc, line.as_slice(), b"keys")?);
    let line = repeated(alloc, b"insert t ('", 50_000, b"''", b"') x")?;
    assert!(rt; gives(alloc, line.as_slice(), b"bad 100014")?);
    let line = repeated(alloc, b"insert t ('", 50_000, b"''", b")")?;
    assert!(rt; gives(alloc, line.as_slice(), b"bad 10")?);
    Ok(())
}
