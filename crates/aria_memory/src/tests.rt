ghost use Rattle.std.specs.Prelude.{IfOk};
ghost use Rattle.aria_value.specs.Defined.{IsDefinition};
ghost use Rattle.aria_model.specs.Grammar.{IsSpelled};

use crate::tables::Tables;
use aria_model::{Refusal, Reply, Setting, Statement, push_reply_text};
use aria_page::{Bytes, List, Name};
use aria_value::{Definition, Row, Value, decode_definition};
use std::alloc::{AllocError, Global};

// The columns a and b, numbers, and note, a text of up to 4 bytes; the keys k (a,b) and k2 (note); at most 65,536 rows.
const STORED: &[u8] =
    b"\x03\x01a\0\0\0\0\0\x01b\0\0\0\0\0\x04note\x01\0\0\0\x04\x02\x01k\x02\0\x01\x02k2\x01\x02\0\x01\0\0";

fn definition(alloc: Global) -> Result<Definition, AllocError>
    ensures { IfOk result IsDefinition }
{
    match decode_definition(alloc, STORED)? {
        Some(definition) => Ok(definition),
        None => Err(AllocError),
    }
}

fn name(word: &str) -> Result<Name, AllocError> {
    Name::read(word.as_bytes()).ok_or(AllocError)
}

// Values of these numbers.
fn numbers(alloc: Global, numbers: &[i64]) -> Result<List<Value>, AllocError> {
    let mut values = List::new(alloc);
    for number in numbers {
        values.push(Value::Int(*number))?;
    }
    Ok(values)
}

fn row(alloc: Global, a: i64, b: i64, note: &str) -> Result<Row, AllocError> {
    let mut row = numbers(alloc, &[a, b])?;
    row.push(Value::Text(List::from_slice(alloc, note.as_bytes())?))?;
    Ok(row)
}

fn create(alloc: Global) -> Result<Statement, AllocError>
    ensures { IfOk result IsSpelled }
{
    Ok(Statement::Create {
        name: name("t")?,
        plain: false,
        definition: definition(alloc)?,
    })
}

// An insert of so many rows, which fall.
fn insert(alloc: Global, count: u32) -> Result<Statement, AllocError>
    ensures { IfOk result IsSpelled }
{
    let mut rows = List::new(alloc);
    for i in 0..count {
        rows.push(row(alloc, i64::from(count - i), i64::from(i), "b")?)?;
    }
    let name = name("t")?;
    Ok(Statement::Insert { name, rows })
}

fn select(alloc: Global, key: &str) -> Result<Statement, AllocError>
    ensures { IfOk result IsSpelled }
{
    Ok(Statement::Select {
        name: name("t")?,
        key: name(key)?,
        values: List::new(alloc),
    })
}

fn delete(alloc: Global, a: i64) -> Result<Statement, AllocError>
    ensures { IfOk result IsSpelled }
{
    Ok(Statement::Delete {
        name: name("t")?,
        key: name("k")?,
        values: numbers(alloc, &[a])?,
    })
}

// The column b of all rows is set.
fn update(alloc: Global, b: i64) -> Result<Statement, AllocError>
    ensures { IfOk result IsSpelled }
{
    let mut set = List::new(alloc);
    set.push(Setting {
        column: name("b")?,
        value: Value::Int(b),
    })?;
    Ok(Statement::Update {
        name: name("t")?,
        key: name("k")?,
        values: List::new(alloc),
        set,
    })
}

// Whether the statement tells that.
fn tells(
    alloc: Global,
    tables: &mut Tables,
    statement: Statement,
    wanted: &str,
) -> Result<bool, AllocError>
    requires { IsSpelled statement }
{
    let _no_refusal: Option<Refusal> = None;
    let mut text = Bytes::new(alloc);
    let reply = tables.execute(alloc, statement, None, &mut text)?;
    push_reply_text(&mut text, &reply)?;
    Ok(text.as_slice() == wanted.as_bytes())
}

// What each statement does is proved, but that it may answer want of memory: here is enough.
#[test]
fn statements_are_executed_where_memory_suffices(rt: HostRuntime) -> Result<(), AllocError> {
    let alloc = rt.alloc();
    let mut tables = Tables::new(alloc);
    assert!(rt; tells(alloc, &mut tables, create(alloc)?, "ok\n")?);
    assert!(rt; tells(alloc, &mut tables, insert(alloc, 3)?, "ok 3\n")?);
    assert!(rt; tells(alloc, &mut tables, delete(alloc, 2)?, "ok 1\n")?);
    assert!(rt; tells(alloc, &mut tables, update(alloc, 7)?, "ok 2\n")?);
    assert!(rt;
        tells(
            alloc,
            &mut tables,
            select(alloc, "k2")?,
            "row 1,7,'b'\nrow 3,7,'b'\nok 2\n"
        )?
    );
    assert!(rt;
        tells(
            alloc,
            &mut tables,
            Statement::Flush { name: name("t")? },
            "ok\n"
        )?
    );
    assert!(rt; tells(alloc, &mut tables, Statement::Checkpoint, "ok\n")?);
    assert!(rt;
        tells(
            alloc,
            &mut tables,
            Statement::Drop { name: name("t")? },
            "ok\n"
        )?
    );
    assert!(rt; tells(alloc, &mut tables, select(alloc, "k")?, "no table t\n")?);
    Ok(())
}

// The most rows of a statement, and one more.
#[test]
fn a_statement_puts_at_most_65536_rows(rt: HostRuntime) -> Result<(), AllocError> {
    let alloc = rt.alloc();
    let mut tables = Tables::new(alloc);
    let _ = tables.execute(alloc, create(alloc)?, None, &mut Bytes::new(alloc))?;
    let many = insert(alloc, 65_537)?;
    let reply = tables.execute(alloc, many, None, &mut Bytes::new(alloc))?;
    assert!(rt; matches!(reply, Reply::No(Refusal::TooManyRows)));
    let most = insert(alloc, 65_536)?;
    let reply = tables.execute(alloc, most, None, &mut Bytes::new(alloc))?;
    assert!(rt; matches!(reply, Reply::Count(65_536)));
    Ok(())
}
