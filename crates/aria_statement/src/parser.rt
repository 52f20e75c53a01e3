//! Statements, by their first word, and whole lines.

ghost use Rattle.std.specs.Prelude.{◌≡◌, IfOk, IfSome};
ghost use Rattle.std.specs.List.{list_all};
ghost use Rattle.aria_model.specs.Token.{is_blank};
ghost use Rattle.aria_model.specs.Grammar.{is_plain as is_plain_kind, create, insert, delete, update, select, drop as drop_read, flush as flush_read, statement as statement_read, read_line as line_read, IsSpelled};
ghost use Rattle.aria_statement.specs.Lexing.{left};
ghost use Rattle.aria_statement.specs.Reading.{Reads};
ghost use Rattle.aria_statement.specs.Writing.{kind_seen};

use crate::columns::{read_columns, read_end_of_keys, read_keys, read_max_rows, read_table_kind};
use crate::definition::defined;
use crate::lexer::{is_blank, next_token};
use crate::productions::{bad, is_keyword, read_end, read_keyword, read_name};
use crate::rows::{read_rows, read_settings, read_sought};
use crate::token::Token;
use crate::written::TableKind;
use aria_model::{MAX_LINE_BYTES, Refusal, Statement, Stopped};
use std::alloc::Global;

fn is_plain(kind: TableKind) -> bool
    ensures { result ≡ is_plain_kind (kind_seen kind) }
{
    match kind {
        TableKind::Trans => false,
        TableKind::Plain => true,
        TableKind::Packed => false,
    }
}

fn read_create(alloc: Global, line: &[u8], at: usize) -> Result<Statement, Stopped>
    ensures { Reads result (create (left line.now at)) }
{
    let (name, at) = read_name(line, at)?;
    let (kind, at) = read_table_kind(line, at)?;
    let (rows, at) = read_max_rows(line, at)?;
    let (columns, at) = read_columns(alloc, line, at)?;
    let at = read_keyword(line, at, b"keys")?;
    let (keys, at) = read_keys(alloc, line, at)?;
    let keys = read_end_of_keys(line, at, keys)?;
    let definition = defined(alloc, kind, rows, columns.as_slice(), keys.as_slice())?;
    Ok(Statement::Create {
        name,
        plain: is_plain(kind),
        definition,
    })
}

fn read_insert(alloc: Global, line: &[u8], at: usize) -> Result<Statement, Stopped>
    ensures { Reads result (insert (left line.now at)) }
{
    let (name, at) = read_name(line, at)?;
    let (rows, at) = read_rows(alloc, line, at)?;
    Ok(read_end(line, at, Statement::Insert { name, rows })?)
}

fn read_delete(alloc: Global, line: &[u8], at: usize) -> Result<Statement, Stopped>
    ensures { Reads result (delete (left line.now at)) }
{
    let (name, at) = read_name(line, at)?;
    let (key, at) = read_name(line, at)?;
    let (values, at) = read_sought(alloc, line, at)?;
    Ok(read_end(line, at, Statement::Delete { name, key, values })?)
}

fn read_update(alloc: Global, line: &[u8], at: usize) -> Result<Statement, Stopped>
    ensures { Reads result (update (left line.now at)) }
{
    let (name, at) = read_name(line, at)?;
    let (key, at) = read_name(line, at)?;
    let (values, at) = read_sought(alloc, line, at)?;
    let at = read_keyword(line, at, b"set")?;
    let (set, at) = read_settings(alloc, line, at)?;
    let update = Statement::Update {
        name,
        key,
        values,
        set,
    };
    Ok(read_end(line, at, update)?)
}

fn read_select(alloc: Global, line: &[u8], at: usize) -> Result<Statement, Stopped>
    ensures { Reads result (select (left line.now at)) }
{
    let (name, at) = read_name(line, at)?;
    let (key, at) = read_name(line, at)?;
    let (values, at) = read_sought(alloc, line, at)?;
    Ok(read_end(line, at, Statement::Select { name, key, values })?)
}

fn read_drop(line: &[u8], at: usize) -> Result<Statement, Refusal>
    ensures { result ≡ drop_read (left line.now at) }
{
    let (name, at) = read_name(line, at)?;
    read_end(line, at, Statement::Drop { name })
}

fn read_flush(line: &[u8], at: usize) -> Result<Statement, Refusal>
    ensures { result ≡ flush_read (left line.now at) }
{
    let (name, at) = read_name(line, at)?;
    read_end(line, at, Statement::Flush { name })
}

fn read_statement(alloc: Global, line: &[u8], at: usize) -> Result<Statement, Stopped>
    ensures { Reads result (statement_read (left line.now at)) }
{
    let (begins, token, behind) = next_token(line, at);
    let Token::Word(word) = token else {
        return Err(bad(begins).into());
    };
    if is_keyword(&word, b"create") {
        read_create(alloc, line, behind)
    } else if is_keyword(&word, b"insert") {
        read_insert(alloc, line, behind)
    } else if is_keyword(&word, b"delete") {
        read_delete(alloc, line, behind)
    } else if is_keyword(&word, b"update") {
        read_update(alloc, line, behind)
    } else if is_keyword(&word, b"select") {
        read_select(alloc, line, behind)
    } else if is_keyword(&word, b"drop") {
        Ok(read_drop(line, behind)?)
    } else if is_keyword(&word, b"flush") {
        Ok(read_flush(line, behind)?)
    } else if is_keyword(&word, b"checkpoint") {
        Ok(read_end(line, behind, Statement::Checkpoint)?)
    } else {
        Err(bad(begins).into())
    }
}

fn is_blank_line(line: &[u8]) -> bool
    ensures { result ≡ list_all is_blank line.now }
{
    line.iter().all(|byte| is_blank(*byte))
}

#[tactic(auto, unfolding(aria_model::specs::Grammar::read_line))]
fn read_line(alloc: Global, line: &[u8]) -> Result<Option<Statement>, Stopped>
    ensures { Reads result (line_read line.now) }
{
    if line.len() > MAX_LINE_BYTES {
        return Err(Refusal::LineTooLong.into());
    }
    if is_blank_line(line) {
        return Ok(None);
    }
    let statement = read_statement(alloc, line, 0)?;
    Ok(Some(statement))
}

/// The statement that a line spells, without its LF; `None` where it is blank.
#[tactic(auto, using(crate::proofs::Spelled::read_spelled))]
pub fn parse(alloc: Global, line: &[u8]) -> Result<Option<Statement>, Stopped>
    ensures reads { Reads result (line_read line.now) }
    ensures spelled { IfOk result (λ found. IfSome found IsSpelled) }
{
    read_line(alloc, line)
}
