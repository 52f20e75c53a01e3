//! Values, rows and settings.

ghost use Rattle.std.specs.Prelude.{◌≡◌};
ghost use Rattle.aria_model.specs.Grammar.{value as value_read, behind_comma as behind_comma_read, another_row as another_row_read, row as row_read, sought as sought_read, setting as setting_read, items};
ghost use Rattle.aria_statement.specs.Lexing.{left};
ghost use Rattle.aria_statement.specs.Reading.{Gives, left_if};

use crate::lexer::next_token;
use crate::productions::{bad, behind_comma, is_keyword, read_name, read_sign};
use crate::text::{hex_bytes, undoubled};
use crate::token::Token;
use aria_model::{Refusal, Setting, Stopped};
use aria_page::List;
use aria_value::{Row, Value};
use std::alloc::Global;

fn read_value(alloc: Global, line: &[u8], at: usize) -> Result<(Value, usize), Stopped>
    ensures { Gives (λ x. (x.0, left line.now x.1)) result (value_read (left line.now at)) }
{
    let (begins, token, behind) = next_token(line, at);
    match token {
        Token::Number(n) => Ok((Value::Int(n), behind)),
        Token::Wide => Err(Refusal::NumberTooWide { at: begins }.into()),
        Token::Quoted(text) => Ok((Value::Text(undoubled(alloc, text)?), behind)),
        Token::Hex(text) => Ok((Value::Text(hex_bytes(alloc, text)?), behind)),
        Token::Word(word) => {
            if is_keyword(&word, b"null") {
                Ok((Value::Null, behind))
            } else {
                Err(bad(begins).into())
            }
        }
        _ => Err(bad(begins).into()),
    }
}

fn read_values(alloc: Global, line: &[u8], at: usize) -> Result<(List<Value>, usize), Stopped>
    ensures { Gives (λ x. (x.0, left line.now x.1)) result (items value_read behind_comma_read (left line.now at)) }
{
    let mut values = List::new(alloc);
    let mut next = at;
    loop {
        let (value, behind) = read_value(alloc, line, next)?;
        values.push(value)?;
        match behind_comma(line, behind) {
            None => return Ok((values, behind)),
            Some(place) => next = place,
        }
    }
}

fn read_row(alloc: Global, line: &[u8], at: usize) -> Result<(Row, usize), Stopped>
    ensures { Gives (λ x. (x.0, left line.now x.1)) result (row_read (left line.now at)) }
{
    let at = read_sign(line, at, b'(')?;
    let (values, at) = read_values(alloc, line, at)?;
    let at = read_sign(line, at, b')')?;
    Ok((values, at))
}

// The same place, where a parenthesis follows.
fn another_row(line: &[u8], at: usize) -> Option<usize>
    ensures { left_if line.now result ≡ another_row_read (left line.now at) }
{
    let (_, token, _) = next_token(line, at);
    match token {
        Token::Sign(b'(') => Some(at),
        _ => None,
    }
}

/// The values that rows are sought by: none where no parenthesis follows.
pub fn read_sought(alloc: Global, line: &[u8], at: usize) -> Result<(List<Value>, usize), Stopped>
    ensures { Gives (λ x. (x.0, left line.now x.1)) result (sought_read (left line.now at)) }
{
    let (_, token, _) = next_token(line, at);
    match token {
        Token::Sign(b'(') => read_row(alloc, line, at),
        _ => Ok((List::new(alloc), at)),
    }
}

pub fn read_rows(alloc: Global, line: &[u8], at: usize) -> Result<(List<Row>, usize), Stopped>
    ensures { Gives (λ x. (x.0, left line.now x.1)) result (items row_read another_row_read (left line.now at)) }
{
    let mut rows = List::new(alloc);
    let mut next = at;
    loop {
        let (row, behind) = read_row(alloc, line, next)?;
        rows.push(row)?;
        match another_row(line, behind) {
            None => return Ok((rows, behind)),
            Some(place) => next = place,
        }
    }
}

fn read_setting(alloc: Global, line: &[u8], at: usize) -> Result<(Setting, usize), Stopped>
    ensures { Gives (λ x. (x.0, left line.now x.1)) result (setting_read (left line.now at)) }
{
    let (column, at) = read_name(line, at)?;
    let at = read_sign(line, at, b'=')?;
    let (value, at) = read_value(alloc, line, at)?;
    Ok((Setting { column, value }, at))
}

pub fn read_settings(
    alloc: Global,
    line: &[u8],
    at: usize,
) -> Result<(List<Setting>, usize), Stopped>
    ensures { Gives (λ x. (x.0, left line.now x.1)) result (items setting_read behind_comma_read (left line.now at)) }
{
    let mut settings = List::new(alloc);
    let mut next = at;
    loop {
        let (setting, behind) = read_setting(alloc, line, next)?;
        settings.push(setting)?;
        match behind_comma(line, behind) {
            None => return Ok((settings, behind)),
            Some(place) => next = place,
        }
    }
}
