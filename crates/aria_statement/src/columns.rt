//! Columns and keys, and what else a create has.

ghost use Rattle.std.specs.Prelude.{◌≡◌, ◌&&◌, not, pos, map};
ghost use Rattle.aria_value.specs.Defined.{same_name};
ghost use Rattle.aria_model.specs.Grammar.{name as name_read, the_end as end_read, behind_comma as behind_comma_read, limit as limit_read, written_type as type_read, column as column_read, another_column as another_column_read, special_word as special_word_read, special as special_read, key as key_read, another_key as another_key_read, table_kind as kind_read, row_limit as row_limit_read, max_rows as max_rows_read, items};
ghost use Rattle.aria_statement.specs.Lexing.{left};
ghost use Rattle.aria_statement.specs.Reading.{Gives, seen_as, left_if, begins_colon};
ghost use Rattle.aria_statement.specs.Writing.{type_seen, column_seen, special_seen, key_seen, kind_seen};

use crate::lexer::next_token;
use crate::productions::{
    bad, behind_comma, colon_follows, is_keyword, read_end, read_name, read_number, read_sign,
};
use crate::token::Token;
use crate::written::{Special, TableKind, WrittenColumn, WrittenKey, WrittenType};
use aria_model::{Refusal, Stopped};
use aria_page::{List, Name};
use aria_value::MAX_ROWS;
use std::alloc::Global;

fn read_limit(line: &[u8], at: usize) -> Result<(i64, usize), Refusal>
    ensures { seen_as (λ x. (x.0, left line.now x.1)) result ≡ limit_read (left line.now at) }
{
    let at = read_sign(line, at, b'(')?;
    let (limit, at) = read_number(line, at)?;
    let at = read_sign(line, at, b')')?;
    Ok((limit, at))
}

fn read_type(line: &[u8], at: usize) -> Result<(WrittenType, usize), Refusal>
    ensures { seen_as (λ x. (type_seen x.0, left line.now x.1)) result ≡ type_read (left line.now at) }
{
    let (begins, token, behind) = next_token(line, at);
    let Token::Word(word) = token else {
        return Err(bad(begins));
    };
    if is_keyword(&word, b"int") {
        return Ok((WrittenType::Int, behind));
    }
    if !is_keyword(&word, b"text") {
        return Err(bad(begins));
    }
    let (limit, at) = read_limit(line, behind)?;
    Ok((WrittenType::Text(limit), at))
}

fn read_column(line: &[u8], at: usize) -> Result<(WrittenColumn, usize), Refusal>
    ensures { seen_as (λ x. (column_seen x.0, left line.now x.1)) result ≡ column_read (left line.now at) }
{
    let (name, at) = read_name(line, at)?;
    let at = read_sign(line, at, b':')?;
    let (kind, at) = read_type(line, at)?;
    Ok((WrittenColumn { name, kind }, at))
}

// Whether the word is the keyword, and no colon stands behind it.
fn is_alone(word: &Name, keyword: &[u8], line: &[u8], behind: usize) -> bool
    ensures { result ≡ (same_name word.now keyword.now && not (begins_colon (left line.now behind))) }
{
    is_keyword(word, keyword) && !colon_follows(line, behind)
}

// The same place, where a word follows that begins a column.
#[tactic(auto, using(crate::proofs::Ahead::another_column_is))]
fn another_column(line: &[u8], at: usize) -> Option<usize>
    ensures { left_if line.now result ≡ another_column_read (left line.now at) }
{
    let (_, token, behind) = next_token(line, at);
    let Token::Word(word) = token else {
        return None;
    };
    if is_alone(&word, b"keys", line, behind) {
        return None;
    }
    Some(at)
}

pub fn read_columns(
    alloc: Global,
    line: &[u8],
    at: usize,
) -> Result<(List<WrittenColumn>, usize), Stopped>
    ensures { Gives (λ x. (map column_seen x.0, left line.now x.1)) result (items column_read another_column_read (left line.now at)) }
{
    let mut columns = List::new(alloc);
    let mut next = at;
    loop {
        let (column, behind) = read_column(line, next)?;
        columns.push(column)?;
        match another_column(line, behind) {
            None => return Ok((columns, behind)),
            Some(place) => next = place,
        }
    }
}

fn read_names(alloc: Global, line: &[u8], at: usize) -> Result<(List<Name>, usize), Stopped>
    ensures { Gives (λ x. (x.0, left line.now x.1)) result (items name_read behind_comma_read (left line.now at)) }
{
    let mut names = List::new(alloc);
    let mut next = at;
    loop {
        let (name, behind) = read_name(line, next)?;
        names.push(name)?;
        match behind_comma(line, behind) {
            None => return Ok((names, behind)),
            Some(place) => next = place,
        }
    }
}

fn read_special_word(line: &[u8], at: usize) -> Result<(Special, usize), Refusal>
    ensures { seen_as (λ x. (special_seen x.0, left line.now x.1)) result ≡ special_word_read (left line.now at) }
{
    let (begins, token, behind) = next_token(line, at);
    let Token::Word(word) = token else {
        return Err(bad(begins));
    };
    if is_keyword(&word, b"spatial") {
        return Ok((Special::Spatial, behind));
    }
    if is_keyword(&word, b"fulltext") {
        return Ok((Special::Fulltext, behind));
    }
    Err(bad(begins))
}

fn read_special(line: &[u8], at: usize) -> Result<(Special, usize), Refusal>
    ensures { seen_as (λ x. (special_seen x.0, left line.now x.1)) result ≡ special_read (left line.now at) }
{
    let (_, token, behind) = next_token(line, at);
    match token {
        Token::Sign(b':') => read_special_word(line, behind),
        _ => Ok((Special::Plain, at)),
    }
}

fn read_key(alloc: Global, line: &[u8], at: usize) -> Result<(WrittenKey, usize), Stopped>
    ensures { Gives (λ x. (key_seen x.0, left line.now x.1)) result (key_read (left line.now at)) }
{
    let (name, at) = read_name(line, at)?;
    let at = read_sign(line, at, b'(')?;
    let (columns, at) = read_names(alloc, line, at)?;
    let at = read_sign(line, at, b')')?;
    let (special, at) = read_special(line, at)?;
    let key = WrittenKey {
        name,
        columns,
        special,
    };
    Ok((key, at))
}

// The same place, where a word follows.
fn another_key(line: &[u8], at: usize) -> Option<usize>
    ensures { left_if line.now result ≡ another_key_read (left line.now at) }
{
    let (_, token, _) = next_token(line, at);
    match token {
        Token::Word(_) => Some(at),
        _ => None,
    }
}

pub fn read_keys(
    alloc: Global,
    line: &[u8],
    at: usize,
) -> Result<(List<WrittenKey>, usize), Stopped>
    ensures { Gives (λ x. (map key_seen x.0, left line.now x.1)) result (items key_read another_key_read (left line.now at)) }
{
    let mut keys = List::new(alloc);
    let mut next = at;
    loop {
        let (key, behind) = read_key(alloc, line, next)?;
        keys.push(key)?;
        match another_key(line, behind) {
            None => return Ok((keys, behind)),
            Some(place) => next = place,
        }
    }
}

/// The keys, where the line ends behind them.
#[tactic(auto, using(crate::proofs::Ahead::keys_end))]
pub fn read_end_of_keys(
    line: &[u8],
    at: usize,
    keys: List<WrittenKey>,
) -> Result<List<WrittenKey>, Refusal>
    ensures { seen_as (map key_seen) result ≡ end_read (map key_seen keys) (left line.now at) }
{
    read_end(line, at, keys)
}

pub fn read_table_kind(line: &[u8], at: usize) -> Result<(TableKind, usize), Refusal>
    ensures { seen_as (λ x. (kind_seen x.0, left line.now x.1)) result ≡ kind_read (left line.now at) }
{
    let (begins, token, behind) = next_token(line, at);
    let Token::Word(word) = token else {
        return Err(bad(begins));
    };
    if is_keyword(&word, b"trans") {
        return Ok((TableKind::Trans, behind));
    }
    if is_keyword(&word, b"plain") {
        return Ok((TableKind::Plain, behind));
    }
    if is_keyword(&word, b"packed") {
        return Ok((TableKind::Packed, behind));
    }
    Err(bad(begins))
}

fn read_row_limit(line: &[u8], at: usize) -> Result<(i64, usize), Refusal>
    ensures { seen_as (λ x. (x.0, left line.now x.1)) result ≡ row_limit_read (left line.now at) }
{
    let at = read_sign(line, at, b'=')?;
    read_number(line, at)
}

// As many rows as a table may hold, where no limit is written.
fn any_rows(at: usize) -> Result<(i64, usize), Refusal>
    ensures { result ≡ Ok (pos 16777216, at) }
{
    Ok((i64::from(MAX_ROWS), at))
}

/// The most rows that are written, or as many as a table may hold.
#[tactic(auto, using(crate::proofs::Ahead::max_rows_is))]
pub fn read_max_rows(line: &[u8], at: usize) -> Result<(i64, usize), Refusal>
    ensures { seen_as (λ x. (x.0, left line.now x.1)) result ≡ max_rows_read (left line.now at) }
{
    let (_, token, behind) = next_token(line, at);
    let Token::Word(word) = token else {
        return any_rows(at);
    };
    if is_alone(&word, b"max_rows", line, behind) {
        return read_row_limit(line, behind);
    }
    any_rows(at)
}
