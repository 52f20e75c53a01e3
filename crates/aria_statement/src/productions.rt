//! A reader for each small production of the grammar. It reads a line from byte `at` on, and gives what it
//! read and the byte behind it.

ghost use Rattle.std.specs.Prelude.{◌≡◌};
ghost use Rattle.aria_value.specs.Defined.{same_name};
ghost use Rattle.aria_model.specs.declared.refusal.Refusal.TheVariants.{BadStatement};
ghost use Rattle.aria_model.specs.Grammar.{name as name_read, keyword as keyword_read, sign as sign_read, number as number_read, the_end as end_read, behind_comma as behind_comma_read};
ghost use Rattle.aria_statement.specs.Lexing.{left};
ghost use Rattle.aria_statement.specs.Reading.{seen_as, left_if, begins_colon};

use crate::lexer::next_token;
use crate::token::Token;
use aria_model::Refusal;
use aria_page::Name;

/// No statement goes on with the token at this byte.
pub fn bad(at: u64) -> Refusal
    ensures { result ≡ BadStatement at }
{
    Refusal::BadStatement { at }
}

pub fn read_name(line: &[u8], at: usize) -> Result<(Name, usize), Refusal>
    ensures { seen_as (λ x. (x.0, left line.now x.1)) result ≡ name_read (left line.now at) }
{
    let (begins, token, behind) = next_token(line, at);
    match token {
        Token::Word(name) => Ok((name, behind)),
        _ => Err(bad(begins)),
    }
}

/// Whether a word is a word of the grammar.
pub fn is_keyword(word: &Name, keyword: &[u8]) -> bool
    ensures { result ≡ same_name word.now keyword.now }
{
    word.as_slice() == keyword
}

pub fn read_keyword(line: &[u8], at: usize, expected: &[u8]) -> Result<usize, Refusal>
    ensures { seen_as (left line.now) result ≡ keyword_read expected.now (left line.now at) }
{
    let (begins, token, behind) = next_token(line, at);
    match token {
        Token::Word(word) => {
            if is_keyword(&word, expected) {
                Ok(behind)
            } else {
                Err(bad(begins))
            }
        }
        _ => Err(bad(begins)),
    }
}

pub fn read_sign(line: &[u8], at: usize, expected: u8) -> Result<usize, Refusal>
    ensures { seen_as (left line.now) result ≡ sign_read expected (left line.now at) }
{
    let (begins, token, behind) = next_token(line, at);
    match token {
        Token::Sign(found) if found == expected => Ok(behind),
        _ => Err(bad(begins)),
    }
}

pub fn read_number(line: &[u8], at: usize) -> Result<(i64, usize), Refusal>
    ensures { seen_as (λ x. (x.0, left line.now x.1)) result ≡ number_read (left line.now at) }
{
    let (begins, token, behind) = next_token(line, at);
    match token {
        Token::Number(n) => Ok((n, behind)),
        Token::Wide => Err(Refusal::NumberTooWide { at: begins }),
        _ => Err(bad(begins)),
    }
}

/// What was read, where the line ends behind it.
pub fn read_end<X: Drop>(line: &[u8], at: usize, read: X) -> Result<X, Refusal>
    ensures { result ≡ end_read read (left line.now at) }
{
    let (begins, token, _) = next_token(line, at);
    match token {
        Token::End => Ok(read),
        _ => Err(bad(begins)),
    }
}

/// The place behind a comma that follows.
pub fn behind_comma(line: &[u8], at: usize) -> Option<usize>
    ensures { left_if line.now result ≡ behind_comma_read (left line.now at) }
{
    let (_, token, behind) = next_token(line, at);
    match token {
        Token::Sign(b',') => Some(behind),
        _ => None,
    }
}

/// Whether a colon follows.
pub fn colon_follows(line: &[u8], at: usize) -> bool
    ensures { result ≡ begins_colon (left line.now at) }
{
    let (_, token, _) = next_token(line, at);
    match token {
        Token::Sign(b':') => true,
        _ => false,
    }
}
