//! The tokens of a line, one after another.

ghost use Rattle.std.specs.Prelude.{◌≡◌, ◌+◌, ◌∷◌, length, drop, IsTrue};
ghost use Rattle.std.specs.List.{prefix_len, take_while, list_all};
ghost use Rattle.aria_page.specs.Word.{begins_word, continues_word, begins_as_word};
ghost use Rattle.aria_model.specs.Token.{is_blank, is_digit, is_sign, word_of as word_spelled, negative_of as negative_spelled, quoted_of as quoted_spelled, text_rest, hex_rest, token_at as token_spelled, tokens};
ghost use Rattle.aria_statement.specs.Lexing.{seen, behind, left, spelled, plain_at};

use crate::number::{negative, positive};
use crate::text::{begins_hex, begins_quote, bytes_from, hex_length, text_length};
use crate::token::Token;
use aria_page::{Name, begins_word, continues_word};

/// Whether this is a space, a tab or a CR.
pub fn is_blank(byte: u8) -> bool
    ensures { result ≡ is_blank byte }
{
    matches!(byte, b' ' | b'\t' | b'\r')
}

fn is_digit(byte: u8) -> bool
    ensures { result ≡ is_digit byte }
{
    matches!(byte, b'0'..=b'9')
}

fn is_sign(byte: u8) -> bool
    ensures { result ≡ is_sign byte }
{
    matches!(byte, b'(' | b')' | b',' | b':' | b'=')
}

fn blanks_in_front(bytes: &[u8]) -> usize
    ensures { result ≡ prefix_len is_blank bytes.now }
{
    bytes.iter().take_while(|byte| is_blank(**byte)).count()
}

fn digits_in_front(bytes: &[u8]) -> usize
    ensures { result ≡ prefix_len is_digit bytes.now }
{
    bytes.iter().take_while(|byte| is_digit(**byte)).count()
}

fn word_in_front(bytes: &[u8]) -> usize
    ensures { result ≡ prefix_len continues_word bytes.now }
{
    bytes
        .iter()
        .take_while(|byte| continues_word(**byte))
        .count()
}

// The token of a word's bytes, unless they are too many, and their number.
fn word_of(word: &[u8]) -> Option<(Token<'_>, usize)>
    requires begins { IsTrue (begins_as_word word.now) }
    requires continues { IsTrue (list_all continues_word word.now) }
    ensures { spelled result ≡ word_spelled word.now }
{
    let name = Name::read(word)?;
    Some((Token::Word(name), word.len()))
}

// The token of a minus and the digits behind it, and the number of their bytes.
fn negative_of(digits: &[u8]) -> Option<(Token<'_>, usize)>
    ensures { spelled result ≡ negative_spelled digits.now }
{
    if digits.is_empty() {
        return None;
    }
    Some((negative(digits), 1 + digits.len()))
}

// The text behind its opening quote, and the number of its bytes with both quotes.
#[tactic(auto, using(crate::proofs::Texts::text_is))]
fn text_of(bytes: &[u8]) -> Option<(Token<'_>, usize)>
    ensures { spelled result ≡ quoted_spelled 1 (text_rest bytes.now) }
{
    let length = text_length(bytes)?;
    Some((Token::Quoted(&bytes[..length]), length + 2))
}

// The same of a hexadecimal text, whose opening takes two bytes.
#[tactic(auto, using(crate::proofs::Texts::hex_is))]
fn hex_of(bytes: &[u8]) -> Option<(Token<'_>, usize)>
    ensures { spelled result ≡ quoted_spelled 2 (hex_rest bytes.now) }
{
    let length = hex_length(bytes)?;
    Some((Token::Hex(&bytes[..length]), length + 3))
}

// The token in front of bytes that begin neither with a blank nor with a text, and the number of its bytes.
#[tactic(auto, using(crate::proofs::Scanning::all_pass))]
fn plain_at(bytes: &[u8]) -> Option<(Token<'_>, usize)>
    ensures { spelled result ≡ plain_at bytes.now }
{
    let first = *bytes.first()?;
    if begins_word(first) {
        word_of(&bytes[..word_in_front(bytes)])
    } else if is_digit(first) {
        let digits = &bytes[..digits_in_front(bytes)];
        Some((positive(digits), digits.len()))
    } else if first == b'-' {
        let behind = &bytes[1..];
        negative_of(&behind[..digits_in_front(behind)])
    } else if is_sign(first) {
        Some((Token::Sign(first), 1))
    } else {
        None
    }
}

// The token in front of bytes that begin with no blank, and the number of its bytes.
#[tactic(auto, using(crate::proofs::Texts::token_is))]
fn token_at(bytes: &[u8]) -> Option<(Token<'_>, usize)>
    ensures { spelled result ≡ token_spelled bytes.now }
{
    if begins_quote(bytes) {
        return text_of(bytes_from(bytes, 1));
    }
    if begins_hex(bytes) {
        return hex_of(bytes_from(bytes, 2));
    }
    plain_at(bytes)
}

// The first byte from `at` on that is no blank.
fn behind_blanks(line: &[u8], at: usize) -> usize
    ensures same { left line.now result ≡ left line.now at }
    ensures front { prefix_len is_blank (drop result line.now) ≡ 0 }
{
    at + blanks_in_front(bytes_from(line, at))
}

/// The next token of a line from byte `at` on: where it begins, itself, and the byte behind it.
pub fn next_token(line: &[u8], at: usize) -> (u64, Token<'_>, usize)
    ensures { left line.now at ≡ (result.0, seen result.1) ∷ behind (seen result.1) (left line.now result.2) }
{
    let at = behind_blanks(line, at);
    let begins = at as u64;
    let rest = bytes_from(line, at);
    if rest.is_empty() {
        return (begins, Token::End, at);
    }
    match token_at(rest) {
        None => (begins, Token::Stray, at),
        Some((token, bytes)) => (begins, token, at + bytes),
    }
}
