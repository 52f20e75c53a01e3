ghost use Rattle.std.specs.Prelude.{◌≡◌, ◌≢◌, ◌+◌, ◌<◌, ◌≤◌, ◌^◌, ℕ, IsTrue, None, IfOk, IfSome, MatchOption, ◌++◌, length};
ghost use Rattle.std.specs.Cmp.Lexicographic.{slice_cmp};
ghost use Rattle.std.specs.Ordering.{nat_cmp};
ghost use Rattle.aria_host.specs.Form.{is_table, IsNamed, NamesNoTable, NamesNone};
ghost use Rattle.arrayvec.specs.ArrayVec.{array_vec_len};
ghost use Rattle.aria_host.specs.Folder.{is_form, is_log, same_file};
ghost use Rattle.aria_host.specs.FileText.{digit, eight_digits, log_text, file_text};

use aria_page::{Bytes, Name};
use arrayvec::ArrayVec;
use std::alloc::{AllocError, Global};
use std::cmp::Ordering;

/// A file of the folder. No other file is ever touched.
#[derive(Clone, Copy, Debug)]
pub enum FileName {
    /// The control file.
    Control,
    /// The log file of that number, which is below 2^24.
    Log(u32),
    /// The index and definition file of a table.
    Keys(Name),
    /// The data file of a table.
    Rows(Name),
    /// The index and definition file that a repair builds anew.
    NewKeys(Name),
    /// The data file that a repair builds anew.
    NewRows(Name),
}

/// The bytes of the end of a table's file.
const END_BYTES: usize = 4;

/// The most bytes of a file's name: a table's name has at most 64, and the end stands behind it.
pub(crate) const TEXT_BYTES: usize = 64 + END_BYTES;

/// The digits of a log file's number.
const DIGITS: usize = 8;

/// Log files are numbered below this.
const MAX_LOGS: u32 = 1 << 24;

const CONTROL: &[u8] = b"aria_log_control";

const LOG: &[u8] = b"aria_log.";

const KEYS: &[u8] = b".MAI";

const ROWS: &[u8] = b".MAD";

const NEW_KEYS: &[u8] = b".TMI";

const NEW_ROWS: &[u8] = b".TMD";

// The decimal digit at that power of ten.
fn digit(number: u32, unit: u32) -> u8
    requires { 0 < unit }
    ensures { result ≡ digit number unit }
{
    b'0' + (number / unit % 10) as u8
}

fn eight_digits(number: u32) -> [u8; DIGITS]
    ensures { result ≡ eight_digits number }
{
    [
        digit(number, 10_000_000),
        digit(number, 1_000_000),
        digit(number, 100_000),
        digit(number, 10_000),
        digit(number, 1_000),
        digit(number, 100),
        digit(number, 10),
        digit(number, 1),
    ]
}

// Adds the bytes behind a text that has room for them.
fn add(text: &mut ArrayVec<u8, TEXT_BYTES>, bytes: &[u8])
    requires { array_vec_len text.old + length bytes.now ≤ 68 }
    ensures items { text.new.items ≡ text.old.items ++ bytes.now }
    ensures len { array_vec_len text.new ≡ array_vec_len text.old + length bytes.now }
{
    let Ok(()) = text.try_extend_from_slice(bytes) else {
        unreachable!();
    };
}

fn joined(front: &[u8], back: &[u8]) -> ArrayVec<u8, TEXT_BYTES>
    requires { length front.now + length back.now ≤ 68 }
    ensures { result.items ≡ front.now ++ back.now }
{
    let mut text = ArrayVec::new();
    add(&mut text, front);
    add(&mut text, back);
    text
}

// What a digit counts; a byte that is none counts at most 255.
fn value(digit: u8) -> u32
    ensures digit { 48 ≤ digit → 48 + result ≡ digit }
    ensures most { result ≤ 255 }
{
    u32::from(digit.wrapping_sub(b'0'))
}

// What eight digits count.
fn number_of(digits: &[u8; DIGITS]) -> u32
    ensures { (number : ℕ) → number < 2 ^ 24 → eight_digits number ≡ digits.now → result ≡ number }
{
    let [a, b, c, d, e, f, g, h] = digits;
    let high = value(*a) * 1000 + value(*b) * 100 + value(*c) * 10 + value(*d);
    let low = value(*e) * 1000 + value(*f) * 100 + value(*g) * 10 + value(*h);
    high * 10_000 + low
}

// The number of a log file that these digits spell.
fn log_number(digits: &[u8]) -> Option<u32>
    ensures { MatchOption result ((number : ℕ) → number < 2 ^ 24 → eight_digits number ≢ digits.now) (λ number. (number < 2 ^ 24) × (eight_digits number ≡ digits.now)) }
{
    let digits = digits.as_array::<DIGITS>()?;
    let number = number_of(digits);
    if number >= MAX_LOGS {
        return None;
    }
    if eight_digits(number) == *digits {
        Some(number)
    } else {
        None
    }
}

// The log file of that name.
fn read_log(text: &[u8]) -> Option<FileName>
    ensures { MatchOption result ((number : ℕ) → number < 2 ^ 24 → log_text number ≢ text.now) (λ file. IsNamed text.now file) }
{
    let digits = text.strip_prefix(LOG)?;
    Some(FileName::Log(log_number(digits)?))
}

// The table's file of that name whose text has this end.
fn with_end(name: Name, end: &[u8]) -> Option<FileName>
    requires { length end.now ≡ 4 }
    ensures none { result ≡ None → (file : FileName) → IsTrue (is_table file) → file_text file ≢ name ++ end.now }
    ensures some { IfSome result (λ file. IsNamed (name ++ end.now) file) }
{
    if end == KEYS {
        Some(FileName::Keys(name))
    } else if end == ROWS {
        Some(FileName::Rows(name))
    } else if end == NEW_KEYS {
        Some(FileName::NewKeys(name))
    } else if end == NEW_ROWS {
        Some(FileName::NewRows(name))
    } else {
        None
    }
}

// The table's file of that name.
#[tactic(auto, using(crate::proofs::Named::too_short, crate::proofs::Named::no_word, crate::proofs::Named::whole))]
fn read_table(text: &[u8]) -> Option<FileName>
    ensures { MatchOption result (NamesNoTable text.now) (λ file. IsNamed text.now file) }
{
    let (front, end) = text.split_last_chunk::<END_BYTES>()?;
    with_end(Name::read(front)?, end)
}

impl FileName {
    /// The file of that name in the folder, if it is of one of the forms.
    #[tactic(auto, using(crate::proofs::Named::no_file))]
    pub(crate) fn read(text: &[u8]) -> Option<FileName>
        ensures { MatchOption result (NamesNone text.now) (λ file. IsNamed text.now file) }
    {
        if text == CONTROL {
            return Some(FileName::Control);
        }
        match read_log(text) {
            Some(file) => Some(file),
            None => read_table(text),
        }
    }

    /// The file's name in the folder, in place.
    pub(crate) fn text_in_place(&self) -> ArrayVec<u8, TEXT_BYTES>
        ensures { result.items ≡ file_text self.now }
    {
        match self {
            FileName::Control => joined(CONTROL, b""),
            FileName::Log(number) => joined(LOG, &eight_digits(*number)),
            FileName::Keys(name) => joined(name.as_slice(), KEYS),
            FileName::Rows(name) => joined(name.as_slice(), ROWS),
            FileName::NewKeys(name) => joined(name.as_slice(), NEW_KEYS),
            FileName::NewRows(name) => joined(name.as_slice(), NEW_ROWS),
        }
    }

    /// The file's name in the folder.
    pub fn text(&self, alloc: Global) -> Result<Bytes, AllocError>
        ensures { IfOk result (λ text. text ≡ file_text self.now) }
    {
        Bytes::from_slice(alloc, self.text_in_place().as_slice())
    }

    /// Compares the names of two files in the folder, byte by byte.
    pub fn compare_texts(&self, other: &FileName) -> Ordering
        ensures { result ≡ slice_cmp nat_cmp (file_text self.now) (file_text other.now) }
    {
        self.text_in_place()
            .as_slice()
            .cmp(other.text_in_place().as_slice())
    }

    /// Whether the number of a log file is below 2^24.
    pub(crate) fn is_form(&self) -> bool
        ensures { result ≡ is_form self.now }
    {
        match self {
            FileName::Log(number) => *number < MAX_LOGS,
            _ => true,
        }
    }

    /// Whether it is a file of the log.
    pub(crate) fn is_log(&self) -> bool
        ensures { result ≡ is_log self.now }
    {
        matches!(self, FileName::Log(_))
    }

    /// Whether the two name the same file.
    pub fn is_same(&self, other: &FileName) -> bool
        ensures { result ≡ same_file self.now other.now }
    {
        match self {
            FileName::Control => matches!(other, FileName::Control),
            FileName::Log(number) => matches!(other, FileName::Log(n) if n == number),
            FileName::Keys(name) => matches!(other, FileName::Keys(n) if n == name),
            FileName::Rows(name) => matches!(other, FileName::Rows(n) if n == name),
            FileName::NewKeys(name) => matches!(other, FileName::NewKeys(n) if n == name),
            FileName::NewRows(name) => matches!(other, FileName::NewRows(n) if n == name),
        }
    }
}
