ghost use Rattle.std.specs.Prelude.{◌≡◌, ◌≤◌, ◌-◌, ◌++◌, length, replicate, IfSome, IsSome, OnOk, ◌↔◌, IsTrue, ◌==◌, refl};
ghost use Rattle.std.specs.List.{list_all};
ghost use Rattle.std.specs.Cmp.{partial_equiv_from_equiv, unsigned_ties};
ghost use Rattle.std.specs.Cmp.Lexicographic.{slice_cmp, pointwise, nat_list_eq_equiv, nat_list_cmp_total, lists_ties, texts_po};
ghost use Rattle.std.specs.Ordering.{nat_cmp, as_partial_cmp};
ghost use Rattle.aria_page.specs.declared.name.TheConstants.{NAME_BYTES};
ghost use Rattle.aria_page.specs.Field.{Gives};
ghost use Rattle.aria_page.specs.Text.{name_bytes, name_at};
ghost use Rattle.aria_page.specs.Word.{begins_word, continues_word, begins_as_word, is_word};

use crate::bytes::{bytes_at, push_counted_u8};
use crate::list::Bytes;
use crate::number::u8_at;
use std::alloc::AllocError;
use std::cmp::Ordering;
use std::marker::Model;

/// The longest name, in bytes.
pub const NAME_BYTES: usize = 64;

/// The name of a table, a key or a column: a word of at most 64 bytes (docs/LANGUAGE.md, "Tokens").
/// It is kept in place, so a name is copied without memory. Names are ordered by their bytes.
#[derive(Clone, Copy, Debug)]
pub struct Name {
    bytes: [u8; NAME_BYTES],
    len: u8,
}

impl Model for Name {
    ghost use Rattle.std.specs.Prelude.{List, ℕ};
    ghost use Rattle.std.specs.Coded.{coded_list, coded_ℕ};

    ghost Value = { List ℕ };

    ghost coded = { coded_list coded_ℕ };

    ghost use Rattle.aria_page.specs.NameFields.{name_of, IsName, name_fields, name_fields-name_of};

    ghost view = { name_of };

    ghost invariant = { IsName };

    ghost inverse = { name_fields };

    ghost inverse_ok = { name_fields-name_of };
}

/// Whether a word may begin with this byte: a letter or `_`.
pub fn begins_word(byte: u8) -> bool
    ensures { result ≡ begins_word byte }
{
    matches!(byte, b'A'..=b'Z' | b'a'..=b'z' | b'_')
}

/// Whether a word may go on with this byte: a letter, a digit or `_`.
pub fn continues_word(byte: u8) -> bool
    ensures { result ≡ continues_word byte }
{
    begins_word(byte) || matches!(byte, b'0'..=b'9')
}

fn begins_as_word(bytes: &[u8]) -> bool
    ensures { result ≡ begins_as_word bytes.now }
{
    match bytes {
        [] => false,
        [first, ..] => begins_word(*first),
    }
}

fn all_continue(bytes: &[u8]) -> bool
    ensures { result ≡ list_all continues_word bytes.now }
{
    bytes.iter().all(|byte| continues_word(*byte))
}

fn is_word(bytes: &[u8]) -> bool
    ensures { result ≡ is_word bytes.now }
{
    begins_as_word(bytes) && all_continue(bytes) && bytes.len() <= NAME_BYTES
}

// The bytes, and zeros behind them.
#[tactic(auto, using(crate::proofs::Padding::padded_more))]
fn padded(bytes: &[u8]) -> [u8; NAME_BYTES]
    requires { length bytes.now ≤ NAME_BYTES }
    ensures { result ≡ bytes.now ++ replicate (NAME_BYTES - length bytes.now) 0 }
{
    let mut all = [0; NAME_BYTES];
    for (i, byte) in bytes.iter().enumerate() {
        all[i] = *byte;
    }
    all
}

impl Name {
    /// The name that these bytes spell; `None` where they are no word of at most 64 bytes.
    pub fn read(bytes: &[u8]) -> Option<Name>
        ensures word { IsSome result ↔ IsTrue (is_word bytes.now) }
        ensures same { IfSome result (λ name. name ≡ bytes.now) }
    {
        if !is_word(bytes) {
            return None;
        }
        Some(Name {
            bytes: padded(bytes),
            len: bytes.len() as u8,
        })
    }

    pub fn as_slice(&self) -> &[u8]
        ensures value { result.now ≡ self.now }
        ensures word { IsTrue (is_word self.now) }
    {
        &self.bytes[..self.len as usize]
    }
}

impl PartialEq for Name {
    ghost eq = { pointwise ◌==◌ };

    ghost laws = { partial_equiv_from_equiv nat_list_eq_equiv };

    fn eq(&self, other: &Name) -> bool {
        self.as_slice() == other.as_slice()
    }
}

impl Eq for Name {
    ghost laws = { nat_list_eq_equiv };
}

impl Ord for Name {
    ghost cmp = { slice_cmp nat_cmp };

    ghost total = { nat_list_cmp_total };

    ghost matches_partial_cmp = { λ _ _. refl };

    ghost matches_eq = { lists_ties nat_cmp unsigned_ties };

    fn cmp(&self, other: &Name) -> Ordering {
        self.as_slice().cmp(other.as_slice())
    }
}

impl PartialOrd for Name {
    ghost partial_cmp = { as_partial_cmp (slice_cmp nat_cmp) };

    ghost laws = { texts_po };

    fn partial_cmp(&self, other: &Name) -> Option<Ordering> {
        Some(self.cmp(other))
    }
}

/// The name in front, and the bytes after it; `None` where no name stands there.
#[tactic(auto, unfolding(crate::specs::Text::name_at))]
pub fn name_at(bytes: &[u8]) -> Option<(Name, &[u8])>
    ensures { Gives (λ x. (x.0, x.1.now)) result (name_at bytes.now) }
{
    let (len, rest) = u8_at(bytes)?;
    let (word, rest) = bytes_at(rest, len as usize)?;
    let name = Name::read(word)?;
    Some((name, rest))
}

/// Adds the bytes that a name is stored in: 1 byte of length, and the word.
#[tactic(auto, unfolding(crate::specs::Text::name_bytes))]
pub fn push_name(out: &mut Bytes, name: &Name) -> Result<(), AllocError>
    ensures spelled { OnOk result (out.new ≡ out.old ++ name_bytes name.now) }
    ensures word { IsTrue (is_word name.now) }
{
    push_counted_u8(out, name.as_slice())
}
