//! The entries of a group as they lie in its bytes, read without memory.

ghost use Rattle.std.specs.Prelude.{◌≡◌, ℕ, List as Seq, Some, IfSome};
ghost use Rattle.aria_page.specs.declared.edit.Edit.{Edit as AnyEdit};
ghost use Rattle.aria_page.specs.Change.{edit_of};
ghost use Rattle.aria_page.specs.Edit.{IsWithin};
ghost use Rattle.aria_page.specs.Field.{Gives};
ghost use Rattle.aria_record.specs.declared.record.Record.{Record as AnyRecord};
ghost use Rattle.aria_record.specs.Reading.{read_kind, read_group};
ghost use Rattle.aria_record.specs.InPlace.{read_frame, read_redo_head, IsFirstEdit, IsFirstEntry, IsRedo, Tells, Begins, AreEdits, AreEntries};

use crate::edit_codec::change_at;
use crate::field_codec::{page_at, part_at};
use crate::record_kind::RecordKind;
use aria_page::{Change, Name, Part, RedoKind, counted_u32_at, name_at, u8_at};

/// Edits of a page as they lie in the bytes of an entry.
#[derive(Clone, Copy)]
pub struct Edits<'a> {
    left: u8,
    rest: &'a [u8],
}

/// An entry as it lies in the bytes of a group.
#[derive(Clone, Copy)]
pub enum Entry<'a> {
    /// Edits of a page of a table.
    Redo {
        kind: RedoKind,
        table: Name,
        part: Part,
        page: u32,
        edits: Edits<'a>,
    },
    /// Any other entry: its kind and its body.
    Other {
        kind: RecordKind,
        body: &'a [u8],
    },
}

/// The entries of a group as they lie in its bytes.
#[derive(Clone, Copy)]
pub struct Entries<'a> {
    left: u8,
    rest: &'a [u8],
}

impl<'a> Edits<'a> {
    /// The first edit, and those behind it.
    pub fn split_first(self) -> Option<(Change<'a>, Edits<'a>)>
        ensures first { (edits : Seq AnyEdit) → AreEdits self.entry edits → IsFirstEdit result edits }
        ensures within { IfSome result (λ x. IsWithin (edit_of x.0)) }
    {
        if self.left == 0 {
            return None;
        }
        match change_at(self.rest) {
            None => None,
            Some((edit, rest)) => {
                let left = self.left - 1;
                Some((edit, Edits { left, rest }))
            }
        }
    }
}

// The table, the part, the page and the number of edits.
#[tactic(auto, unfolding(crate::specs::InPlace::read_redo_head, crate::specs::Reading::read_both))]
fn redo_head_at(body: &[u8]) -> Option<((Name, Part, u32, u8), &[u8])>
    ensures { Gives (λ x. ((x.0.0, (x.0.1, (x.0.2, x.0.3))), x.1.now)) result (read_redo_head body.now) }
{
    match name_at(body) {
        None => None,
        Some((table, rest)) => {
            let (part, rest) = part_at(rest)?;
            let (page, rest) = page_at(rest)?;
            let (left, rest) = u8_at(rest)?;
            Some(((table, part, page, left), rest))
        }
    }
}

// Edits of a page, as they lie in a body.
fn redo_of(kind: RedoKind, body: &[u8]) -> Option<Entry<'_>>
    ensures { IsRedo kind result (read_redo_head body.now) }
{
    match redo_head_at(body) {
        None => None,
        Some(((table, part, page, left), rest)) => {
            let edits = Edits { left, rest };
            Some(Entry::Redo {
                kind,
                table,
                part,
                page,
                edits,
            })
        }
    }
}

// The entry of a kind that a body spells.
fn entry_of(kind: RecordKind, body: &[u8]) -> Option<Entry<'_>>
    ensures { (r : AnyRecord) → read_kind kind body.now ≡ Some r → Tells result r }
{
    match kind {
        RecordKind::Redo(kind) => redo_of(kind, body),
        _ => Some(Entry::Other { kind, body }),
    }
}

// The kind and the body of the entry in front, and the bytes after it.
#[tactic(auto, unfolding(crate::specs::InPlace::read_frame))]
fn frame_at(bytes: &[u8]) -> Option<((RecordKind, &[u8]), &[u8])>
    ensures { Gives (λ x. ((x.0.0, x.0.1.now), x.1.now)) result (read_frame bytes.now) }
{
    let (byte, rest) = u8_at(bytes)?;
    let (body, after) = counted_u32_at(rest)?;
    let kind = RecordKind::from_byte(byte)?;
    Some(((kind, body), after))
}

impl<'a> Entries<'a> {
    /// The entries of the group that stands in front of the bytes.
    pub fn of(bytes: &'a [u8]) -> Option<Entries<'a>>
        ensures { (group : Seq AnyRecord) (rest : Seq ℕ) → read_group bytes.now ≡ Some (group, rest) → Begins result group }
    {
        match counted_u32_at(bytes) {
            None => None,
            Some((content, _after)) => match u8_at(content) {
                None => None,
                Some((left, rest)) => Some(Entries { left, rest }),
            },
        }
    }

    /// The first entry, and those behind it.
    pub fn split_first(self) -> Option<(Entry<'a>, Entries<'a>)>
        ensures { (records : Seq AnyRecord) → AreEntries self.entry records → IsFirstEntry result records }
    {
        if self.left == 0 {
            return None;
        }
        match frame_at(self.rest) {
            None => None,
            Some(((kind, body), rest)) => match entry_of(kind, body) {
                None => None,
                Some(entry) => {
                    let left = self.left - 1;
                    Some((entry, Entries { left, rest }))
                }
            },
        }
    }
}
