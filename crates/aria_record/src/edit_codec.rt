//! Edits of pages: a byte for the kind, and what the edit needs.

ghost use Rattle.std.specs.Prelude.{◌≡◌, ◌^◌, ◌<◌, ◌++◌, length, All, IfSome, IfOk, OnOk};
ghost use Rattle.std.specs.List.{flat_map};
ghost use Rattle.aria_page.specs.Change.{edit_of, edits_of};
ghost use Rattle.aria_page.specs.Edit.{IsWithin};
ghost use Rattle.aria_page.specs.Field.{Gives};
ghost use Rattle.aria_page.specs.Items.{items_at, list_at, list_bytes};
ghost use Rattle.aria_page.specs.Number.{number};
ghost use Rattle.aria_page.specs.Text.{counted};
ghost use Rattle.aria_record.specs.Spelled.{edit_bytes};
ghost use Rattle.aria_record.specs.Reading.{read_set, read_shift, read_body_edit, read_edit, read_edits};

use aria_page::{
    BODY_BYTES, Bytes, Change, Edit, List, bytes_at, counted_u16_at, push_counted_u16, push_u8,
    push_u16, u8_at, u16_at,
};
use std::alloc::{AllocError, Global};

fn push_set(out: &mut Bytes, at: u16, bytes: &[u8]) -> Result<(), AllocError>
    requires { length bytes.now < 65536 }
    ensures { OnOk result (out.new ≡ out.old ++ (number 2 at ++ counted 2 bytes.now)) }
{
    push_u16(out, at)?;
    push_counted_u16(out, bytes)
}

fn push_pair(out: &mut Bytes, len: u16, to: u16) -> Result<(), AllocError>
    ensures { OnOk result (out.new ≡ out.old ++ (number 2 len ++ number 2 to)) }
{
    push_u16(out, len)?;
    push_u16(out, to)
}

fn push_shift(out: &mut Bytes, at: u16, len: u16, to: u16) -> Result<(), AllocError>
    ensures { OnOk result (out.new ≡ out.old ++ (number 2 at ++ (number 2 len ++ number 2 to))) }
{
    push_u16(out, at)?;
    push_pair(out, len, to)
}

#[tactic(auto, unfolding(crate::specs::Reading::read_set, crate::specs::Reading::read_as, crate::specs::Reading::read_both))]
fn set_at(bytes: &[u8]) -> Option<(Change<'_>, &[u8])>
    ensures read { Gives (λ x. (edit_of x.0, x.1.now)) result (read_set bytes.now) }
    ensures within { IfSome result (λ x. IsWithin (edit_of x.0)) }
{
    let (at, rest) = u16_at(bytes)?;
    let (bytes, rest) = counted_u16_at(rest)?;
    if bytes.len() > BODY_BYTES || at as usize + bytes.len() > BODY_BYTES {
        return None;
    }
    Some((Change::Set { at, bytes }, rest))
}

#[tactic(auto, unfolding(crate::specs::Reading::read_shift, crate::specs::Reading::read_as, crate::specs::Reading::read_both))]
fn shift_at(bytes: &[u8]) -> Option<(Change<'_>, &[u8])>
    ensures read { Gives (λ x. (edit_of x.0, x.1.now)) result (read_shift bytes.now) }
    ensures within { IfSome result (λ x. IsWithin (edit_of x.0)) }
{
    let (at, rest) = u16_at(bytes)?;
    let (len, rest) = u16_at(rest)?;
    let (to, rest) = u16_at(rest)?;
    if at as usize + len as usize <= BODY_BYTES && to as usize + len as usize <= BODY_BYTES {
        Some((Change::Shift { at, len, to }, rest))
    } else {
        None
    }
}

#[tactic(auto, unfolding(crate::specs::Reading::read_body_edit, crate::specs::Reading::read_as))]
fn whole_at(bytes: &[u8]) -> Option<(Change<'_>, &[u8])>
    ensures read { Gives (λ x. (edit_of x.0, x.1.now)) result (read_body_edit bytes.now) }
    ensures within { IfSome result (λ x. IsWithin (edit_of x.0)) }
{
    let (body, rest) = bytes_at(bytes, BODY_BYTES)?;
    Some((Change::Whole { body }, rest))
}

// The edit with its bytes lent.
fn lent(edit: &Edit) -> Change<'_>
    ensures { edit_of result ≡ edit.now }
{
    match edit {
        Edit::Set { at, bytes } => Change::Set {
            at: *at,
            bytes: bytes.as_slice(),
        },
        Edit::Shift { at, len, to } => Change::Shift {
            at: *at,
            len: *len,
            to: *to,
        },
        Edit::Whole { body } => Change::Whole {
            body: body.as_slice(),
        },
    }
}

fn push_change(out: &mut Bytes, edit: Change<'_>) -> Result<(), AllocError>
    requires { IsWithin (edit_of edit) }
    ensures { OnOk result (out.new ≡ out.old ++ edit_bytes (edit_of edit.entry)) }
{
    match edit {
        Change::Set { at, bytes } => {
            out.push(0)?;
            push_set(out, at, bytes)
        }
        Change::Shift { at, len, to } => {
            out.push(1)?;
            push_shift(out, at, len, to)
        }
        Change::Whole { body } => {
            out.push(2)?;
            out.extend_from_slice(body)
        }
    }
}

fn push_edits(out: &mut Bytes, edits: &[Edit]) -> Result<(), AllocError>
    requires { All IsWithin edits.now }
    ensures { OnOk result (out.new ≡ out.old ++ flat_map edit_bytes edits.now) }
{
    for edit in edits {
        push_change(out, lent(edit))?;
    }
    Ok(())
}

// Edits behind a byte with their number.
pub(crate) fn push_all_edits(out: &mut Bytes, edits: &[Edit]) -> Result<(), AllocError>
    requires few { length edits.now < 256 }
    requires within { All IsWithin edits.now }
    ensures { OnOk result (out.new ≡ out.old ++ list_bytes edit_bytes edits.now) }
{
    push_u8(out, edits.len() as u8)?;
    push_edits(out, edits)
}

fn push_changes(out: &mut Bytes, edits: &[Change<'_>]) -> Result<(), AllocError>
    requires { All (λ e. IsWithin (edit_of e)) edits.now }
    ensures { OnOk result (out.new ≡ out.old ++ flat_map edit_bytes (edits_of edits.now)) }
{
    for edit in edits {
        push_change(out, *edit)?;
    }
    Ok(())
}

// Edits whose bytes are lent, behind a byte with their number.
pub(crate) fn push_all_changes(out: &mut Bytes, edits: &[Change<'_>]) -> Result<(), AllocError>
    requires few { length edits.now < 256 }
    requires within { All (λ e. IsWithin (edit_of e)) edits.now }
    ensures { OnOk result (out.new ≡ out.old ++ list_bytes edit_bytes (edits_of edits.now)) }
{
    push_u8(out, edits.len() as u8)?;
    push_changes(out, edits)
}

// The edit in front with its bytes lent, and the bytes after it.
#[tactic(auto, unfolding(crate::specs::Reading::read_edit))]
pub(crate) fn change_at(bytes: &[u8]) -> Option<(Change<'_>, &[u8])>
    ensures read { Gives (λ x. (edit_of x.0, x.1.now)) result (read_edit bytes.now) }
    ensures within { IfSome result (λ x. IsWithin (edit_of x.0)) }
{
    match bytes {
        [0, rest @ ..] => set_at(rest),
        [1, rest @ ..] => shift_at(rest),
        [2, rest @ ..] => whole_at(rest),
        _ => None,
    }
}

// The edit with copies of its bytes.
fn owned(alloc: Global, edit: Change<'_>) -> Result<Edit, AllocError>
    ensures { IfOk result (λ owned. owned ≡ edit_of edit.entry) }
{
    match edit {
        Change::Set { at, bytes } => {
            let bytes = List::from_slice(alloc, bytes)?;
            Ok(Edit::Set { at, bytes })
        }
        Change::Shift { at, len, to } => Ok(Edit::Shift { at, len, to }),
        Change::Whole { body } => {
            let body = List::from_slice(alloc, body)?;
            Ok(Edit::Whole { body })
        }
    }
}

// The edit in front, and the bytes after it.
fn edit_at(alloc: Global, bytes: &[u8]) -> Result<Option<(Edit, &[u8])>, AllocError>
    ensures { IfOk result (λ r. Gives (λ x. (x.0, x.1.now)) r (read_edit bytes.now)) }
{
    match change_at(bytes) {
        None => Ok(None),
        Some((edit, rest)) => {
            let edit = owned(alloc, edit)?;
            Ok(Some((edit, rest)))
        }
    }
}

// So many edits, and the bytes after them.
fn edits_from(
    alloc: Global,
    count: u8,
    bytes: &[u8],
) -> Result<Option<(List<Edit>, &[u8])>, AllocError>
    ensures { IfOk result (λ r. Gives (λ x. (x.0, x.1.now)) r (items_at read_edit count bytes.now)) }
{
    let mut edits = List::new(alloc);
    let mut rest = bytes;
    for _ in 0..count {
        match edit_at(alloc, rest)? {
            None => return Ok(None),
            Some((edit, after)) => {
                edits.push(edit)?;
                rest = after;
            }
        }
    }
    Ok(Some((edits, rest)))
}

#[tactic(auto, unfolding(aria_page::specs::Items::list_at))]
fn all_edits_at(alloc: Global, bytes: &[u8]) -> Result<Option<(List<Edit>, &[u8])>, AllocError>
    ensures { IfOk result (λ r. Gives (λ x. (x.0, x.1.now)) r (list_at read_edit bytes.now)) }
{
    match u8_at(bytes) {
        None => Ok(None),
        Some((count, rest)) => edits_from(alloc, count, rest),
    }
}

// One edit or more behind a byte with their number, and the bytes after them.
#[tactic(auto, unfolding(crate::specs::Reading::read_edits, crate::specs::Reading::read_as))]
pub(crate) fn edits_at(
    alloc: Global,
    bytes: &[u8],
) -> Result<Option<(List<Edit>, &[u8])>, AllocError>
    ensures { IfOk result (λ r. Gives (λ x. (x.0, x.1.now)) r (read_edits bytes.now)) }
{
    match all_edits_at(alloc, bytes)? {
        None => Ok(None),
        Some((edits, rest)) => {
            if edits.len() == 0 {
                return Ok(None);
            }
            Ok(Some((edits, rest)))
        }
    }
}
