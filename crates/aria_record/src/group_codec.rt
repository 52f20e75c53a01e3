//! Groups of the log as they are stored (docs/FORMATS.md, "Groups").

ghost use Rattle.std.specs.Prelude.{◌≡◌, ◌^◌, ◌<◌, ◌++◌, List as Seq, [], ℕ, length, All, IfOk, IfSome, OnOk};
ghost use Rattle.aria_page.specs.Field.{Gives};
ghost use Rattle.aria_record.specs.declared.record.Record.{Record as AnyRecord};
ghost use Rattle.aria_record.specs.Groups.{RecordFits, IsGroup, IsInFront};
ghost use Rattle.aria_record.specs.Spelled.{content_bytes, group_bytes};
ghost use Rattle.aria_record.specs.Reading.{read_content, read_group, Decodes};

use crate::group::{Group, is_group};
use crate::record::Record;
use crate::record_codec::set_length;
use aria_page::{Bytes, List, counted_u32_at, list_at, push_list, push_u32};
use std::alloc::{AllocError, Global};

// The entries behind 4 bytes with the length of all that follows.
fn push_group(out: &mut Bytes, entries: &[Record]) -> Result<(), AllocError>
    requires few { length entries.now < 256 }
    requires each { All RecordFits entries.now }
    requires size { length (content_bytes entries.now) < 2 ^ 32 }
    ensures { OnOk result (out.new ≡ out.old ++ group_bytes entries.now) }
{
    let at = out.len();
    push_u32(out, 0)?;
    push_list(out, entries)?;
    set_length(out, at);
    Ok(())
}

// The group whose entries the bytes spell behind their number.
#[tactic(auto, unfolding(crate::specs::Reading::read_content, crate::specs::Reading::read_whole))]
fn content_of(alloc: Global, bytes: &[u8]) -> Result<Option<Group>, AllocError>
    ensures { IfOk result (λ r. r ≡ read_content bytes.now) }
{
    match list_at::<Record>(alloc, bytes)? {
        None => Ok(None),
        Some((records, rest)) => {
            if rest.is_empty() && is_group(records.as_slice()) {
                Ok(Some(records))
            } else {
                Ok(None)
            }
        }
    }
}

// The group in front, and the bytes after it.
#[tactic(auto, unfolding(crate::specs::Reading::read_group))]
fn group_at(alloc: Global, bytes: &[u8]) -> Result<Option<(Group, &[u8])>, AllocError>
    ensures { IfOk result (λ r. Gives (λ x. (x.0, x.1.now)) r (read_group bytes.now)) }
{
    match counted_u32_at(bytes) {
        None => Ok(None),
        Some((content, rest)) => match content_of(alloc, content)? {
            None => Ok(None),
            Some(group) => Ok(Some((group, rest))),
        },
    }
}

// The group in front and its length.
fn decode(alloc: Global, bytes: &[u8]) -> Result<Option<(Group, usize)>, AllocError>
    ensures { IfOk result (λ r. Decodes bytes.now r) }
{
    match group_at(alloc, bytes)? {
        None => Ok(None),
        Some((group, rest)) => Ok(Some((group, bytes.len() - rest.len()))),
    }
}

/// The group that stands in front of the bytes, and how many bytes it takes; `None` where none stands there.
pub fn decode_group(alloc: Global, bytes: &[u8]) -> Result<Option<(Group, usize)>, AllocError>
    // What is read is spelled so.
    ensures found { IfOk result (λ r. IfSome r (IsInFront bytes.now)) }
    // What is spelled so is read.
    ensures only { (group : Seq AnyRecord) (rest : Seq ℕ) → IsGroup group → bytes.now ≡ group_bytes group ++ rest → IfOk result (λ r. r ≡ Some (group, length (group_bytes group))) }
{
    decode(alloc, bytes)
}

fn encode(alloc: Global, group: &Group) -> Result<Bytes, AllocError>
    requires { IsGroup group.now }
    ensures { IfOk result (λ bytes. bytes ≡ group_bytes group.now) }
{
    let mut out = List::new(alloc);
    push_group(&mut out, group.as_slice())?;
    Ok(out)
}

/// The bytes of a group.
pub fn encode_group(alloc: Global, group: &Group) -> Result<Bytes, AllocError>
    requires { IsGroup group.now }
    ensures spelled { IfOk result (λ bytes. bytes ≡ group_bytes group.now) }
    // No other group's bytes begin these, and these begin no other group's.
    ensures alone { (other : Seq AnyRecord) (rest : Seq ℕ) → IsGroup other → IfOk result (λ bytes. bytes ≡ group_bytes other ++ rest → (group.now ≡ other) × (rest ≡ [])) }
{
    encode(alloc, group)
}
