//! An item as it is stored, apart from the entry before it.

ghost use Rattle.std.specs.Prelude.{◌≡◌, ℕ, ◌<◌, ◌≤◌, ◌^◌, ◌++◌, ◌↔◌, List, length, IsTrue, IfOk};
ghost use Rattle.std.specs.List.{AllByRecursion};
ghost use Rattle.aria_page.specs.Number.{number};
ghost use Rattle.aria_page.specs.Field.{Gives};
ghost use Rattle.aria_keypage.specs.declared.item.TheConstants.{ENTRY_MAX};
ghost use Rattle.aria_keypage.specs.Item.{Item, IsItem, item_at};
ghost use Rattle.aria_keypage.specs.Packed.{common_length, packed_item, IsLeft};
ghost use Rattle.aria_keypage.specs.Content.{width};
ghost use Rattle.aria_keypage.specs.StoredItem.{stored_at, entry_of, IsStored};

use crate::entry::shared_of;
use crate::kind::Kind;
use aria_page::{
    bytes_at, bytes_from, u8_at, u16_at, u16_bytes, u32_at, u32_bytes, u40_at, u40_bytes,
};
use std::alloc::{AllocError, Global};

/// The longest entry, in bytes.
pub const ENTRY_MAX: usize = 1000;

// How many bytes an item shares, the rest of its entry, and the bytes of where it leads.
#[derive(Clone, Copy)]
pub(crate) struct StoredItem<'a> {
    pub shared: u8,
    pub rest: &'a [u8],
    pub to: &'a [u8],
}

// The item in front, and the bytes after it.
#[tactic(auto, unfolding(crate::specs::StoredItem::stored_at))]
pub(crate) fn stored_at<'a>(bytes: &'a [u8], width: usize) -> Option<(StoredItem<'a>, &'a [u8])>
    ensures { Gives (λ x. (record { shared = x.0.shared; rest = x.0.rest.now; to = x.0.to.now }, x.1.now)) result (stored_at width bytes.now) }
{
    let (shared, bytes) = u8_at(bytes)?;
    let (len, bytes) = u16_at(bytes)?;
    let (rest, bytes) = bytes_at(bytes, len as usize)?;
    let (to, bytes) = bytes_at(bytes, width)?;
    Some((StoredItem { shared, rest, to }, bytes))
}

// Whether the two have no leading byte in common.
fn differ(a: &[u8], b: &[u8]) -> bool
    ensures { IsTrue result ↔ (common_length a.now b.now ≡ 0) }
{
    if a.is_empty() {
        return true;
    }
    if b.is_empty() {
        return true;
    }
    a[0] != b[0]
}

// Whether an item stands behind an entry as it must.
pub(crate) fn is_stored(before: &[u8], item: &StoredItem<'_>) -> bool
    ensures { IsTrue result ↔ IsStored before.now (record { shared = item.now.shared; rest = item.now.rest.now; to = item.now.to.now }) }
{
    let shared = item.shared as usize;
    if shared > before.len() {
        return false;
    }
    if shared + item.rest.len() > ENTRY_MAX {
        return false;
    }
    if item.shared == u8::MAX {
        return true;
    }
    differ(bytes_from(before, shared), item.rest)
}

// Adds what is stored of an entry behind another, and the bytes of where it leads.
pub(crate) fn push_stored(
    out: &mut Vec<u8>,
    before: &[u8],
    entry: &[u8],
    to: &[u8],
) -> Result<(), AllocError>
    requires { length entry.now ≤ ENTRY_MAX }
    ensures { IfOk result (λ _. (w n : ℕ) → to.now ≡ number w n → out.new.items ≡ out.old.items ++ packed_item w before.now (record { entry = entry.now; to = n })) }
{
    let shared = shared_of(before, entry);
    let rest = bytes_from(entry, shared as usize);
    out.push(shared)?;
    out.extend_from_slice(&u16_bytes(rest.len() as u16))?;
    out.extend_from_slice(rest)?;
    out.extend_from_slice(to)?;
    Ok(())
}

// Adds an item behind an entry.
pub(crate) fn push_item(
    out: &mut Vec<u8>,
    kind: Kind,
    before: &[u8],
    entry: &[u8],
    to: u64,
) -> Result<(), AllocError>
    requires entry { length entry.now ≤ ENTRY_MAX }
    requires to { to < 256 ^ width kind }
    ensures { IfOk result (λ _. out.new.items ≡ out.old.items ++ packed_item (width kind) before.now (record { entry = entry.now; to = to })) }
{
    match kind {
        Kind::Leaf => push_stored(out, before, entry, &u40_bytes(to)),
        Kind::Node => push_stored(out, before, entry, &u32_bytes(to as u32)),
    }
}

// The entry of an item behind the one before it.
pub(crate) fn entry_behind(
    alloc: Global,
    before: &[u8],
    item: &StoredItem<'_>,
) -> Result<Vec<u8>, AllocError>
    ensures { IfOk result (λ entry. entry.items ≡ entry_of before.now (record { shared = item.now.shared; rest = item.now.rest.now; to = item.now.to.now })) }
{
    let mut entry = Vec::from_slice(alloc, before)?;
    entry.truncate(item.shared as usize);
    entry.extend_from_slice(item.rest)?;
    Ok(entry)
}

// The number in bytes of the size of a target or of a child.
pub(crate) fn number_in(kind: Kind, bytes: &[u8]) -> u64
    ensures { (n : ℕ) → n < 256 ^ width kind → bytes.now ≡ number (width kind) n → result ≡ n }
{
    match kind {
        Kind::Leaf => match u40_at(bytes) {
            Some((n, _)) => n,
            None => 0,
        },
        Kind::Node => match u32_at(bytes) {
            Some((n, _)) => n as u64,
            None => 0,
        },
    }
}

// Where the item leads that stands in front.
pub(crate) fn target_of(kind: Kind, rest: &[u8]) -> u64
    ensures { (xs : List Item) → (at : ℕ) → AllByRecursion (IsItem (width kind)) xs → IsLeft (width kind) xs at rest.now → at < length xs → result ≡ (item_at xs at).to }
{
    let Some((item, _)) = stored_at(rest, kind.width()) else {
        return 0;
    };
    number_in(kind, item.to)
}
