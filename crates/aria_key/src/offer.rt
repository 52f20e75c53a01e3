//! The edits that put an item into a page.

ghost use Rattle.std.specs.Prelude.{◌≡◌, ℕ, List, ◌<◌, ◌≤◌, ◌^◌, length, IsTrue, ◌↔◌, IfOk};
ghost use Rattle.aria_page.specs.Page.{page_body};
ghost use Rattle.aria_page.specs.declared.page.TheConstants.{BODY_BYTES};
ghost use Rattle.aria_keypage.specs.declared.item.TheConstants.{ENTRY_MAX};
ghost use Rattle.aria_keypage.specs.Content.{Content, width, Spells};
ghost use Rattle.aria_key.specs.Held.{IsOffer, IsSmall, HasEdits};

use aria_keypage::{KeyPage, Kind, Patch};
use aria_page::Page;
use std::alloc::{AllocError, Global};

// What a page offers for an item.
#[derive(Drop)]
pub(crate) enum Offer {
    // The edits that put it there.
    Room(Patch),
    // It has no room.
    Full,
    // It is another page than it must be.
    Other,
}

// Whether it is the same kind.
pub(crate) fn is_same(kind: Kind, other: Kind) -> bool
    ensures { IsTrue result ↔ (kind ≡ other) }
{
    match kind {
        Kind::Leaf => match other {
            Kind::Leaf => true,
            Kind::Node => false,
        },
        Kind::Node => match other {
            Kind::Leaf => false,
            Kind::Node => true,
        },
    }
}

// What it offers where it is a leaf or a node.
fn offer_of(
    alloc: Global,
    page: &KeyPage<'_>,
    kind: Kind,
    at: usize,
    entry: &[u8],
    to: u64,
) -> Result<Offer, AllocError>
    requires entry { length entry.now ≤ ENTRY_MAX }
    requires to { to < 256 ^ width kind }
    ensures offer { IfOk result (λ r. IsOffer kind page.now at (record { entry = entry.now; to = to }) r) }
    ensures small { IfOk result (λ r. IsSmall r) }
    ensures some { (body : List ℕ) → length body ≡ BODY_BYTES → Spells body page.now → IfOk result (λ r. HasEdits r) }
{
    if !is_same(page.kind(), kind) {
        return Ok(Offer::Other);
    }
    if at > page.count() {
        return Ok(Offer::Other);
    }
    match page.insert(alloc, at, entry, to)? {
        Some(edits) => Ok(Offer::Room(edits)),
        None => Ok(Offer::Full),
    }
}

// What a page of this kind offers for an item at a position.
pub(crate) fn offer_in(
    alloc: Global,
    page: &Page,
    kind: Kind,
    at: usize,
    entry: &[u8],
    to: u64,
) -> Result<Offer, AllocError>
    requires entry { length entry.now ≤ ENTRY_MAX }
    requires to { to < 256 ^ width kind }
    ensures offer { (c : Content) → Spells (page_body page.now) c → IfOk result (λ r. IsOffer kind c at (record { entry = entry.now; to = to }) r) }
    ensures small { IfOk result (λ r. IsSmall r) }
    ensures some { IfOk result (λ r. HasEdits r) }
{
    let _body = page.body();
    match KeyPage::view(page) {
        Some(view) => offer_of(alloc, &view, kind, at, entry, to),
        None => Ok(Offer::Other),
    }
}
