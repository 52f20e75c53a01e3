//! The edits that put an item of a node in the place of another.

ghost use Rattle.std.specs.Prelude.{◌≡◌, ◌+◌, ◌<◌, ◌≤◌, ◌^◌, ◌++◌, length, All, IsTrue, IfOk, IfSome};
ghost use Rattle.aria_page.specs.Change.{edit_of, edits_of};
ghost use Rattle.aria_page.specs.Edit.{IsWithin, all_edited};
ghost use Rattle.aria_page.specs.Page.{page_body};
ghost use Rattle.aria_keypage.specs.declared.item.TheConstants.{ENTRY_MAX};
ghost use Rattle.aria_keypage.specs.declared.kind.Kind.TheVariants.{Node};
ghost use Rattle.aria_keypage.specs.Content.{Content, Spells};
ghost use Rattle.aria_cache.specs.Calls.{fault_of, Answers, Loads};
ghost use Rattle.aria_cache.specs.Causes.{HasPagesCause};
ghost use Rattle.aria_key.specs.Held.{HasContent};
ghost use Rattle.aria_key.specs.Exchanging.{IsSpace, IsSmallSpace, IsExchanged, IsSmallExchange};
ghost use Rattle.aria_key.specs.Merging.{HasItem};
ghost use Rattle.aria_key.specs.Reading.{keys_file, OfKeyPage};

use crate::offer::{Offer, offer_in};
use crate::take_out::removal_in;
use aria_cache::{PageId, Pages};
use aria_host::{Fault, FileName};
use aria_keypage::{Kind, Patch};
use aria_page::{Change, Page, Part, apply_all};
use std::alloc::{AllocError, Global};

// The edits that take an item out of a page, and those that then put another in its place.
#[derive(Drop)]
pub(crate) struct Exchange {
    pub out: Patch,
    pub put: Patch,
}

// What a node offers for an item in the place of another.
#[derive(Drop)]
pub(crate) enum Space {
    // The edits that put it there.
    Room(Exchange),
    // It has no room.
    Full,
    // It is another page than it must be.
    Other,
}

// All edits of an exchange.
pub(crate) fn all_edits<'a>(out: &'a Patch, put: &'a Patch) -> [Change<'a>; 6]
    ensures edits { edits_of result ≡ out.now ++ put.now }
    ensures count { length result ≡ 6 }
    ensures within { All (λ e. IsWithin (edit_of e)) result }
{
    let [a, b, c] = out.edits();
    let [d, e, f] = put.edits();
    [a, b, c, d, e, f]
}

// The page after edits.
fn edited(page: &Page, edits: &Patch) -> Page
    ensures { page_body result ≡ all_edited edits.now (page_body page.now) }
{
    let mut copy = *page;
    apply_all(&edits.edits(), &mut copy);
    copy
}

// What a page offers for an item in the place of the one at a position.
fn space_in(
    alloc: Global,
    page: &Page,
    at: usize,
    entry: &[u8],
    to: u32,
) -> Result<Space, AllocError>
    requires { length entry.now ≤ ENTRY_MAX }
    ensures space { (c : Content) → Spells (page_body page.now) c → IfOk result (λ r. IsSpace c at (record { entry = entry.now; to = to }) r) }
    ensures small { IfOk result IsSmallSpace }
{
    let _body = page.body();
    match removal_in(alloc, page, Kind::Node, at)? {
        Some(out) => {
            let copy = edited(page, &out);
            match offer_in(alloc, &copy, Kind::Node, at, entry, to as u64)? {
                Offer::Room(put) => Ok(Space::Room(Exchange { out, put })),
                Offer::Full => Ok(Space::Full),
                Offer::Other => Ok(Space::Other),
            }
        }
        None => Ok(Space::Other),
    }
}

// The edits that put an item in the place of one of a node of the index file; nothing where it has no room.
pub(crate) fn exchange_at<P: Pages>(
    alloc: Global,
    pages: &mut P,
    slot: u32,
    page: u32,
    at: usize,
    entry: &[u8],
    to: u32,
) -> Result<Option<Exchange>, Fault>
    requires stands { P.stands pages.old }
    requires open { IsTrue ((P.state pages.old).is_open slot) }
    requires entry { length entry.now ≤ ENTRY_MAX }
    ensures stands { P.stands pages.new }
    ensures moves { P.stays pages.old pages.new }
    ensures loads { Loads P.tells 1 (P.state pages.old) (P.state pages.new) }
    ensures low { IfOk result (λ r. page < (P.state pages.old).counts (keys_file (P.state pages.old) slot)) }
    ensures most { IfOk result (λ r. page < 2 ^ 31) }
    ensures exchanged { IsTrue P.tells → (c : Content) → HasContent ((P.state pages.old).bodies (keys_file (P.state pages.old) slot)) page c → c.kind ≡ Node → at < length c.items → IfOk result (λ r. IsExchanged c at (record { entry = entry.now; to = to }) r) }
    ensures small { IfOk result (λ r. IfSome r IsSmallExchange) }
    ensures answers { Answers (P.state pages.old) (P.state pages.new) (fault_of result) }
    ensures cause { HasPagesCause (OfKeyPage P.tells P.logged (HasItem Node at) (keys_file (P.state pages.old) slot) page (P.state pages.old) (P.state pages.new)) (P.state pages.old) (P.state pages.new) (fault_of result) }
{
    let file: FileName = pages.file(slot, Part::Keys);
    if page >= pages.count(slot, Part::Keys) {
        return Err(pages.stop(Fault::PageDamaged { file, page }));
    }
    pages.load(
        alloc,
        PageId {
            slot,
            part: Part::Keys,
            page,
        },
    )?;
    match space_in(alloc, pages.loaded(), at, entry, to) {
        Ok(Space::Room(exchange)) => Ok(Some(exchange)),
        Ok(Space::Full) => Ok(None),
        Ok(Space::Other) => Err(pages.stop(Fault::PageDamaged { file, page })),
        Err(AllocError) => Err(pages.stop(Fault::Memory(AllocError))),
    }
}
