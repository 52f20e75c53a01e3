//! Items put into pages that have no room.

ghost use Rattle.std.specs.Prelude.{◌≡◌, ◌+◌, ◌<◌, ◌≤◌, ◌^◌, ℕ, length, true, IsTrue, IsSome, IfOk, OnOk, nat_le, if◌then◌else◌};
ghost use Rattle.aria_keypage.specs.declared.item.TheConstants.{ENTRY_MAX};
ghost use Rattle.aria_keypage.specs.Content.{Content, width};
ghost use Rattle.aria_cache.specs.PageState.{with_count};
ghost use Rattle.aria_cache.specs.Calls.{SameSlots, SameLog, FewerLate, StaysIn, fault_of, Answers, Spends};
ghost use Rattle.aria_cache.specs.Causes.{HasPagesCause};
ghost use Rattle.aria_key.specs.Step.{in_right};
ghost use Rattle.aria_key.specs.Held.{HasContent, IsPutInHalf};
ghost use Rattle.aria_key.specs.Reading.{keys_file, OfTree, IsOverfull};

use crate::count::count_of;
use crate::divide::divide;
use crate::put::put;
use aria_cache::{OpenGroup, Pages};
use aria_host::{Fault, FileName};
use aria_keypage::Kind;
use aria_page::{Bytes, Part};
use std::alloc::Global;

// The half of a page that was divided into which an item goes, and its position there.
fn half_of(page: u32, fresh: u32, kind: Kind, k: usize, at: usize) -> (u32, usize)
    ensures page { result.0 ≡ (if nat_le at k then page else fresh) }
    ensures position { result.1 ≡ (if nat_le at k then at else in_right kind k at) }
{
    if at <= k {
        return (page, at);
    }
    match kind {
        Kind::Leaf => (fresh, at - k),
        Kind::Node => (fresh, at - (k + 1)),
    }
}

// Divides a page of the index file, a fresh one taking the right half, and puts an item into one of the two. Gives the
// entry between the two.
pub(crate) fn put_in_half<P: Pages>(
    alloc: Global,
    pages: &mut P,
    group: &mut OpenGroup,
    slot: u32,
    page: u32,
    fresh: u32,
    kind: Kind,
    at: usize,
    entry: &[u8],
    to: u64,
) -> Result<Bytes, Fault>
    requires stands { P.stands pages.old }
    requires open { IsTrue ((P.state pages.old).is_open slot) }
    requires group { (P.state pages.old).in_group ≡ true }
    requires fresh { fresh < 2 ^ 31 }
    requires entry { length entry.now ≤ ENTRY_MAX }
    requires to { to < 256 ^ width kind }
    requires touched { IsTrue P.logged → (P.state pages.old).touched + 3 ≤ 48 }
    requires made { IsTrue P.logged → (P.state pages.old).made + 7 ≤ 254 }
    ensures stands { P.stands pages.new }
    ensures moves { P.stays pages.old pages.new }
    ensures slots { SameSlots (P.state pages.old) (P.state pages.new) }
    ensures log { SameLog (P.state pages.old) (P.state pages.new) }
    ensures in_group { (P.state pages.new).in_group ≡ true }
    ensures put { IsTrue P.tells → (c : Content) → HasContent ((P.state pages.old).bodies (keys_file (P.state pages.old) slot)) page c → c.kind ≡ kind → at ≤ length c.items
        → IsSome ((P.state pages.old).bodies (keys_file (P.state pages.old) slot) fresh) → (page ≡ fresh → ⊥)
        → IfOk result (λ between. IsPutInHalf (keys_file (P.state pages.old) slot) page fresh c at (record { entry = entry.now; to = to }) between (P.state pages.old).bodies (P.state pages.new).bodies) }
    ensures late { IsTrue P.tells → OnOk result (FewerLate (P.state pages.old) (P.state pages.new)) }
    ensures inside { IsTrue P.tells → OnOk result (StaysIn P.logged (keys_file (P.state pages.old) slot) (P.state pages.old) (P.state pages.new)) }
    ensures counts { OnOk result ((P.state pages.new).counts ≡ with_count (keys_file (P.state pages.old) slot) (fresh + 1) (P.state pages.old).counts) }
    ensures spends { Spends 3 7 10472 (P.state pages.old) (P.state pages.new) }
    ensures answers { Answers (P.state pages.old) (P.state pages.new) (fault_of result) }
    ensures cause { HasPagesCause (OfTree P.tells P.logged (IsOverfull (P.state pages.old) (keys_file (P.state pages.old) slot) page fresh kind at) (keys_file (P.state pages.old) slot) (P.state pages.old) (P.state pages.new)) (P.state pages.old) (P.state pages.new) (fault_of result) }
{
    let file: FileName = pages.file(slot, Part::Keys);
    let between = divide(alloc, pages, group, slot, page, fresh)?;
    let k = count_of(alloc, pages, slot, page)?;
    let (half, place) = half_of(page, fresh, kind, k, at);
    match put(alloc, pages, group, slot, half, kind, place, entry, to)? {
        true => Ok(between),
        false => Err(pages.stop(Fault::PageDamaged { file, page: half })),
    }
}
