ghost use Rattle.std.specs.Prelude.{◌≡◌, ◌≢◌, ◌+◌, ◌-◌, ◌%◌, ◌^◌, ◌<◌, ◌≤◌, ℕ, List, Some, true, IsTrue, IfOk, OnOk, MatchOption, ⊤, length};
ghost use Rattle.aria_page.specs.declared.page.TheConstants.{BODY_BYTES};
ghost use Rattle.aria_cache.specs.Calls.{fault_of, Answers, Spends, StaysIn, SameSlots, SameLog};
ghost use Rattle.aria_cache.specs.Causes.{HasPagesCause};
ghost use Rattle.aria_block.specs.declared.layout.TheConstants.{MAP_EVERY};
ghost use Rattle.aria_block.specs.Causes.{rows_file, OfFile, KeepsSound};
ghost use Rattle.aria_block.specs.Pieces.{Pieces};
ghost use Rattle.aria_block.specs.PartPage.{part_piece};
ghost use Rattle.aria_block.specs.DataFile.{HoldsData};
ghost use Rattle.aria_block.specs.Cut.{PartTaken};
ghost use Rattle.aria_block.specs.Puts.{entries_between, NoSpot, PartKept};

use crate::codes::set_code;
use crate::part::put_part;
use crate::part_kind::PartKind;
use crate::take::take_part;
use aria_cache::{OpenGroup, Pages};
use aria_host::{Fault, FileName};
use std::alloc::Global;

/// Puts a part on a page and sets the pattern of the page to its code. Tells the slot, which is the one that is given or
/// else the lowest; `None`, with nothing changed, where the page has no room for it.
pub(crate) fn place_part<P: Pages>(
    alloc: Global,
    pages: &mut P,
    group: &mut OpenGroup,
    slot: u32,
    page: u32,
    kind: PartKind,
    nth: Option<u8>,
    bytes: &[u8],
) -> Result<Option<u8>, Fault>
    requires stands { P.stands pages.old }
    requires open { IsTrue ((P.state pages.old).is_open slot) }
    requires group { (P.state pages.old).in_group ≡ true }
    requires below { page < (P.state pages.old).counts (rows_file (P.state pages.old) slot) }
    requires low { page < 2 ^ 31 }
    requires plain { page % MAP_EVERY ≢ 0 }
    requires few { length bytes.now ≤ BODY_BYTES }
    requires room { IsTrue P.logged → ((P.state pages.old).touched + 1 < 48) × ((P.state pages.old).made + 4 ≤ 254) }
    ensures stands { P.stands pages.new }
    ensures moves { P.stays pages.old pages.new }
    ensures slots { SameSlots (P.state pages.old) (P.state pages.new) }
    ensures log { SameLog (P.state pages.old) (P.state pages.new) }
    ensures in_group { (P.state pages.new).in_group ≡ true }
    ensures spends { Spends 2 4 (183 + length bytes.now + entries_between nth) (P.state pages.old) (P.state pages.new) }
    ensures holds { IsTrue P.tells → (pieces : Pieces) → HoldsData ((P.state pages.old).counts (rows_file (P.state pages.old) slot)) ((P.state pages.old).bodies (rows_file (P.state pages.old) slot)) pieces → IfOk result (λ r. MatchOption r
        (NoSpot kind (rows_file (P.state pages.old) slot) page nth (length bytes.now) (P.state pages.old) (P.state pages.new))
        (λ s. PartKept kind ((P.state pages.old).counts (rows_file (P.state pages.old) slot)) ((P.state pages.new).bodies (rows_file (P.state pages.old) slot)) page nth s bytes.now pieces)) }
    ensures nothing { IfOk result (λ r. MatchOption r ((P.state pages.new).edited ≡ (P.state pages.old).edited) (λ _. ⊤)) }
    ensures inside { IsTrue P.tells → OnOk result (StaysIn P.logged (rows_file (P.state pages.old) slot) (P.state pages.old) (P.state pages.new)) }
    ensures counts { OnOk result ((P.state pages.new).counts ≡ (P.state pages.old).counts) }
    ensures keeps { OnOk result (KeepsSound P.tells (rows_file (P.state pages.old) slot) (P.state pages.old) (P.state pages.new)) }
    ensures answers { Answers (P.state pages.old) (P.state pages.new) (fault_of result) }
    ensures cause { HasPagesCause (OfFile P.tells P.logged (rows_file (P.state pages.old) slot) (P.state pages.old) (P.state pages.new)) (P.state pages.old) (P.state pages.new) (fault_of result) }
{
    let _file = FileName::Control;
    let Some(found) = put_part(alloc, pages, group, slot, page, kind, nth, bytes)? else {
        return Ok(None);
    };
    set_code(alloc, pages, group, slot, page)?;
    Ok(Some(found))
}

/// Takes the part in a slot from a page, and sets the pattern of the page to its code. `false`, with nothing changed, where
/// the slot has no such part.
pub(crate) fn remove_part<P: Pages>(
    alloc: Global,
    pages: &mut P,
    group: &mut OpenGroup,
    slot: u32,
    page: u32,
    kind: PartKind,
    nth: u8,
) -> Result<bool, Fault>
    requires stands { P.stands pages.old }
    requires open { IsTrue ((P.state pages.old).is_open slot) }
    requires group { (P.state pages.old).in_group ≡ true }
    requires below { page < (P.state pages.old).counts (rows_file (P.state pages.old) slot) }
    requires low { page < 2 ^ 31 }
    requires plain { page % MAP_EVERY ≢ 0 }
    requires room { IsTrue P.logged → ((P.state pages.old).touched + 1 < 48) × ((P.state pages.old).made + 4 ≤ 254) }
    ensures stands { P.stands pages.new }
    ensures moves { P.stays pages.old pages.new }
    ensures slots { SameSlots (P.state pages.old) (P.state pages.new) }
    ensures log { SameLog (P.state pages.old) (P.state pages.new) }
    ensures in_group { (P.state pages.new).in_group ≡ true }
    ensures spends { Spends 2 4 1201 (P.state pages.old) (P.state pages.new) }
    ensures holds { IsTrue P.tells → (pieces : Pieces) (bytes : List ℕ) → HoldsData ((P.state pages.old).counts (rows_file (P.state pages.old) slot)) ((P.state pages.old).bodies (rows_file (P.state pages.old) slot)) pieces → pieces page nth ≡ Some (part_piece kind bytes)
        → IfOk result (λ r. PartTaken page nth ((P.state pages.old).counts (rows_file (P.state pages.old) slot)) ((P.state pages.new).bodies (rows_file (P.state pages.old) slot)) pieces r) }
    ensures inside { IsTrue P.tells → OnOk result (StaysIn P.logged (rows_file (P.state pages.old) slot) (P.state pages.old) (P.state pages.new)) }
    ensures counts { OnOk result ((P.state pages.new).counts ≡ (P.state pages.old).counts) }
    ensures keeps { OnOk result (KeepsSound P.tells (rows_file (P.state pages.old) slot) (P.state pages.old) (P.state pages.new)) }
    ensures answers { Answers (P.state pages.old) (P.state pages.new) (fault_of result) }
    ensures cause { HasPagesCause (OfFile P.tells P.logged (rows_file (P.state pages.old) slot) (P.state pages.old) (P.state pages.new)) (P.state pages.old) (P.state pages.new) (fault_of result) }
{
    let _file = FileName::Control;
    if !take_part(alloc, pages, group, slot, page, kind, nth)? {
        return Ok(false);
    }
    set_code(alloc, pages, group, slot, page)?;
    Ok(true)
}
