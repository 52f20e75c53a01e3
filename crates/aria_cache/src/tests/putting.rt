ghost use Rattle.std.specs.Prelude.{ℕ, ◌≡◌, ◌<◌, ◌^◌, [], ◌∷◌, ◌++◌, ◌+◌, ◌≤◌, false, true, IsTrue, IfOk, OnOk, OnErr, IfSome, is_ok, slice_index, List};
ghost use Rattle.aria_page.specs.declared.edit.Edit.TheVariants.{Set};
ghost use Rattle.aria_page.specs.declared.group.RedoKind.TheVariants.{State};
ghost use Rattle.aria_record.specs.declared.record.Record.TheVariants.{Redo};
ghost use Rattle.aria_record.specs.Logged.{Logged};
ghost use Rattle.aria_cache.specs.PageState.{file_of, with_edits, applied};
ghost use Rattle.aria_cache.specs.Ending.{ended_group, EndFits, UndoesNewest};
ghost use Rattle.aria_cache.specs.SetByte.{byte_group};
ghost use Rattle.aria_cache.specs.Calls.{fault_of, Answers, Edits, Loads, Spends, HasRoom, SameSlots, SameLog, StaysIn, Grows, Ended};

use crate::page_id::PageId;
use crate::pages::{OpenGroup, Pages};
use aria_host::{Fault, FileName};
use aria_page::{Change, Last, Lsn, Part, RedoKind};
use std::alloc::Global;

// Puts a byte into the body of a page, as part of the open group.
#[tactic(auto, using(crate::proofs::Growing::grows_same, crate::proofs::Growing::grows_on, crate::proofs::Growing::grows_edited))]
fn put_byte<P: Pages>(
    alloc: Global,
    pages: &mut P,
    group: &mut OpenGroup,
    at: PageId,
    place: u16,
    byte: u8,
) -> Result<(), Fault>
    requires stands { P.stands pages.old }
    requires open { IsTrue ((P.state pages.old).is_open at.slot) }
    requires group { (P.state pages.old).in_group ≡ true }
    requires low { at.page < 2 ^ 31 }
    requires place { place < 8181 }
    requires room { IsTrue P.logged → HasRoom 1 (P.state pages.old) }
    ensures stands { P.stands pages.new }
    ensures moves { P.stays pages.old pages.new }
    ensures spends { Spends 1 1 82 (P.state pages.old) (P.state pages.new) }
    ensures slots { SameSlots (P.state pages.old) (P.state pages.new) }
    ensures edits { IsTrue P.tells → OnOk result (Edits P.logged State at.slot at.part at.page (Set place (byte ∷ []) ∷ []) (P.state pages.old) (P.state pages.new)) }
    ensures log { SameLog (P.state pages.old) (P.state pages.new) }
    ensures inside { IsTrue P.tells → OnOk result (StaysIn P.logged (file_of (P.state pages.old) at.slot at.part) (P.state pages.old) (P.state pages.new)) }
    ensures grows { OnOk result (Grows (P.state pages.old) (P.state pages.new)) }
    ensures lent { (P.state pages.new).lent ≡ (P.state pages.old).lent }
    ensures answers { Answers (P.state pages.old) (P.state pages.new) (fault_of result) }
    ensures in_group { (P.state pages.new).in_group ≡ true }
{
    let bytes = [byte];
    pages.edit(
        alloc,
        group,
        at,
        RedoKind::State,
        &[Change::Set {
            at: place,
            bytes: &bytes,
        }],
    )
}

/// Puts a byte into the body of a page, as a group of its own.
pub(super) fn set_byte<P: Pages>(
    alloc: Global,
    pages: &mut P,
    at: PageId,
    place: u16,
    byte: u8,
    last: &Last,
) -> Result<Lsn, Fault>
    requires stands { P.stands pages.old }
    requires open { IsTrue ((P.state pages.old).is_open at.slot) }
    requires none { (P.state pages.old).in_group ≡ false }
    requires low { at.page < 2 ^ 31 }
    requires place { place < 8181 }
    requires fits { IsTrue P.logged → EndFits last.now }
    requires undoes { IsTrue P.logged → UndoesNewest last.now (P.state pages.old).pending }
    ensures stands { P.stands pages.new }
    ensures moves { OnErr result (P.stays pages.old pages.new) }
    ensures ended { IsTrue P.tells → IsTrue P.logged → IfOk result (λ lsn. Ended P.logged P.ends (byte_group (P.state pages.old) at.slot at.part at.page place byte last.now) lsn pages.old pages.new) }
    ensures applies { IsTrue P.tells → IsTrue P.logged → OnOk result ((from : ℕ) → (P.state pages.new).bodies ≡ applied (record { at = from; group = byte_group (P.state pages.old) at.slot at.part at.page place byte last.now } ∷ []) (P.state pages.old).bodies) }
    ensures none { (P.state pages.new).in_group ≡ false }
    ensures bodies { IsTrue P.tells → OnOk result ((P.state pages.new).bodies ≡ with_edits (file_of (P.state pages.old) at.slot at.part) at.page (Set place (byte ∷ []) ∷ []) (P.state pages.old).bodies) }
    ensures answers { Answers (P.state pages.old) (P.state pages.new) (fault_of result) }
{
    let mut group = pages.group();
    match put_byte(alloc, pages, &mut group, at, place, byte) {
        Ok(()) => pages.end(alloc, group, at.slot, last),
        Err(fault) => {
            pages.leave(group);
            Err(fault)
        }
    }
}

/// The byte at a place of the body of a page.
pub(super) fn byte_at<P: Pages>(
    alloc: Global,
    pages: &mut P,
    at: PageId,
    place: u16,
) -> Result<u8, Fault>
    requires stands { P.stands pages.old }
    requires open { IsTrue ((P.state pages.old).is_open at.slot) }
    requires below { at.page < (P.state pages.old).counts (file_of (P.state pages.old) at.slot at.part) }
    requires place { place < 8181 }
    ensures stands { P.stands pages.new }
    ensures moves { P.stays pages.old pages.new }
    ensures loads { Loads P.tells 1 (P.state pages.old) (P.state pages.new) }
    ensures answers { Answers (P.state pages.old) (P.state pages.new) (fault_of result) }
    ensures byte { IsTrue P.tells → IfOk result (λ byte. IfSome ((P.state pages.old).bodies (file_of (P.state pages.old) at.slot at.part) at.page) (λ body. byte ≡ slice_index body place)) }
{
    let _file = FileName::Control;
    pages.load(alloc, at)?;
    Ok(pages.loaded().body()[place as usize])
}

// Loads two pages.
fn load_both<P: Pages>(
    alloc: Global,
    pages: &mut P,
    one: PageId,
    other: PageId,
) -> Result<(), Fault>
    requires stands { P.stands pages.old }
    requires open_one { IsTrue ((P.state pages.old).is_open one.slot) }
    requires open_other { IsTrue ((P.state pages.old).is_open other.slot) }
    requires below_one { one.page < (P.state pages.old).counts (file_of (P.state pages.old) one.slot one.part) }
    requires below_other { other.page < (P.state pages.old).counts (file_of (P.state pages.old) other.slot other.part) }
    ensures stands { P.stands pages.new }
    ensures moves { P.stays pages.old pages.new }
    ensures loads { Loads P.tells 2 (P.state pages.old) (P.state pages.new) }
    ensures answers { Answers (P.state pages.old) (P.state pages.new) (fault_of result) }
{
    let _file = FileName::Control;
    pages.load(alloc, one)?;
    pages.load(alloc, other)
}

// Puts a byte into the bodies of two pages, as part of the open group.
#[tactic(auto, using(crate::proofs::Growing::grows_same, crate::proofs::Growing::grows_on, crate::proofs::Growing::grows_edited))]
fn put_both<P: Pages>(
    alloc: Global,
    pages: &mut P,
    group: &mut OpenGroup,
    one: PageId,
    other: PageId,
    place: u16,
    byte: u8,
) -> Result<(), Fault>
    requires stands { P.stands pages.old }
    requires open_one { IsTrue ((P.state pages.old).is_open one.slot) }
    requires open_other { IsTrue ((P.state pages.old).is_open other.slot) }
    requires group { (P.state pages.old).in_group ≡ true }
    requires low_one { one.page < 2 ^ 31 }
    requires low_other { other.page < 2 ^ 31 }
    requires place { place < 8181 }
    requires room { IsTrue P.logged → ((P.state pages.old).touched + 1 < 48) × ((P.state pages.old).made + 2 ≤ 254) }
    ensures stands { P.stands pages.new }
    ensures moves { P.stays pages.old pages.new }
    ensures spends { Spends 2 2 164 (P.state pages.old) (P.state pages.new) }
    ensures slots { SameSlots (P.state pages.old) (P.state pages.new) }
    ensures bodies { IsTrue P.tells → OnOk result ((P.state pages.new).bodies ≡ with_edits (file_of (P.state pages.old) other.slot other.part) other.page (Set place (byte ∷ []) ∷ [])
        (with_edits (file_of (P.state pages.old) one.slot one.part) one.page (Set place (byte ∷ []) ∷ []) (P.state pages.old).bodies)) }
    ensures log { SameLog (P.state pages.old) (P.state pages.new) }
    ensures grows { OnOk result (Grows (P.state pages.old) (P.state pages.new)) }
    ensures answers { Answers (P.state pages.old) (P.state pages.new) (fault_of result) }
    ensures in_group { (P.state pages.new).in_group ≡ true }
{
    let _file = FileName::Control;
    put_byte(alloc, pages, group, one, place, byte)?;
    put_byte(alloc, pages, group, other, place, byte)
}
