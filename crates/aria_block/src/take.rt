ghost use Rattle.std.specs.Prelude.{◌≡◌, ◌+◌, ◌*◌, ◌-◌, ◌^◌, ◌<◌, ◌≤◌, true, false, IsTrue, IfOk, OnOk};
ghost use Rattle.aria_page.specs.declared.page.TheConstants.{BODY_BYTES};
ghost use Rattle.aria_page.specs.declared.place.Part.TheVariants.{Rows};
ghost use Rattle.aria_cache.specs.Calls.{fault_of, Answers, Edits, Spends, HasRoom, StaysIn, SameSlots, SameLog};
ghost use Rattle.aria_cache.specs.Causes.{HasPagesCause};
ghost use Rattle.aria_block.specs.declared.layout.TheConstants.{ENTRY_BYTES};
ghost use Rattle.aria_block.specs.Causes.{rows_file, OfFile, KeepsSound};
ghost use Rattle.aria_block.specs.Cut.{take_kind, cut_edits, TakesOrNot};

use crate::cut::{Cut, cut_of};
use crate::layout::ENTRY_BYTES;
use crate::part::head_array;
use crate::part_kind::PartKind;
use aria_cache::{OpenGroup, PageId, Pages};
use aria_host::{Fault, FileName};
use aria_page::{BODY_BYTES, Change, PageKind, Part, RedoKind};
use std::alloc::Global;

impl PartKind {
    // The kind of the redo entry for a part that is taken.
    fn take_kind(self) -> RedoKind
        ensures { result ≡ take_kind self }
    {
        match self {
            PartKind::Head => RedoKind::PurgeRowHead,
            PartKind::Tail => RedoKind::PurgeRowTail,
        }
    }
}

// Takes a part from its page.
fn write_cut<P: Pages>(
    alloc: Global,
    pages: &mut P,
    group: &mut OpenGroup,
    slot: u32,
    page: u32,
    kind: PartKind,
    cut: &Cut,
) -> Result<(), Fault>
    requires stands { P.stands pages.old }
    requires open { IsTrue ((P.state pages.old).is_open slot) }
    requires group { (P.state pages.old).in_group ≡ true }
    requires below { page < (P.state pages.old).counts (rows_file (P.state pages.old) slot) }
    requires low { page < 2 ^ 31 }
    requires lies { cut.now.at + cut.now.len ≤ cut.now.end }
    requires fits { cut.now.end + ENTRY_BYTES * cut.now.left ≤ BODY_BYTES }
    requires room { IsTrue P.logged → HasRoom 3 (P.state pages.old) }
    ensures stands { P.stands pages.new }
    ensures moves { P.stays pages.old pages.new }
    ensures slots { SameSlots (P.state pages.old) (P.state pages.new) }
    ensures log { SameLog (P.state pages.old) (P.state pages.new) }
    ensures in_group { (P.state pages.new).in_group ≡ true }
    ensures spends { Spends 1 3 1117 (P.state pages.old) (P.state pages.new) }
    ensures edits { IsTrue P.tells → OnOk result (Edits P.logged (take_kind kind) slot Rows page (cut_edits kind cut.now) (P.state pages.old) (P.state pages.new)) }
    ensures inside { IsTrue P.tells → OnOk result (StaysIn P.logged (rows_file (P.state pages.old) slot) (P.state pages.old) (P.state pages.new)) }
    ensures counts { OnOk result ((P.state pages.new).counts ≡ (P.state pages.old).counts) }
    ensures keeps { OnOk result (KeepsSound P.tells (rows_file (P.state pages.old) slot) (P.state pages.old) (P.state pages.new)) }
    ensures answers { Answers (P.state pages.old) (P.state pages.new) (fault_of result) }
    ensures cause { HasPagesCause (OfFile P.tells P.logged (rows_file (P.state pages.old) slot) (P.state pages.old) (P.state pages.new)) (P.state pages.old) (P.state pages.new) (fault_of result) }
{
    let _file = FileName::Control;
    let at = PageId {
        slot,
        part: Part::Rows,
        page,
    };
    let why = kind.take_kind();
    if cut.left == 0 {
        let free = [PageKind::FreeData.to_byte()];
        return pages.edit(
            alloc,
            group,
            at,
            why,
            &[Change::Set {
                at: 0,
                bytes: &free,
            }],
        );
    }
    let from = cut.at + cut.len;
    let head = head_array(kind, cut.left, cut.end - cut.len);
    pages.edit(
        alloc,
        group,
        at,
        why,
        &[
            Change::Shift {
                at: from,
                len: cut.end - from,
                to: cut.at,
            },
            Change::Set {
                at: BODY_BYTES as u16 - ENTRY_BYTES * cut.left as u16,
                bytes: &cut.entries[..4 * cut.left as usize],
            },
            Change::Set {
                at: 0,
                bytes: &head,
            },
        ],
    )
}

/// Takes the part in a slot from a page. `false`, with nothing changed, where the slot has no such part.
pub(crate) fn take_part<P: Pages>(
    alloc: Global,
    pages: &mut P,
    group: &mut OpenGroup,
    slot: u32,
    page: u32,
    kind: PartKind,
    nth: u8,
) -> Result<bool, Fault>
    requires stands { P.stands pages.old }
    requires open { IsTrue ((P.state pages.old).is_open slot) }
    requires group { (P.state pages.old).in_group ≡ true }
    requires below { page < (P.state pages.old).counts (rows_file (P.state pages.old) slot) }
    requires low { page < 2 ^ 31 }
    requires room { IsTrue P.logged → HasRoom 3 (P.state pages.old) }
    ensures stands { P.stands pages.new }
    ensures moves { P.stays pages.old pages.new }
    ensures slots { SameSlots (P.state pages.old) (P.state pages.new) }
    ensures log { SameLog (P.state pages.old) (P.state pages.new) }
    ensures in_group { (P.state pages.new).in_group ≡ true }
    ensures spends { Spends 1 3 1117 (P.state pages.old) (P.state pages.new) }
    ensures takes { IsTrue P.tells → IfOk result (λ r. TakesOrNot kind (rows_file (P.state pages.old) slot) page nth (P.state pages.old) (P.state pages.new) r) }
    ensures inside { IsTrue P.tells → OnOk result (StaysIn P.logged (rows_file (P.state pages.old) slot) (P.state pages.old) (P.state pages.new)) }
    ensures counts { OnOk result ((P.state pages.new).counts ≡ (P.state pages.old).counts) }
    ensures keeps { OnOk result (KeepsSound P.tells (rows_file (P.state pages.old) slot) (P.state pages.old) (P.state pages.new)) }
    ensures answers { Answers (P.state pages.old) (P.state pages.new) (fault_of result) }
    ensures cause { HasPagesCause (OfFile P.tells P.logged (rows_file (P.state pages.old) slot) (P.state pages.old) (P.state pages.new)) (P.state pages.old) (P.state pages.new) (fault_of result) }
{
    let _file = FileName::Control;
    pages.load(
        alloc,
        PageId {
            slot,
            part: Part::Rows,
            page,
        },
    )?;
    let Some(cut) = cut_of(pages.loaded().body(), kind, nth) else {
        return Ok(false);
    };
    write_cut(alloc, pages, group, slot, page, kind, &cut)?;
    Ok(true)
}
