ghost use Rattle.std.specs.Prelude.{◌≡◌, ◌+◌, ◌*◌, ◌-◌, ◌^◌, ◌<◌, ◌≤◌, ◌++◌, true, IsTrue, IfOk, OnOk, MatchOption, ⊤, length, replicate};
ghost use Rattle.aria_page.specs.declared.page.TheConstants.{BODY_BYTES};
ghost use Rattle.aria_page.specs.declared.place.Part.TheVariants.{Rows};
ghost use Rattle.aria_page.specs.Number.{number};
ghost use Rattle.aria_cache.specs.Calls.{fault_of, Answers, Edits, Spends, HasRoom, StaysIn, SameSlots, SameLog};
ghost use Rattle.aria_cache.specs.Causes.{HasPagesCause};
ghost use Rattle.aria_block.specs.declared.layout.TheConstants.{ENTRY_BYTES};
ghost use Rattle.aria_block.specs.PartPage.{head_bytes, part_byte};
ghost use Rattle.aria_block.specs.Causes.{rows_file, OfFile, KeepsSound};
ghost use Rattle.aria_block.specs.Puts.{put_kind, part_edits, entries_between, PutsPart, NoSpot};

use crate::layout::ENTRY_BYTES;
use crate::part_kind::PartKind;
use crate::spot::{Spot, spot_for};
use aria_cache::{OpenGroup, PageId, Pages};
use aria_host::{Fault, FileName};
use aria_page::{BODY_BYTES, Change, Part, RedoKind, u16_bytes, u32_bytes};
use std::alloc::Global;

impl PartKind {
    // The kind of the redo entry for a part that is put.
    fn put_kind(self) -> RedoKind
        ensures { result ≡ put_kind self }
    {
        match self {
            PartKind::Head => RedoKind::InsertRowHead,
            PartKind::Tail => RedoKind::InsertRowTail,
        }
    }
}

// The first bytes of a page of parts.
pub(crate) fn head_array(kind: PartKind, entries: u8, end: u16) -> [u8; 4]
    ensures { result ≡ head_bytes (part_byte kind) entries end }
{
    let [high, low] = u16_bytes(end);
    [kind.to_byte(), entries, high, low]
}

// The bytes of all entries that a directory may have, the first of them that of the part.
fn entry_array(end: u16, len: u16) -> [u8; 1020]
    ensures { result ≡ number ENTRY_BYTES (65536 * end + len) ++ replicate 1016 0 }
{
    let mut bytes = [0; 1020];
    bytes[..4].copy_from_slice(&u32_bytes(65536 * end as u32 + len as u32));
    bytes
}

// Writes a part at its spot.
fn write_part<P: Pages>(
    alloc: Global,
    pages: &mut P,
    group: &mut OpenGroup,
    slot: u32,
    page: u32,
    kind: PartKind,
    spot: &Spot,
    bytes: &[u8],
) -> Result<(), Fault>
    requires stands { P.stands pages.old }
    requires open { IsTrue ((P.state pages.old).is_open slot) }
    requires group { (P.state pages.old).in_group ≡ true }
    requires below { page < (P.state pages.old).counts (rows_file (P.state pages.old) slot) }
    requires low { page < 2 ^ 31 }
    requires slot { spot.now.slot < spot.now.entries }
    requires fits { spot.now.end + length bytes.now + ENTRY_BYTES * spot.now.entries ≤ BODY_BYTES }
    requires room { IsTrue P.logged → HasRoom 3 (P.state pages.old) }
    ensures stands { P.stands pages.new }
    ensures moves { P.stays pages.old pages.new }
    ensures slots { SameSlots (P.state pages.old) (P.state pages.new) }
    ensures log { SameLog (P.state pages.old) (P.state pages.new) }
    ensures in_group { (P.state pages.new).in_group ≡ true }
    ensures spends { Spends 1 3 (99 + length bytes.now + ENTRY_BYTES * (spot.now.slot - spot.now.before)) (P.state pages.old) (P.state pages.new) }
    ensures edits { IsTrue P.tells → OnOk result (Edits P.logged (put_kind kind) slot Rows page (part_edits kind spot.now bytes.now) (P.state pages.old) (P.state pages.new)) }
    ensures inside { IsTrue P.tells → OnOk result (StaysIn P.logged (rows_file (P.state pages.old) slot) (P.state pages.old) (P.state pages.new)) }
    ensures counts { OnOk result ((P.state pages.new).counts ≡ (P.state pages.old).counts) }
    ensures keeps { OnOk result (KeepsSound P.tells (rows_file (P.state pages.old) slot) (P.state pages.old) (P.state pages.new)) }
    ensures answers { Answers (P.state pages.old) (P.state pages.new) (fault_of result) }
    ensures cause { HasPagesCause (OfFile P.tells P.logged (rows_file (P.state pages.old) slot) (P.state pages.old) (P.state pages.new)) (P.state pages.old) (P.state pages.new) (fault_of result) }
{
    let _file = FileName::Control;
    let entries = entry_array(spot.end, bytes.len() as u16);
    let unused = spot.slot.saturating_sub(spot.before) as usize;
    let head = head_array(kind, spot.entries, spot.end + bytes.len() as u16);
    pages.edit(
        alloc,
        group,
        PageId {
            slot,
            part: Part::Rows,
            page,
        },
        kind.put_kind(),
        &[
            Change::Set {
                at: spot.end,
                bytes,
            },
            Change::Set {
                at: BODY_BYTES as u16 - ENTRY_BYTES * (spot.slot as u16 + 1),
                bytes: &entries[..4 + 4 * unused],
            },
            Change::Set {
                at: 0,
                bytes: &head,
            },
        ],
    )
}

/// Puts a part on a page that is free or has such parts, in the slot that is given or else in the lowest, and tells the
/// slot; `None`, with nothing changed, where the page has no room for it.
pub(crate) fn put_part<P: Pages>(
    alloc: Global,
    pages: &mut P,
    group: &mut OpenGroup,
    slot: u32,
    page: u32,
    kind: PartKind,
    nth: Option<u8>,
    bytes: &[u8],
) -> Result<Option<u8>, Fault>
    requires stands { P.stands pages.old }
    requires open { IsTrue ((P.state pages.old).is_open slot) }
    requires group { (P.state pages.old).in_group ≡ true }
    requires below { page < (P.state pages.old).counts (rows_file (P.state pages.old) slot) }
    requires low { page < 2 ^ 31 }
    requires few { length bytes.now ≤ BODY_BYTES }
    requires room { IsTrue P.logged → HasRoom 3 (P.state pages.old) }
    ensures stands { P.stands pages.new }
    ensures moves { P.stays pages.old pages.new }
    ensures slots { SameSlots (P.state pages.old) (P.state pages.new) }
    ensures log { SameLog (P.state pages.old) (P.state pages.new) }
    ensures in_group { (P.state pages.new).in_group ≡ true }
    ensures spends { Spends 1 3 (99 + length bytes.now + entries_between nth) (P.state pages.old) (P.state pages.new) }
    ensures puts { IsTrue P.tells → IfOk result (λ r. MatchOption r
        (NoSpot kind (rows_file (P.state pages.old) slot) page nth (length bytes.now) (P.state pages.old) (P.state pages.new))
        (λ s. PutsPart kind (rows_file (P.state pages.old) slot) page nth s bytes.now (P.state pages.old) (P.state pages.new))) }
    ensures nothing { IfOk result (λ r. MatchOption r ((P.state pages.new).edited ≡ (P.state pages.old).edited) (λ _. ⊤)) }
    ensures inside { IsTrue P.tells → OnOk result (StaysIn P.logged (rows_file (P.state pages.old) slot) (P.state pages.old) (P.state pages.new)) }
    ensures counts { OnOk result ((P.state pages.new).counts ≡ (P.state pages.old).counts) }
    ensures keeps { OnOk result (KeepsSound P.tells (rows_file (P.state pages.old) slot) (P.state pages.old) (P.state pages.new)) }
    ensures answers { Answers (P.state pages.old) (P.state pages.new) (fault_of result) }
    ensures cause { HasPagesCause (OfFile P.tells P.logged (rows_file (P.state pages.old) slot) (P.state pages.old) (P.state pages.new)) (P.state pages.old) (P.state pages.new) (fault_of result) }
{
    let _file = FileName::Control;
    pages.load(
        alloc,
        PageId {
            slot,
            part: Part::Rows,
            page,
        },
    )?;
    let Some(spot) = spot_for(pages.loaded().body(), kind, nth, bytes.len() as u16) else {
        return Ok(None);
    };
    write_part(alloc, pages, group, slot, page, kind, &spot, bytes)?;
    Ok(Some(spot.slot))
}
