//! The undoing of the steps of operations: each is one group of the log, which names the step that it undoes.

ghost use Rattle.std.specs.Prelude.{◌≡◌, ◌+◌, ◌/◌, ◌<◌, ◌≤◌, ◌^◌, ℕ, Bool, List, Some, false, drop, IsTrue, OnOk, OnErr, length};
ghost use Rattle.std.specs.Map.{lookup};
ghost use Rattle.aria_page.specs.declared.group.Last.TheVariants.{Clr as Undoes};
ghost use Rattle.aria_cache.specs.Calls.{SameSlots, fault_of, Answers};
ghost use Rattle.aria_cache.specs.Causes.{HasPagesCause};
ghost use Rattle.aria_cache.specs.Ending.{newest};
ghost use Rattle.aria_block.specs.Reading.{FitsHead};
ghost use Rattle.aria_table.specs.Content.{Content, same_entry, take_row, take_entry};
ghost use Rattle.aria_table.specs.Step.{HoldsContent, HasRowIn, HasEntryIn, EndsOne, LeavesOthers, OfTable};

use crate::steps::{take_counted, withdraw};
use aria_cache::Pages;
use aria_host::{Fault, FileName};
use aria_page::{Last, Places};
use std::alloc::Global;

/// Undoes that a row was put at these places: the row is taken, as a group that names the newest record that is pending.
pub(crate) fn undo_row<P: Pages>(
    alloc: Global,
    pages: &mut P,
    slot: u32,
    places: &Places,
) -> Result<(), Fault>
    requires stands { P.stands pages.old }
    requires open { IsTrue ((P.state pages.old).is_open slot) }
    requires none { (P.state pages.old).in_group ≡ false }
    requires some { IsTrue P.logged → 1 ≤ length (P.state pages.old).pending }
    ensures stands { P.stands pages.new }
    ensures moves { OnErr result (P.stays pages.old pages.new) }
    ensures ends { OnOk result (EndsOne P.tells P.logged P.ends P.state slot (Undoes (newest (P.state pages.old).pending) (newest (drop 1 (P.state pages.old).pending))) pages.old pages.new) }
    ensures slots { SameSlots (P.state pages.old) (P.state pages.new) }
    ensures none { (P.state pages.new).in_group ≡ false }
    ensures content { IsTrue P.tells → (is_row : List ℕ → Bool) (keys : ℕ) (c : Content) (row : List ℕ) → HoldsContent is_row keys slot (P.state pages.old) c
        → c.kept places.now.head.page places.now.head.slot ≡ Some (record { places = places.now; row = row }) → FitsHead (record { places = places.now; row = row }) → c.rows < 2 ^ 32
        → OnOk result (HoldsContent is_row keys slot (P.state pages.new) (take_row places.now c)) }
    ensures others { OnOk result (LeavesOthers P.tells slot (P.state pages.old) (P.state pages.new)) }
    ensures reach { (P.state pages.new).reach ≤ (P.state pages.old).reach + 3915 / 8176 + 2 }
    ensures answers { Answers (P.state pages.old) (P.state pages.new) (fault_of result) }
    ensures cause { HasPagesCause (OfTable P.tells P.logged (HasRowIn places.now slot (P.state pages.old)) slot 3915 (P.state pages.old) (P.state pages.new)) (P.state pages.old) (P.state pages.new) (fault_of result) }
{
    let _file = FileName::Control;
    let undone = pages.last_undo();
    let next = pages.undo_next();
    let mut group = pages.group();
    match take_counted(alloc, pages, &mut group, slot, places) {
        Ok(()) => {
            pages.end(alloc, group, slot, &Last::Clr { undone, next })?;
            Ok(())
        }
        Err(fault) => {
            pages.leave(group);
            Err(fault)
        }
    }
}

/// Undoes that an entry of a key was put: the entry is taken, as a group that names the newest record that is pending.
pub(crate) fn undo_entry<P: Pages>(
    alloc: Global,
    pages: &mut P,
    slot: u32,
    key: u8,
    entry: &[u8],
) -> Result<(), Fault>
    requires stands { P.stands pages.old }
    requires open { IsTrue ((P.state pages.old).is_open slot) }
    requires none { (P.state pages.old).in_group ≡ false }
    requires some { IsTrue P.logged → 1 ≤ length (P.state pages.old).pending }
    requires key { key < 8 }
    ensures stands { P.stands pages.new }
    ensures moves { OnErr result (P.stays pages.old pages.new) }
    ensures ends { OnOk result (EndsOne P.tells P.logged P.ends P.state slot (Undoes (newest (P.state pages.old).pending) (newest (drop 1 (P.state pages.old).pending))) pages.old pages.new) }
    ensures slots { SameSlots (P.state pages.old) (P.state pages.new) }
    ensures none { (P.state pages.new).in_group ≡ false }
    ensures content { IsTrue P.tells → (is_row : List ℕ → Bool) (keys : ℕ) (c : Content) (target : ℕ) → HoldsContent is_row keys slot (P.state pages.old) c → key < keys → lookup (same_entry entry.now) (c.walks key) ≡ Some target → length (c.walks key) < 2 ^ 24
        → OnOk result (HoldsContent is_row keys slot (P.state pages.new) (take_entry key entry.now c)) }
    ensures others { OnOk result (LeavesOthers P.tells slot (P.state pages.old) (P.state pages.new)) }
    ensures reach { (P.state pages.new).reach ≤ (P.state pages.old).reach + 212021 / 8176 + 2 }
    ensures answers { Answers (P.state pages.old) (P.state pages.new) (fault_of result) }
    ensures cause { HasPagesCause (OfTable P.tells P.logged (HasEntryIn key entry.now slot (P.state pages.old)) slot 212021 (P.state pages.old) (P.state pages.new)) (P.state pages.old) (P.state pages.new) (fault_of result) }
{
    let _file = FileName::Control;
    let undone = pages.last_undo();
    let next = pages.undo_next();
    let mut group = pages.group();
    match withdraw(alloc, pages, &mut group, slot, key, entry) {
        Ok(()) => {
            pages.end(alloc, group, slot, &Last::Clr { undone, next })?;
            Ok(())
        }
        Err(fault) => {
            pages.leave(group);
            Err(fault)
        }
    }
}
