//! The groups of the log are made again on the pages that lack them.

ghost use Rattle.std.specs.Prelude.{◌≡◌, ◌+◌, ◌<◌, ◌^◌, ◌∷◌, ◌++◌, [], ℕ, nat_eq, nat_lt, List as Seq, All, IsTrue, true, Some, None, IfSome, IfErr, OnOk, is_some, is_ok, length, if◌then◌else◌};
ghost use Rattle.std.specs.Option.{option_map};
ghost use Rattle.std.specs.Map.{update};
ghost use Rattle.aria_page.specs.Edit.{IsWithin};
ghost use Rattle.aria_page.specs.Lsn.{lsn_number};
ghost use Rattle.aria_host.specs.Folder.{Folder};
ghost use Rattle.aria_page.specs.declared.edit.Edit.{Edit as EditValue};
ghost use Rattle.aria_page.specs.declared.group.RedoKind.{RedoKind};
ghost use Rattle.aria_record.specs.declared.record.Record.{Record as RecordValue};
ghost use Rattle.aria_record.specs.declared.record.Record.TheVariants.{Redo as RedoValue};
ghost use Rattle.aria_record.specs.Groups.{RecordFits, IsGroup};
ghost use Rattle.aria_record.specs.Logged.{Logged, lsn_at_place};
ghost use Rattle.aria_cache.specs.Key.{key_of};
ghost use Rattle.aria_cache.specs.Frames.{held};
ghost use Rattle.aria_recovery.specs.Redo.{same_part, edits_in, edits_at, edits_on, is_some_edit};
ghost use Rattle.aria_log.specs.Pieces.{log_files};
ghost use Rattle.aria_log.specs.Reading.{Entry, IsReader};
ghost use Rattle.aria_recovery.specs.Frames.{Progress, all_of};
ghost use Rattle.aria_recovery.specs.Midway.{raised, midway, EditsPage, is_counted};
ghost use Rattle.aria_pager.specs.PageStore.{name_at, spot_of};
ghost use Rattle.aria_pager.specs.Pager.{IsRunningAt, known};
ghost use Rattle.aria_pager.specs.Steps.{SameWork, HasHoldCause};
ghost use Rattle.aria_pager.specs.Redone.{redone_by, is_older, IsRedoing, Redoes, IsAtGroup, IsWalking, Walks, BeginsRedo, OfEdited, is_log_damage, HasRedoCause};
ghost use Rattle.aria_pager.specs.Turns.{KeepsAside};

use crate::page_store::PageStore;
use aria_cache::{Frames, PageId};
use aria_host::{Fault, FileName, Host};
use aria_log::{MAX_ENTRIES, Reader, Step};
use aria_page::{Edit, Lsn, Name, PAGE_BYTES, Part};
use aria_record::Record;
use aria_recovery::{Analysis, Told};
use std::alloc::Global;

pub(crate) fn is_before(a: Lsn, b: Lsn) -> bool
    ensures { result ≡ nat_lt (lsn_number a) (lsn_number b) }
{
    a.is_before(b)
}

// Whether a group counts for a name of whose files this is told last.
fn is_counted(told: Told, at: Lsn) -> bool
    ensures { result ≡ is_counted told at }
{
    match told {
        Told::Nothing => true,
        Told::Dropped => false,
        Told::Made(made) => is_before(made, at),
    }
}

fn same_part(a: Part, b: Part) -> bool
    ensures { result ≡ same_part a b }
{
    match a {
        Part::Keys => matches!(b, Part::Keys),
        Part::Rows => matches!(b, Part::Rows),
    }
}

// The edits of an entry of a group on this page.
fn edits_at<'a>(entry: &'a Record, name: &Name, part: Part, page: u32) -> &'a [Edit]
    requires { RecordFits entry.now }
    ensures edits { result.now ≡ edits_at page (edits_in name.now part entry.now) }
    ensures within { All IsWithin result.now }
{
    match entry {
        Record::Redo {
            table,
            part: p,
            page: n,
            edits,
            ..
        } => {
            if *name == *table && same_part(part, *p) && page == *n {
                return edits.as_slice();
            }
            &[]
        }
        _ => &[],
    }
}

// Makes the edits of a group again on a page that is held.
fn redo_edits(frames: &mut Frames, key: u64, lsn: Lsn, edits: &[Edit])
    requires { All IsWithin edits.now }
    ensures held { held frames.new ≡ update nat_eq (held frames.old) key (option_map (redone_by (lsn_number lsn) edits.now) (held frames.old key)) }
    ensures pins { frames.new.pins ≡ frames.old.pins }
{
    if !edits.is_empty() {
        frames.redo(key, lsn, edits);
    }
}

// Makes a group again on a page that is held.
fn redo_frame(frames: &mut Frames, key: u64, lsn: Lsn, group: &[Record], name: &Name, at: PageId)
    requires { All RecordFits group.now }
    ensures held { held frames.new ≡ update nat_eq (held frames.old) key (option_map (redone_by (lsn_number lsn) (edits_on name.now at.part at.page group.now)) (held frames.old key)) }
    ensures pins { frames.new.pins ≡ frames.old.pins }
{
    for entry in group {
        redo_edits(frames, key, lsn, edits_at(entry, name, at.part, at.page));
    }
}

impl PageStore {
    // Whether the page is held and stands before this place of the log.
    fn is_older(&self, key: u64, lsn: Lsn) -> bool
        ensures { result ≡ is_older (held self.now.frames key) (lsn_number lsn) }
    {
        match self.frames.peek(key) {
            Some(frame) => is_before(frame.lsn, lsn),
            None => false,
        }
    }

    // The slot of a table, if it has one.
    fn slot_of(&self, name: &Name) -> Option<u32>
        ensures known { IfSome result (λ n. known self.now name.now ≡ Some (Some n)) }
        ensures open { IfSome result (λ n. IsTrue (is_some (name_at self.now n))) }
        ensures none { result ≡ None → (n : ℕ) → known self.now name.now ≡ Some (Some n) → name_at self.now n ≡ None }
    {
        let Some(Some(n)) = self.tables.get(name) else {
            return None;
        };
        let n = *n;
        match self.slot(n) {
            Some(slot) => { if slot.used { Some(n) } else { None } }
            None => None,
        }
    }

    // Makes a group again on a page, where it lacks the group.
    fn redo_page<H: Host>(
        &mut self,
        alloc: Global,
        host: &mut H,
        at: PageId,
        name: &Name,
        lsn: Lsn,
        group: &[Record],
    ) -> Result<(), Fault>
        requires pager { IsTrue H.tells → IsRunningAt self.old (H.state host.old) }
        requires open { IsTrue (is_some (name_at self.old at.slot)) }
        requires low { at.page < 2 ^ 31 }
        requires fits { All RecordFits group.now }
        ensures redoes { IsTrue H.tells → (redone : Progress) (base : ℕ) (start : Folder) (groups : Seq Logged) (forced : ℕ) → IsRedoing self.old (H.state host.old) redone base start groups forced
            → (before after : Seq Logged) (place : ℕ) → lsn ≡ lsn_at_place place → EditsPage (spot_of self.old) redone groups before after (record { at = place; group = group.now }) (key_of at) (record { name = name.now; part = at.part; page = at.page })
            → Redoes self.old self.new (H.state host.old) (H.state host.new) (raised (key_of at) (length before + 1) redone) base start groups forced (is_ok result) }
        ensures late { IsTrue H.tells → self.old.log.used ≡ 0 → IfErr result (λ fault. is_log_damage fault ≡ true → self.new.log ≡ self.old.log) }
        ensures aside { IsTrue H.tells → KeepsAside (H.state host.old).folder (H.state host.new).folder }
        ensures same { SameWork self.old self.new }
        ensures cause { HasHoldCause H.tells self.new (key_of at) (H.state host.old) (H.state host.new) result }
    {
        let _file = FileName::Control;
        self.hold(alloc, host, at)?;
        let key = at.key();
        if !self.is_older(key, lsn) {
            return Ok(());
        }
        redo_frame(&mut self.frames, key, lsn, group, name, at);
        Ok(())
    }

    // Makes a group again on the page of a table that one of its entries edits. The group may count for the table or not.
    fn redo_on<H: Host>(
        &mut self,
        alloc: Global,
        host: &mut H,
        analysis: &Analysis,
        lsn: Lsn,
        group: &[Record],
        name: &Name,
        part: Part,
        page: u32,
    ) -> Result<(), Fault>
        requires pager { IsTrue H.tells → IsRunningAt self.old (H.state host.old) }
        requires low { page < 2 ^ 31 }
        requires fits { All RecordFits group.now }
        ensures redoes { IsTrue H.tells → (base : ℕ) (start : Folder) (groups : Seq Logged) (forced : ℕ) (before after : Seq Logged) (place : ℕ) → IsAtGroup analysis.now lsn group.now groups before after place
            → (passed rest : Seq RecordValue) (kind : RedoKind) (edits : Seq EditValue) → group.now ≡ passed ++ RedoValue kind name.now part page edits ∷ rest → is_some_edit edits ≡ true
            → IsRedoing self.old (H.state host.old) (midway groups (length before) passed (spot_of self.old)) base start groups forced
            → Redoes self.old self.new (H.state host.old) (H.state host.new) (midway groups (length before) (passed ++ RedoValue kind name.now part page edits ∷ []) (spot_of self.old)) base start groups forced (is_ok result) }
        ensures aside { IsTrue H.tells → KeepsAside (H.state host.old).folder (H.state host.new).folder }
        ensures same { SameWork self.old self.new }
        ensures edited { IsTrue H.tells → (base : ℕ) (start : Folder) (groups : Seq Logged) (forced : ℕ) (before after : Seq Logged) (place : ℕ) → IsAtGroup analysis.now lsn group.now groups before after place
            → (passed rest : Seq RecordValue) (kind : RedoKind) (edits : Seq EditValue) → group.now ≡ passed ++ RedoValue kind name.now part page edits ∷ rest → is_some_edit edits ≡ true
            → IsRedoing self.old (H.state host.old) (midway groups (length before) passed (spot_of self.old)) base start groups forced
            → IfErr result (OfEdited self.old.log groups (H.state host.new).folder) }
        ensures cause { HasRedoCause H.tells self.new (H.state host.old) (H.state host.new) result }
    {
        let _file = FileName::Control;
        let Some(slot) = self.slot_of(name) else {
            return Ok(());
        };
        if !is_counted(analysis.told(name), lsn) {
            return Ok(());
        }
        self.redo_page(alloc, host, PageId { slot, part, page }, name, lsn, group)
    }

    // Makes a group again on the page that one of its entries edits.
    fn redo_record<H: Host>(
        &mut self,
        alloc: Global,
        host: &mut H,
        analysis: &Analysis,
        lsn: Lsn,
        group: &[Record],
        entry: &Record,
    ) -> Result<(), Fault>
        requires pager { IsTrue H.tells → IsRunningAt self.old (H.state host.old) }
        requires fits { All RecordFits group.now }
        requires entry { RecordFits entry.now }
        ensures redoes { IsTrue H.tells → (base : ℕ) (start : Folder) (groups : Seq Logged) (forced : ℕ) (before after : Seq Logged) (place : ℕ) → IsAtGroup analysis.now lsn group.now groups before after place
            → (passed rest : Seq RecordValue) → group.now ≡ passed ++ entry.now ∷ rest
            → IsRedoing self.old (H.state host.old) (midway groups (length before) passed (spot_of self.old)) base start groups forced
            → Redoes self.old self.new (H.state host.old) (H.state host.new) (midway groups (length before) (passed ++ entry.now ∷ []) (spot_of self.old)) base start groups forced (is_ok result) }
        ensures aside { IsTrue H.tells → KeepsAside (H.state host.old).folder (H.state host.new).folder }
        ensures same { SameWork self.old self.new }
        ensures edited { IsTrue H.tells → (base : ℕ) (start : Folder) (groups : Seq Logged) (forced : ℕ) (before after : Seq Logged) (place : ℕ) → IsAtGroup analysis.now lsn group.now groups before after place
            → (passed rest : Seq RecordValue) → group.now ≡ passed ++ entry.now ∷ rest
            → IsRedoing self.old (H.state host.old) (midway groups (length before) passed (spot_of self.old)) base start groups forced
            → IfErr result (OfEdited self.old.log groups (H.state host.new).folder) }
        ensures cause { HasRedoCause H.tells self.new (H.state host.old) (H.state host.new) result }
    {
        let _file = FileName::Control;
        match entry {
            Record::Redo {
                table,
                part,
                page,
                ..
            } => self.redo_on(alloc, host, analysis, lsn, group, table, *part, *page),
            _ => Ok(()),
        }
    }

    // Makes a group again on each page that lacks it.
    fn redo_group<H: Host>(
        &mut self,
        alloc: Global,
        host: &mut H,
        analysis: &Analysis,
        lsn: Lsn,
        group: &[Record],
    ) -> Result<(), Fault>
        requires pager { IsTrue H.tells → (base : ℕ) × (start : Folder) × (groups : Seq Logged) × (forced : ℕ) × (before : Seq Logged) × (after : Seq Logged) × (place : ℕ) × IsAtGroup analysis.now lsn group.now groups before after place
            × IsRedoing self.old (H.state host.old) (λ k. length before) base start groups forced }
        requires fits { All RecordFits group.now }
        ensures redoes { IsTrue H.tells → (base : ℕ) (start : Folder) (groups : Seq Logged) (forced : ℕ) (before after : Seq Logged) (place : ℕ) → IsAtGroup analysis.now lsn group.now groups before after place
            → IsRedoing self.old (H.state host.old) (λ k. length before) base start groups forced
            → Redoes self.old self.new (H.state host.old) (H.state host.new) (λ k. length before + 1) base start groups forced (is_ok result) }
        ensures aside { IsTrue H.tells → KeepsAside (H.state host.old).folder (H.state host.new).folder }
        ensures same { SameWork self.old self.new }
        ensures edited { IsTrue H.tells → (base : ℕ) (start : Folder) (groups : Seq Logged) (forced : ℕ) (before after : Seq Logged) (place : ℕ) → IsAtGroup analysis.now lsn group.now groups before after place
            → IsRedoing self.old (H.state host.old) (λ k. length before) base start groups forced → IfErr result (OfEdited self.old.log groups (H.state host.new).folder) }
        ensures cause { HasRedoCause H.tells self.new (H.state host.old) (H.state host.new) result }
    {
        let _file = FileName::Control;
        for entry in group {
            self.redo_record(alloc, host, analysis, lsn, group, entry)?;
        }
        Ok(())
    }

    // Makes again what stands at this place of the log, and answers where the next thing stands.
    fn redo_step<H: Host>(
        &mut self,
        alloc: Global,
        host: &mut H,
        analysis: &Analysis,
        reader: &mut Reader,
        from: Lsn,
    ) -> Result<Option<Lsn>, Fault>
        requires reader { IsTrue H.tells → IsReader reader.old (log_files (H.state host.old).folder) }
        requires walking { IsTrue H.tells → (before : Seq Entry) × (more : Seq Entry) × (base : ℕ) × (start : Folder) × (groups : Seq Logged) × (forced : ℕ) × IsWalking self.old (H.state host.old) analysis.now from before more base start groups forced }
        ensures walks { IsTrue H.tells → (before more : Seq Entry) (base : ℕ) (start : Folder) (groups : Seq Logged) (forced : ℕ) → IsWalking self.old (H.state host.old) analysis.now from before more base start groups forced
            → Walks self.old self.new (H.state host.old) (H.state host.new) before more base start groups forced result }
        ensures reader { IsTrue H.tells → OnOk result (IsReader reader.new (log_files (H.state host.new).folder)) }
        ensures aside { IsTrue H.tells → KeepsAside (H.state host.old).folder (H.state host.new).folder }
        ensures same { SameWork self.old self.new }
        ensures edited { IsTrue H.tells → (before more : Seq Entry) (base : ℕ) (start : Folder) (groups : Seq Logged) (forced : ℕ) → IsWalking self.old (H.state host.old) analysis.now from before more base start groups forced
            → IfErr result (OfEdited self.old.log groups (H.state host.new).folder) }
        ensures cause { HasRedoCause H.tells self.new (H.state host.old) (H.state host.new) result }
    {
        let _file = FileName::Control;
        let step = self.log.next(alloc, host, reader, from)?;
        match step {
            Step::End => Ok(None),
            Step::Rest { after, .. } => Ok(Some(after)),
            Step::Group { at, group, after } => {
                self.redo_group(alloc, host, analysis, at, group.as_slice())?;
                Ok(Some(after))
            }
        }
    }

    /// Makes each group of the log again, from its base on, on the pages that lack it. The analysis is that of these groups.
    pub(crate) fn redo<H: Host>(
        &mut self,
        alloc: Global,
        host: &mut H,
        analysis: &Analysis,
        from: Lsn,
    ) -> Result<(), Fault>
        requires begins { IsTrue H.tells → (base : ℕ) × (start : Folder) × (groups : Seq Logged) × (forced : ℕ) × BeginsRedo self.old (H.state host.old) analysis.now from base start groups forced }
        ensures redoes { IsTrue H.tells → (base : ℕ) (start : Folder) (groups : Seq Logged) (forced : ℕ) → BeginsRedo self.old (H.state host.old) analysis.now from base start groups forced
            → Redoes self.old self.new (H.state host.old) (H.state host.new) (all_of groups) base start groups forced (is_ok result) }
        ensures aside { IsTrue H.tells → KeepsAside (H.state host.old).folder (H.state host.new).folder }
        ensures same { SameWork self.old self.new }
        ensures edited { IsTrue H.tells → (base : ℕ) (start : Folder) (groups : Seq Logged) (forced : ℕ) → BeginsRedo self.old (H.state host.old) analysis.now from base start groups forced
            → IfErr result (OfEdited self.old.log groups (H.state host.new).folder) }
        ensures cause { HasRedoCause H.tells self.new (H.state host.old) (H.state host.new) result }
    {
        let _file = FileName::Control;
        let mut reader = Reader::new();
        let mut at = from;
        for _nth in 0..MAX_ENTRIES {
            match self.redo_step(alloc, host, analysis, &mut reader, at)? {
                None => return Ok(()),
                Some(after) => at = after,
            }
        }
        Err(Fault::LogDamaged {
            file: at.file,
            page: at.offset / PAGE_BYTES as u32,
        })
    }
}
