ghost use Rattle.std.specs.Prelude.{◌≡◌, ◌+◌, ◌-◌, ◌*◌, ◌/◌, ◌<◌, ◌≤◌, ◌^◌, ◌⊎◌, ◌++◌, [], ◌∷◌, ℕ, Bool, List, true, false, min, drop, unwrap_or, IsTrue, IsSome, None, is_ok, if◌then◌else◌, IfOk, OnOk, OnErr, Some, All, length};
ghost use Rattle.aria_page.specs.Change.{edit_of, edits_of};
ghost use Rattle.aria_page.specs.Edit.{IsWithin};
ghost use Rattle.aria_page.specs.Page.{page_body, zero_page};
ghost use Rattle.aria_page.specs.declared.page.TheConstants.{BODY_BYTES};
ghost use Rattle.aria_host.specs.declared.file_name.FileName.{FileName as File};
ghost use Rattle.aria_record.specs.Logged.{Logged};
ghost use Rattle.aria_cache.specs.PageState.{PageState, file_of, with_count};
ghost use Rattle.aria_cache.specs.Ending.{newest, ended_group, pending_after, EndFits, UndoesNewest};
ghost use Rattle.aria_record.specs.Writing.{redo_size, last_size};
ghost use Rattle.aria_cache.specs.Calls.{SameSlots, SameLog, FewerLate, StaysIn, fault_of, Answers, Loads, Spends, HasRoom, Edits, Begins, Leaves, Stops, Ended};
ghost use Rattle.aria_cache.specs.Causes.{OfPage, OfLog, HasPagesCause, IsFound};

use crate::page_id::PageId;
use aria_host::{Fault, FileName};
use aria_page::{Change, Last, Lsn, Page, Part, RedoKind};
use std::alloc::Global;

/// A group of edits that was begun. It is spent by `end` or `leave`.
pub struct OpenGroup {
    id: u8,
}

impl OpenGroup {
    /// A group that is begun. For implementations of `Pages`.
    pub fn begin() -> OpenGroup {
        OpenGroup { id: 0 }
    }

    /// Spends the group. For implementations of `Pages`.
    pub fn spend(self) {
        let OpenGroup { id: _ } = self;
    }
}

/// The pages of tables' files, as operations on rows and keys need them.
pub trait Pages {
    /// Whether the clauses on what pages hold speak.
    ghost tells: { Bool };

    /// Whether groups go into a log.
    ghost logged: { Bool };

    ghost state: { Self → PageState };

    /// What holds of the pages between calls.
    ghost stands: { Self → Type 0 };

    /// What a call in which no group ended may do to what stands below the pages.
    ghost stays: { Self → Self → Type 0 };

    /// The same for a call in which exactly these groups ended.
    ghost ends: { Self → Self → List Logged → Type 0 };

    /// How many pages the file has.
    fn count(&self, slot: u32, part: Part) -> u32
        requires stands { stands self.now }
        requires open { IsTrue ((state self.now).is_open slot) }
        ensures count { result ≡ (state self.now).counts (file_of (state self.now) slot part) }
        ensures most { result ≤ 2 ^ 31 };

    /// The file of a slot and part.
    fn file(&self, slot: u32, part: Part) -> FileName
        requires stands { stands self.now }
        requires open { IsTrue ((state self.now).is_open slot) }
        ensures { result ≡ file_of (state self.now) slot part };

    /// Brings a page into memory, where `loaded` lends it until the next call that may change the pages.
    fn load(&mut self, alloc: Global, at: PageId) -> Result<(), Fault>
        requires stands { stands self.old }
        requires open { IsTrue ((state self.old).is_open at.slot) }
        requires below { at.page < (state self.old).counts (file_of (state self.old) at.slot at.part) }
        ensures stands { stands self.new }
        ensures moves { stays self.old self.new }
        ensures loads { Loads tells 1 (state self.old) (state self.new) }
        ensures loaded { IsTrue tells → OnOk result ((state self.old).bodies (file_of (state self.old) at.slot at.part) at.page ≡ Some (state self.new).loaded) }
        ensures lent { (state self.new).lent ≡ (if is_ok result then min ((state self.old).lent + 1) (2 ^ 64 - 1) else (state self.old).lent) }
        ensures answers { Answers (state self.old) (state self.new) (fault_of result) }
        ensures cause { HasPagesCause (OfPage tells logged (file_of (state self.old) at.slot at.part) at.page (state self.old) (state self.new)) (state self.old) (state self.new) (fault_of result) };

    /// The page that was loaded last.
    fn loaded(&self) -> &Page
        ensures body { page_body result.now ≡ (state self.now).loaded };

    /// Begins a group.
    fn group(&mut self) -> OpenGroup
        requires stands { stands self.old }
        requires none { (state self.old).in_group ≡ false }
        ensures stands { stands self.new }
        ensures moves { stays self.old self.new }
        ensures begins { Begins (state self.old) (state self.new) };

    /// Edits a page, as part of the group. A page behind the file's end is zeros before. After a fault nothing is known
    /// of the group and of the pages: no call does anything more.
    fn edit(
        &mut self,
        alloc: Global,
        group: &mut OpenGroup,
        at: PageId,
        why: RedoKind,
        edits: &[Change<'_>],
    ) -> Result<(), Fault>
        requires stands { stands self.old }
        requires open { IsTrue ((state self.old).is_open at.slot) }
        requires group { (state self.old).in_group ≡ true }
        requires low { at.page < 2 ^ 31 }
        requires some { 1 ≤ length edits.now }
        requires within { All (λ e. IsWithin (edit_of e)) edits.now }
        requires room { IsTrue logged → HasRoom (length edits.now) (state self.old) }
        ensures stands { stands self.new }
        ensures moves { stays self.old self.new }
        ensures slots { SameSlots (state self.old) (state self.new) }
        ensures log { SameLog (state self.old) (state self.new) }
        ensures lent { (state self.new).lent ≡ (state self.old).lent }
        ensures in_group { (state self.new).in_group ≡ true }
        ensures edited { OnOk result ((state self.new).edited ≡ true) }
        ensures edits { IsTrue tells → OnOk result (Edits logged why at.slot at.part at.page (edits_of edits.now) (state self.old) (state self.new)) }
        ensures inside { IsTrue tells → OnOk result (StaysIn logged (file_of (state self.old) at.slot at.part) (state self.old) (state self.new)) }
        ensures counts { OnOk result ((state self.new).counts ≡ with_count (file_of (state self.old) at.slot at.part) (at.page + 1) (state self.old).counts) }
        ensures spends { Spends 1 (length edits.now) (redo_size (edits_of edits.now)) (state self.old) (state self.new) }
        ensures answers { Answers (state self.old) (state self.new) (fault_of result) }
        ensures cause { HasPagesCause (OfPage tells logged (file_of (state self.old) at.slot at.part) at.page (state self.old) (state self.new)) (state self.old) (state self.new) (fault_of result) };

    /// Ends the group: it is put into the log with this record at its end, but nothing is brought to the disk yet. Gives
    /// the group's log sequence number.
    fn end(&mut self, alloc: Global, group: OpenGroup, slot: u32, last: &Last) -> Result<Lsn, Fault>
        requires stands { stands self.old }
        requires open { IsTrue ((state self.old).is_open slot) }
        requires group { (state self.old).in_group ≡ true }
        requires fits { IsTrue logged → EndFits last.now }
        requires undoes { IsTrue logged → UndoesNewest last.now (state self.old).pending }
        ensures stands { stands self.new }
        ensures moves { OnErr result (stays self.old self.new) }
        ensures ended { IfOk result (λ lsn. Ended logged ends (ended_group slot last.now (state self.old)) lsn self.old self.new) }
        ensures slots { SameSlots (state self.old) (state self.new) }
        ensures counts { (state self.new).counts ≡ (state self.old).counts }
        ensures bodies { IsTrue tells → (state self.new).bodies ≡ (state self.old).bodies }
        ensures late { IsTrue tells → FewerLate (state self.old) (state self.new) }
        ensures lent { (state self.new).lent ≡ (state self.old).lent }
        ensures in_group { (state self.new).in_group ≡ false }
        ensures edits { (state self.new).edits ≡ [] }
        ensures pending { IfOk result (λ lsn. (state self.new).pending ≡ (if logged then pending_after lsn last.now (state self.old).pending else (state self.old).pending)) }
        ensures pending_err { OnErr result ((state self.new).pending ≡ (state self.old).pending) }
        ensures reach { (state self.new).reach ≤ (state self.old).reach + ((state self.old).bytes + last_size last.now) / 8176 + 2 }
        ensures answers { Answers (state self.old) (state self.new) (fault_of result) }
        ensures cause { HasPagesCause (OfLog logged ((state self.old).bytes + last_size last.now) (state self.old) (state self.new)) (state self.old) (state self.new) (fault_of result) };

    /// Leaves a group that has no edit, or after a fault.
    fn leave(&mut self, group: OpenGroup)
        requires stands { stands self.old }
        requires group { (state self.old).in_group ≡ true }
        requires nothing { ((state self.old).edited ≡ false) ⊎ IsSome (state self.old).kept }
        ensures stands { stands self.new }
        ensures moves { stays self.old self.new }
        ensures leaves { Leaves (state self.old) (state self.new) };

    /// Keeps a fault that the caller found, so that each later call answers it. One that is kept already stays, and is
    /// the one that is given back.
    fn stop(&mut self, why: Fault) -> Fault
        requires stands { stands self.old }
        requires found { IsFound why }
        ensures stands { stands self.new }
        ensures moves { stays self.old self.new }
        ensures fault { result ≡ unwrap_or (state self.old).kept why }
        ensures stops { Stops result (state self.old) (state self.new) };

    /// The log sequence number of the undo record that is undone next; (0, 0) where none is pending.
    fn last_undo(&self) -> Lsn
        requires { stands self.now }
        ensures { result ≡ newest (state self.now).pending };

    /// The one of the record before it; (0, 0) where there is none.
    fn undo_next(&self) -> Lsn
        requires { stands self.now }
        ensures { result ≡ newest (drop 1 (state self.now).pending) };

    ghost stays_same: { (p : Self) → stays p p };

    ghost stays_on: { (a b c : Self) → stays a b → stays b c → stays a c };

    ghost ends_none: { (a b : Self) → stays a b → ends a b [] };

    ghost ends_behind: { (a b c : Self) (groups : List Logged) → stays a b → ends b c groups → ends a c groups };

    ghost ends_before: { (a b c : Self) (groups : List Logged) → ends a b groups → stays b c → ends a c groups };

    ghost ends_on: { (a b c : Self) (groups more : List Logged) → ends a b groups → ends b c more → ends a c (groups ++ more) };

    /// A body has its length.
    ghost long: { (p : Self) (f : File) (n : ℕ) (body : List ℕ) → IsTrue tells → stands p → (state p).bodies f n ≡ Some body → length body ≡ BODY_BYTES };

    /// Pages behind a file's end are zeros.
    ghost past: { (p : Self) (f : File) (n : ℕ) → IsTrue tells → stands p → (state p).counts f ≤ n → (state p).bodies f n ≡ Some (page_body zero_page) };
}
