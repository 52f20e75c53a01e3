//! A pager: a host and what is kept of its pages, for the length of some calls.

ghost use Rattle.std.specs.Prelude.{◌≡◌, ◌+◌, ◌-◌, ◌<◌, ◌≤◌, ◌^◌, ◌⊎◌, [], ℕ, min, Option, Some, None, IsTrue, IsSome, IfSome, IfErr, true, false, is_some, is_ok, OnOk, OnErr, length, unwrap_or, if◌then◌else◌};
ghost use Rattle.aria_page.specs.Page.{page_body};
ghost use Rattle.aria_record.specs.Writing.{Writes, records_of, size_of};
ghost use Rattle.aria_cache.specs.Calls.{fault_of};
ghost use Rattle.aria_cache.specs.Frames.{held};
ghost use Rattle.aria_cache.specs.Key.{key_of};
ghost use Rattle.aria_cache.specs.Causes.{IsFound};
ghost use Rattle.aria_cache.specs.PageState.{table_file};
ghost use Rattle.aria_log.specs.Log.{log_pages};
ghost use Rattle.aria_pager.specs.PageStore.{name_at, with_frames, with_writer, with_rest};
ghost use Rattle.aria_pager.specs.Goes.{Stands, Stays};
ghost use Rattle.aria_pager.specs.Looks.{KeepsPages};
ghost use Rattle.aria_pager.specs.Steps.{SameWork, HasHoldCause};
ghost use Rattle.aria_pager.specs.View.{IsTidy, page_counts, page_bodies, loaded_body};

use crate::page_store::PageStore;
use aria_cache::PageId;
use aria_host::{Fault, FileName, Host};
use aria_page::{Page, Part};
use std::alloc::Global;

/// The pages of a folder's tables, behind a log.
#[derive(Drop)]
pub struct Pager<'a, H: Host> {
    pub host: &'a mut H,
    pub store: &'a mut PageStore,
}

// The fault that was answered.
pub(crate) fn fault_in<T>(answer: &Result<T, Fault>) -> Option<Fault>
    ensures { result ≡ fault_of answer.now }
{
    match answer {
        Ok(_) => None,
        Err(fault) => Some(*fault),
    }
}

// The fault, as one that is kept.
fn kept(fault: &Fault) -> Option<Fault>
    ensures { result ≡ Some fault.now }
{
    Some(*fault)
}

// How many pages were lent, after one was where that is done.
fn more_lent(lent: u64, done: bool) -> u64
    ensures { result ≡ (if done then min (lent + 1) (2 ^ 64 - 1) else lent) }
{
    if done {
        return lent.saturating_add(1);
    }
    lent
}

impl PageStore {
    /// How many pages a file of a slot has.
    pub(crate) fn count(&self, slot: u32, part: Part) -> u32
        requires tidy { IsTidy self.now }
        requires open { IsTrue (is_some (name_at self.now slot)) }
        ensures count { result ≡ page_counts self.now (table_file (unwrap_or (name_at self.now slot) []) part) }
        ensures most { result ≤ 2 ^ 31 }
    {
        match self.slot(slot) {
            Some(slot) => slot.pages(part).pages,
            None => 0,
        }
    }

    /// The file of a slot and part.
    pub(crate) fn file(&self, slot: u32, part: Part) -> FileName
        requires tidy { IsTidy self.now }
        requires open { IsTrue (is_some (name_at self.now slot)) }
        ensures { result ≡ table_file (unwrap_or (name_at self.now slot) []) part }
    {
        match self.slot(slot) {
            Some(slot) => slot.file(part),
            None => FileName::Control,
        }
    }

    /// The page that was loaded last.
    pub(crate) fn loaded(&self) -> &Page
        ensures body { page_body result.now ≡ loaded_body self.now }
        ensures len { length (page_body result.now) ≡ 8181 }
    {
        let page = match self.frames.front() {
            Some(frame) => &frame.page,
            None => &self.blank,
        };
        let _ = page.body();
        page
    }

    /// Loads a page, or answers the fault that is kept.
    pub(crate) fn load<H: Host>(
        &mut self,
        alloc: Global,
        host: &mut H,
        at: PageId,
    ) -> Result<(), Fault>
        requires tidy { IsTidy self.old }
        requires stands { IsTrue H.tells → Stands self.old (H.state host.old) }
        requires open { IsTrue (is_some (name_at self.old at.slot)) }
        requires below { at.page < page_counts self.old (table_file (unwrap_or (name_at self.old at.slot) []) at.part) }
        ensures tidy { IsTidy self.new }
        ensures moves { IsTrue H.tells → Stays self.old self.new (H.state host.old) (H.state host.new) }
        ensures same { SameWork self.old (with_rest self.new self.new.in_group self.new.made self.old.lent self.old.kept) }
        ensures reach { log_pages self.new.log ≡ log_pages self.old.log }
        ensures pins { self.new.frames.pins ≡ self.old.frames.pins }
        ensures gone { self.old.kept ≡ None → OnErr result (held self.new.frames (key_of at) ≡ None) }
        ensures pages { IsTrue H.tells → KeepsPages self.old self.new (H.state host.old).folder (H.state host.new).folder }
        ensures loaded { IsTrue H.tells → OnOk result (page_bodies self.old (H.state host.old).folder (table_file (unwrap_or (name_at self.old at.slot) []) at.part) at.page ≡ Some (loaded_body self.new)) }
        ensures lent { self.new.lent ≡ (if is_ok result then min (self.old.lent + 1) (2 ^ 64 - 1) else self.old.lent) }
        ensures keeps { self.new.kept ≡ fault_of result }
        ensures again { IfSome self.old.kept (λ kept. fault_of result ≡ Some kept) }
        ensures still { IsSome self.old.kept → (self.new ≡ self.old) × (host.new ≡ host.old) }
        ensures cause { self.old.kept ≡ None → HasHoldCause H.tells self.new (key_of at) (H.state host.old) (H.state host.new) result }
    {
        let _file = FileName::Control;
        if let Some(fault) = self.kept {
            return Err(fault);
        }
        let answer = self.hold(alloc, host, at);
        let _ = self.loaded();
        self.lent = more_lent(self.lent, answer.is_ok());
        self.kept = fault_in(&answer);
        answer
    }

    /// Begins a group.
    pub(crate) fn begin(&mut self)
        requires tidy { IsTidy self.old }
        requires none { self.old.in_group ≡ false }
        ensures tidy { IsTidy self.new }
        ensures rest { self.new ≡ with_writer (with_frames (with_rest self.old true 0 self.old.lent self.old.kept) self.new.frames) self.new.writer }
        ensures cache { self.new.frames.cache ≡ self.old.frames.cache }
        ensures pins { self.new.frames.pins.items ≡ [] }
        ensures entries { Writes self.new.writer [] }
        ensures bytes { size_of self.new.writer ≡ 5 }
    {
        self.writer.clear();
        self.frames.unpin_all();
        self.in_group = true;
        self.made = 0;
    }

    /// Leaves a group that has no edit, or after a fault.
    pub(crate) fn leave(&mut self)
        requires tidy { IsTidy self.old }
        requires nothing { (records_of self.old.writer ≡ []) ⊎ IsSome self.old.kept }
        ensures tidy { IsTidy self.new }
        ensures rest { self.new ≡ with_rest self.old false self.old.made self.old.lent self.old.kept }
    {
        self.in_group = false;
    }

    /// Keeps a fault that the caller found, unless one is kept already; gives back the one that is kept.
    pub(crate) fn stop(&mut self, why: Fault) -> Fault
        requires tidy { IsTidy self.old }
        requires found { IsFound why }
        ensures tidy { IsTidy self.new }
        ensures fault { result ≡ unwrap_or self.old.kept why }
        ensures rest { self.new ≡ with_rest self.old self.old.in_group self.old.made self.old.lent (Some result) }
    {
        if let Some(fault) = self.kept {
            return fault;
        }
        self.kept = kept(&why);
        why
    }
}
