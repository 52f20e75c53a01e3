//! What is read of the log: its end, the undo record that is undone next, and its groups.

ghost use Rattle.std.specs.Prelude.{◌≡◌, ℕ, Bool, List, reverse, Some, None, IsTrue, IsSome, IfSome, IfOk};
ghost use Rattle.aria_host.specs.Calls.{Unchanged};
ghost use Rattle.aria_host.specs.Folder.{Folder};
ghost use Rattle.aria_record.specs.Groups.{IsGroup};
ghost use Rattle.aria_record.specs.Logged.{Logged, lsn_at_place};
ghost use Rattle.aria_log.specs.Log.{place};
ghost use Rattle.aria_cache.specs.Calls.{fault_of};
ghost use Rattle.aria_cache.specs.Ending.{newest};
ghost use Rattle.aria_pager.specs.PageStore.{with_rest};
ghost use Rattle.aria_pager.specs.Pager.{LogOf, IsPager, Standing};
ghost use Rattle.aria_pager.specs.Goes.{Stays};
ghost use Rattle.aria_pager.specs.View.{IsTidy};
ghost use Rattle.aria_pager.specs.Grouped.{IsGroupAt, HasGroupCause};

use crate::load::log_damaged;
use crate::page_store::PageStore;
use aria_host::{Fault, FileName, Host};
use aria_log::{Log, Reader, Step};
use aria_page::Lsn;
use aria_record::Group;
use std::alloc::Global;

// The fault that was answered in place of a group.
fn fault_of_group(answer: &Result<Group, Fault>) -> Option<Fault>
    ensures { result ≡ fault_of answer.now }
{
    match answer {
        Ok(_) => None,
        Err(fault) => Some(*fault),
    }
}

/// The group that stands at a place of the log.
pub(crate) fn group_in<H: Host>(
    alloc: Global,
    host: &mut H,
    log: &Log,
    at: Lsn,
) -> Result<Group, Fault>
    requires there { IsTrue H.tells → (started : Bool) × (base : ℕ) × (groups : List Logged) × (forced : ℕ) × (g : Logged) × LogOf started log.now (H.state host.old) base groups forced × IsGroupAt groups at g }
    ensures group { IsTrue H.tells → (started : Bool) (base : ℕ) (groups : List Logged) (forced : ℕ) (g : Logged) → LogOf started log.now (H.state host.old) base groups forced → IsGroupAt groups at g
        → IfOk result (λ group. group ≡ g.group) }
    ensures is { IfOk result IsGroup }
    ensures same { IsTrue H.tells → Unchanged (H.state host.old) (H.state host.new) }
    ensures cause { HasGroupCause H.tells (H.state host.old) (H.state host.new) result }
{
    let _file = FileName::Control;
    let mut reader = Reader::new();
    match log.next(alloc, host, &mut reader, at)? {
        Step::Group {
            at: _,
            group,
            after: _,
        } => Ok(group),
        Step::Rest {
            at: _,
            bytes: _,
            after: _,
        } => Err(log_damaged(at)),
        Step::End => Err(log_damaged(at)),
    }
}

impl PageStore {
    /// The undo record that is undone next; (0, 0) where none is pending.
    pub fn pending(&self) -> Lsn
        ensures { result ≡ newest (reverse self.now.pending.items) }
    {
        self.last_undo()
    }

    /// Where the next group is put into the log.
    pub fn log_end(&self) -> Lsn
        ensures { result ≡ lsn_at_place (place self.now.log) }
    {
        self.log.end()
    }

    /// The file of the log's end.
    pub fn log_file(&self) -> u32
        ensures { result ≡ (lsn_at_place (place self.now.log)).file }
    {
        self.log.end().file
    }

    // The group that stands at a place of the log.
    fn group_at<H: Host>(&self, alloc: Global, host: &mut H, at: Lsn) -> Result<Group, Fault>
        requires there { IsTrue H.tells → (base : ℕ) × (start : Folder) × (groups : List Logged) × (forced : ℕ) × (g : Logged) × IsPager self.now (H.state host.old) base start groups forced × IsGroupAt groups at g }
        ensures group { IsTrue H.tells → (base : ℕ) (start : Folder) (groups : List Logged) (forced : ℕ) (g : Logged) → IsPager self.now (H.state host.old) base start groups forced → IsGroupAt groups at g
            → IfOk result (λ group. group ≡ g.group) }
        ensures is { IfOk result IsGroup }
        ensures same { IsTrue H.tells → Unchanged (H.state host.old) (H.state host.new) }
        ensures cause { HasGroupCause H.tells (H.state host.old) (H.state host.new) result }
    {
        let _file = FileName::Control;
        group_in(alloc, host, &self.log, at)
    }

    /// The group of the log that has this log sequence number.
    pub fn read_group<H: Host>(
        &mut self,
        alloc: Global,
        host: &mut H,
        at: Lsn,
    ) -> Result<Group, Fault>
        requires tidy { IsTidy self.old }
        requires there { IsTrue H.tells → (base : ℕ) × (start : Folder) × (groups : List Logged) × (forced : ℕ) × (g : Logged) × Standing self.old (H.state host.old) base start groups forced × IsGroupAt groups at g }
        ensures tidy { IsTidy self.new }
        ensures moves { IsTrue H.tells → Stays self.old self.new (H.state host.old) (H.state host.new) }
        ensures looks { IsTrue H.tells → Unchanged (H.state host.old) (H.state host.new) }
        ensures group { IsTrue H.tells → (base : ℕ) (start : Folder) (groups : List Logged) (forced : ℕ) (g : Logged) → Standing self.old (H.state host.old) base start groups forced → IsGroupAt groups at g
            → IfOk result (λ group. group ≡ g.group) }
        ensures is { IfOk result IsGroup }
        ensures rest { self.new ≡ with_rest self.old self.old.in_group self.old.made self.old.lent self.new.kept }
        ensures keeps { self.new.kept ≡ fault_of result }
        ensures again { IfSome self.old.kept (λ kept. fault_of result ≡ Some kept) }
        ensures still { IsSome self.old.kept → (self.new ≡ self.old) × (host.new ≡ host.old) }
        ensures cause { self.old.kept ≡ None → HasGroupCause H.tells (H.state host.old) (H.state host.new) result }
    {
        let _file = FileName::Control;
        if let Some(fault) = self.kept {
            return Err(fault);
        }
        let answer = self.group_at(alloc, host, at);
        self.kept = fault_of_group(&answer);
        answer
    }
}
