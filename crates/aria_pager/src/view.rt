//! A pager as pages.

ghost use Rattle.std.specs.Prelude.{◌≡◌, ℕ, true, List as Seq, IsTrue, refl};
ghost use Rattle.std.proofs.Common.{◌∙◌};
ghost use Rattle.aria_host.specs.declared.file_name.FileName.{FileName as File};
ghost use Rattle.aria_record.specs.Logged.{Logged};
ghost use Rattle.aria_pager.specs.Goes.{Stands, Stays, Ends};
ghost use Rattle.aria_pager.specs.View.{IsTidy, pages_of};
ghost use Rattle.aria_pager.specs.Laws.{stays_none, stays_then, ends_nothing, ends_then, stays_ends, ends_stays};
ghost use Rattle.aria_pager.specs.Shown.{body_long, body_past};

use crate::page_store::PageStore;
use crate::pager::Pager;
use aria_cache::{OpenGroup, PageId, Pages};
use aria_host::{Fault, FileName, Host};
use aria_page::{Change, Last, Lsn, Page, Part, RedoKind};
use std::alloc::Global;

impl PageStore {
    /// The pager over a host, for the length of some calls.
    pub fn pager<'a, H: Host>(&'a mut self, host: &'a mut H) -> Pager<'a, H>
        ensures store { (result.store.ghost_name ≡ self.entry.ghost_name) × (result.store.now ≡ self.old) }
        ensures host { (result.host.ghost_name ≡ host.entry.ghost_name) × (result.host.now ≡ host.old) }
    {
        Pager { host, store: self }
    }
}

impl<'a, H: Host> Pages for Pager<'a, H> {
    ghost tells = { H.tells };

    ghost logged = { true };

    ghost state = { λ v. pages_of v.store.now (H.state v.host.now) };

    ghost stands = { λ v. IsTidy v.store.now × (IsTrue H.tells → Stands v.store.now (H.state v.host.now)) };

    ghost stays = { λ a b. (b.host.ghost_name ≡ a.host.ghost_name) × (b.store.ghost_name ≡ a.store.ghost_name) × (IsTrue H.tells → Stays a.store.now b.store.now (H.state a.host.now) (H.state b.host.now)) };

    ghost ends = { λ a b added. (b.host.ghost_name ≡ a.host.ghost_name) × (b.store.ghost_name ≡ a.store.ghost_name) × (IsTrue H.tells → Ends a.store.now b.store.now (H.state a.host.now) (H.state b.host.now) added) };

    ghost stays_same = { λ p. (refl, refl, λ told. stays_none p.store.now (H.state p.host.now) (λ c b left. H.only_now p.host.now c b told left)) };

    ghost stays_on = { λ a b c first second. (second.0 ∙ first.0, second.1 ∙ first.1, λ told. stays_then a.store.now b.store.now c.store.now (H.state a.host.now) (H.state b.host.now) (H.state c.host.now) (first.2 told) (second.2 told)) };

    ghost ends_none = { λ a b first. (first.0, first.1, λ told. ends_nothing a.store.now b.store.now (H.state a.host.now) (H.state b.host.now) (first.2 told)) };

    ghost ends_behind = { λ a b c groups first second. (second.0 ∙ first.0, second.1 ∙ first.1, λ told. stays_ends a.store.now b.store.now c.store.now (H.state a.host.now) (H.state b.host.now) (H.state c.host.now) groups (first.2 told) (second.2 told)) };

    ghost ends_before = { λ a b c groups first second. (second.0 ∙ first.0, second.1 ∙ first.1, λ told. ends_stays a.store.now b.store.now c.store.now (H.state a.host.now) (H.state b.host.now) (H.state c.host.now) groups (first.2 told) (second.2 told)) };

    ghost ends_on = { λ a b c groups more first second. (second.0 ∙ first.0, second.1 ∙ first.1, λ told. ends_then a.store.now b.store.now c.store.now (H.state a.host.now) (H.state b.host.now) (H.state c.host.now) groups more (first.2 told) (second.2 told)) };

    ghost long = { λ p f n body told stands is. body_long p.store.now (H.state p.host.now).folder f n body is };

    ghost past = { λ p f n told stands behind. body_past p.store.now (H.state p.host.now).folder f n behind };

    fn count(&self, slot: u32, part: Part) -> u32 {
        self.store.count(slot, part)
    }

    fn file(&self, slot: u32, part: Part) -> FileName {
        self.store.file(slot, part)
    }

    fn load(&mut self, alloc: Global, at: PageId) -> Result<(), Fault> {
        self.store.load(alloc, self.host, at)
    }

    fn loaded(&self) -> &Page {
        self.store.loaded()
    }

    fn group(&mut self) -> OpenGroup {
        self.store.begin();
        OpenGroup::begin()
    }

    fn edit(
        &mut self,
        alloc: Global,
        _group: &mut OpenGroup,
        at: PageId,
        why: RedoKind,
        edits: &[Change<'_>],
    ) -> Result<(), Fault> {
        self.store.edit_kept(alloc, self.host, at, why, edits)
    }

    fn end(
        &mut self,
        _alloc: Global,
        group: OpenGroup,
        slot: u32,
        last: &Last,
    ) -> Result<Lsn, Fault> {
        group.spend();
        self.store.end_kept(self.host, slot, last)
    }

    fn leave(&mut self, group: OpenGroup) {
        group.spend();
        self.store.leave();
    }

    fn stop(&mut self, why: Fault) -> Fault {
        self.store.stop(why)
    }

    fn last_undo(&self) -> Lsn {
        self.store.last_undo()
    }

    fn undo_next(&self) -> Lsn {
        self.store.undo_next()
    }
}
