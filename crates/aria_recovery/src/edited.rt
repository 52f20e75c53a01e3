//! The pages of a file that groups edit.

ghost use Rattle.std.specs.Prelude.{◌≡◌, ◌+◌, ◌&&◌, ℕ, OnOk, None, Some, nat_eq, max, if◌then◌else◌};
ghost use Rattle.std.specs.BTreeMap.{get};
ghost use Rattle.std.specs.Ordering.{nat_cmp};

use aria_page::Lsn;
use std::alloc::{AllocError, Global};
use std::collections::BTreeMap;

/// The last group that edits each page, and one more than the highest page that a group names.
#[derive(Drop)]
pub(crate) struct Edited {
    pub(crate) last: BTreeMap<u32, Lsn>,
    pub(crate) reach: u64,
}

impl Edited {
    pub(crate) fn new(alloc: Global) -> Edited
        ensures pages { (n : ℕ) → get nat_cmp result.last n ≡ None }
        ensures reach { result.reach ≡ 0 }
    {
        Edited {
            last: BTreeMap::new(alloc),
            reach: 0,
        }
    }

    /// A group has a record of the page, with edits or without.
    pub(crate) fn note(&mut self, at: Lsn, page: u32, has_edits: bool) -> Result<(), AllocError>
        ensures pages { OnOk result ((n : ℕ) → get nat_cmp self.new.last n ≡ (if nat_eq n page && has_edits then Some at else get nat_cmp self.old.last n)) }
        ensures reach { OnOk result (self.new.reach ≡ max self.old.reach (page + 1)) }
    {
        if has_edits {
            self.last.insert(page, at)?;
        }
        self.reach = self.reach.max(page as u64 + 1);
        Ok(())
    }

    /// The last group that edits the page.
    pub(crate) fn last_of(&self, page: u32) -> Option<Lsn>
        ensures { result ≡ get nat_cmp self.now.last page }
    {
        self.last.get(&page).copied()
    }
}
