//! What the log tells of a table.

ghost use Rattle.std.specs.Prelude.{◌≡◌, ◌+◌, ◌&&◌, ℕ, OnOk, None, Some, nat_eq, max, if◌then◌else◌};
ghost use Rattle.std.specs.BTreeMap.{get};
ghost use Rattle.std.specs.Ordering.{nat_cmp};
ghost use Rattle.aria_recovery.specs.Redo.{same_part};
ghost use Rattle.aria_recovery.specs.Noted.{edit_in, reach_in};

use crate::edited::Edited;
use aria_page::{Lsn, Part};
use std::alloc::{AllocError, Global};
use std::collections::BTreeMap;

/// What the last group tells that makes or drops the files of a name.
#[derive(Clone, Copy, Debug, PartialEq, Eq)]
pub enum Told {
    /// There is no such group.
    Nothing,
    /// The files are dropped.
    Dropped,
    /// The files are made, by the group of this log sequence number.
    Made(Lsn),
}

/// What the groups so far tell of a table.
#[derive(Drop)]
pub(crate) struct Life {
    pub(crate) file_group: Option<Lsn>,
    pub(crate) told: Told,
    pub(crate) keys: Edited,
    pub(crate) rows: Edited,
}

impl Life {
    /// Behind a group that says so of the files no page is edited yet.
    pub(crate) fn new(alloc: Global, file_group: Option<Lsn>, told: Told) -> Life
        ensures edits { (p : Part) (n : ℕ) → edit_in result p n ≡ None }
        ensures reach { (p : Part) → reach_in result p ≡ 0 }
        ensures told { result.told ≡ told }
        ensures file_group { result.file_group ≡ file_group }
    {
        Life {
            file_group,
            told,
            keys: Edited::new(alloc),
            rows: Edited::new(alloc),
        }
    }

    /// A group has a record of the page.
    pub(crate) fn note(
        &mut self,
        at: Lsn,
        part: Part,
        page: u32,
        has_edits: bool,
    ) -> Result<(), AllocError>
        ensures edits { OnOk result ((p : Part) (n : ℕ) → edit_in self.new p n ≡ (if same_part p part && (nat_eq n page && has_edits) then Some at else edit_in self.old p n)) }
        ensures reach { OnOk result ((p : Part) → reach_in self.new p ≡ (if same_part p part then max (reach_in self.old p) (page + 1) else reach_in self.old p)) }
        ensures told { self.new.told ≡ self.old.told }
        ensures file_group { self.new.file_group ≡ self.old.file_group }
    {
        match part {
            Part::Keys => self.keys.note(at, page, has_edits),
            Part::Rows => self.rows.note(at, page, has_edits),
        }
    }

    /// The last group that edits the page.
    pub(crate) fn last_edit(&self, part: Part, page: u32) -> Option<Lsn>
        ensures { result ≡ edit_in self.now part page }
    {
        match part {
            Part::Keys => self.keys.last_of(page),
            Part::Rows => self.rows.last_of(page),
        }
    }

    /// One more than the highest page of the file that a group names.
    pub(crate) fn reach(&self, part: Part) -> u64
        ensures { result ≡ reach_in self.now part }
    {
        match part {
            Part::Keys => self.keys.reach,
            Part::Rows => self.rows.reach,
        }
    }

    /// The pages of the file, each with the last group that edits it.
    pub(crate) fn pages(&self, part: Part) -> &BTreeMap<u32, Lsn>
        ensures { (n : ℕ) → get nat_cmp result.now n ≡ edit_in self.now part n }
    {
        match part {
            Part::Keys => &self.keys.last,
            Part::Rows => &self.rows.last,
        }
    }
}
