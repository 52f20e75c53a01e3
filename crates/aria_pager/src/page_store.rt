use crate::slot::Slot;
use aria_cache::Frames;
use aria_host::Fault;
use aria_log::Log;
use aria_page::{List, Lsn, Name, Page};
use aria_record::GroupWriter;
use std::collections::BTreeMap;

/// What a pager keeps between its calls.
#[derive(Drop)]
pub struct PageStore {
    pub(crate) log: Log,
    /// Groups may be appended to the log.
    pub(crate) started: bool,
    pub(crate) frames: Frames,
    /// The entries of the open group.
    pub(crate) writer: GroupWriter,
    pub(crate) in_group: bool,
    /// The open group has at most so many edits.
    pub(crate) made: u32,
    pub(crate) slots: List<Slot>,
    /// The tables by their names, with the slot of each that has one.
    pub(crate) tables: BTreeMap<Name, Option<u32>>,
    /// The undo records that are pending, the oldest first.
    pub(crate) pending: Vec<Lsn>,
    /// How many pages were lent, up to 2^64 - 1.
    pub(crate) lent: u64,
    pub(crate) kept: Option<Fault>,
    /// What is lent where no page was loaded.
    pub(crate) blank: Page,
}
