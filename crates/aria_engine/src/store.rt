use crate::tally::Tally;
use aria_host::Fault;
use aria_journal::Log;
use aria_memory::Tables;
use aria_page::Bytes;

/// The number of the log's one file.
pub(crate) const FILE: u32 = 1;

/// With so many pages the log has no room for a further statement.
pub(crate) const FULL_PAGES: u64 = 524_000;

/// The tables of a folder, and the log that keeps them.
#[derive(Drop)]
pub struct Store {
    pub(crate) tables: Tables,
    pub(crate) log: Log,
    // what a line tells
    pub(crate) text: Bytes,
    pub(crate) tally: Tally,
    // the fault that was answered
    pub(crate) kept: Option<Fault>,
}
