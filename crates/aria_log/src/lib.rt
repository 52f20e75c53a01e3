//! The log: groups of records, appended to files of pages, that no crash tears apart.
//!
//! A `Log` stands over a `Host`. `append` puts a group at the end and gives its log sequence number; `force` brings all
//! groups to the disk. At each moment a crash leaves a front of the groups that has every forced one. Pages are numbered
//! through all files, 1,024 in each, and have a checksum. A run of pages goes from one force to the next, and counts up to
//! its first page that isn't valid.
//!
//! The calls, in their order:
//!
//! ```text
//! let mut log = Log::open(alloc, &mut host, from)?; // from where redo starts
//! let mut reader = Reader::new();
//! let step = log.next(alloc, &mut host, &mut reader, from)?; // a group and the place behind it: as often as wanted
//! log.start(&mut host)?;                          // once, before the first group
//! let lsn = log.append(&mut host, bytes)?;        // the bytes of one group; as often as wanted
//! log.force(&mut host)?;                          // all groups are on the disk: append and force again
//! log.is_forced(&host, lsn);                      // whether a group is on the disk, at any time from then on
//! log.purge(alloc, &mut host, lsn)?;              // removes the files before the place of the oldest group that is needed
//! ```
//!
//! `fresh` is the log of a folder that has no log file. `find` finds a log that may be damaged, so that what stands before
//! the damage can be read; it isn't started then. `first_run` says where the first whole run begins behind a place, for one
//! who reads without a place to begin at. `next` gives a group also where it lies in the page that isn't written yet; a walk
//! by it, from place to place, comes to the log's end within `MAX_ENTRIES` steps.
//!
//! `force` also makes room ahead: pages of zeros behind the log's end, so that the file needn't grow at each force. Zeros
//! are no valid page, so they are no part of the log, and `start` leaves them.
//!
//! `start` asks for a log that was opened on this very host; `append` and `force` ask for one that was started. After one
//! of these three has answered a fault but `LogSpent` the log isn't used again. Neither `append` nor `force` takes memory.
//! docs/FORMATS.md has the pages ("The log's pages") and the groups.
#![tactic(auto)]

mod ahead;
mod calls;
mod filling;
mod find;
mod log;
mod log_page;
mod missing;
mod next;
mod open;
mod place;
mod purge;
mod reader;
mod run;
mod start;
mod step;

pub use find::{Damage, Found};
pub use log::Log;
pub use next::MAX_ENTRIES;
pub use reader::Reader;
pub use step::Step;

#[cfg(test)]
mod tests;
