//! Pages of tables' files: what operations on rows and keys ask of the layer below them.
//!
//! `Pages` is a trait, so that each operation on pages is proved once, over whatever stands behind it. A table that is open
//! has a slot, and a `PageId` is a page of one of its two files. `load` brings a page into memory and `loaded` lends it.
//! Pages are changed in groups of edits:
//!
//! ```text
//! let mut group = pages.group();
//! match helper(alloc, pages, &mut group, ..) {       // calls pages.edit(alloc, &mut group, at, why, edits)?
//!     Ok(()) => pages.end(alloc, group, slot, last), // the log has the group as one step; gives its number
//!     Err(fault) => {
//!         pages.leave(group);                        // after a fault, or where nothing was edited
//!         Err(fault)
//!     }
//! }
//! ```
//!
//! An `OpenGroup` must be spent, by `end` or `leave`, so it can't be held across a `?`: the helper takes it by `&mut`. A
//! group has at most 254 edits, of at most 48 pages, where there is a log. Nothing is brought to the disk by any of these
//! calls, unless room is needed in memory.
//!
//! A fault that a call answers is kept: each later call answers it again, and changes nothing. After a fault of `edit`
//! nothing more is known of the pages. `stop` keeps a fault that the caller found.
//!
//! A call that is generic over `P: Pages` has these clauses, and needs no proof for them:
//!
//! ```text
//! requires stands { P.stands pages.old }
//! requires open { IsTrue ((P.state pages.old).is_open slot) }
//! ensures stands { P.stands pages.new }
//! ensures moves { P.stays pages.old pages.new }      // or P.ends pages.old pages.new groups, where these groups ended
//! ensures slots { SameSlots (P.state pages.old) (P.state pages.new) }
//! ensures answers { Answers (P.state pages.old) (P.state pages.new) (fault_of result) }
//! ```
//!
//! and, in an open group, `SameLog` and `Spends`; one that only reads has `Loads` in their place. `specs/PageState.antt`
//! says what contracts know of pages, `specs/Calls.antt` what calls do, `specs/Causes.antt` which fault has which cause.
//! `proofs/Growing.antt` has the laws of `Grows`, `FewerLate` and `StaysIn`: name them once in the root of a crate above,
//! by `#![tactic(auto, using(..))]`.
//!
//! `MemPages` has pages in memory, without a log, for tests.
#![tactic(auto)]

mod frames;
mod mem_file;
mod mem_pages;
mod page_id;
mod pages;
mod row_fault;

pub use frames::{Frame, Frames, MAX_PINS};
pub use mem_pages::MemPages;
pub use page_id::PageId;
pub use pages::{OpenGroup, Pages};
pub use row_fault::RowFault;

#[cfg(test)]
mod tests;
