//! The pager: files of pages that are changed by groups of edits, whatever a crash leaves.
//!
//! A `PageStore` is what a pager keeps between its calls; each call is given the host. `PageStore::pager` lends both as a
//! `Pager`, which implements `aria_cache::Pages`: there pages are loaded, and edited in groups. The store's own calls make
//! and drop tables, give a table its slot, append COMMIT, bring groups to the disk, and close.
//!
//! `specs/Pager.antt` has the condition: by each front of the log's groups that a crash may leave, it leaves files that come
//! to the same tables as the folder as it reads. `specs/Steps.antt`, `Turns.antt` and `Goes.antt` say what calls do to that.
//! A fault that was answered is kept: each later call answers it again, and changes nothing.
//!
//! A page is written only when the log has all its groups on the disk, so no file is ahead of the log
//! (docs/ARCHITECTURE.md, "How a page gets to the disk and back").
#![tactic(auto)]

mod analyse;
mod at_rest;
mod begin;
mod close;
mod commit;
mod create;
mod drop;
mod edit;
mod edit_kept;
mod end;
mod end_kept;
mod enter;
mod evict;
mod find;
mod force;
mod headers;
mod leftover;
mod load;
mod look;
mod maker;
mod new_table;
mod open;
mod page_store;
mod pager;
mod prepare;
mod reading;
mod redo;
mod reserve;
mod settle;
mod settle_names;
mod slot;
mod table;
mod undo;
mod view;

pub use look::Looked;
pub use page_store::PageStore;
pub use pager::Pager;

#[cfg(test)]
mod tests;
