//! The types that every layer speaks of: bytes, numbers, names, pages and their edits.
//!
//! `List<T>` is a growing list, `Bytes` a list of bytes, and `Name` the name of a table, a key or a
//! column, kept in place. A `Page` has 8192 bytes: a checksum, a log sequence number (`Lsn`) and a body,
//! which `apply` changes by an `Edit`. `u32_at`, `lsn_at` and their kin read what formats store, from left to
//! right. The rest are the small types of places and log groups.
//!
//! Contracts see a list, a name and a page as the list of their items. Each call changes exactly what its
//! clauses name. Nothing here reaches outside the process, and the only failure is want of memory, in the
//! calls that take an allocator or make a list longer.
#![tactic(auto)]

mod bytes;
mod change;
mod crc;
mod crc_table;
mod edit;
mod group;
mod list;
mod lsn;
mod name;
mod number;
mod page;
mod page_kind;
mod place;
mod stored;

pub use bytes::{
    bytes_at, bytes_from, counted_u8_at, counted_u16_at, counted_u32_at, push_counted_u8,
    push_counted_u16, push_counted_u32, same_bytes,
};
pub use change::{Change, apply_all};
pub use crc::checksum;
pub use edit::{Edit, EditFault, apply};
pub use group::{Last, RedoKind};
pub use list::{Bytes, List};
pub use lsn::{LSN_BYTES, Lsn, lsn_at, lsn_of, push_lsn};
pub use name::{Name, begins_word, continues_word, name_at, push_name};
pub use number::{
    flag, push_u8, push_u16, push_u32, push_u40, push_u64, u8_at, u16_at, u16_bytes, u16_of,
    u24_at, u24_bytes, u24_of, u32_at, u32_bytes, u32_of, u40_at, u40_bytes, u40_of, u64_at,
    u64_bytes, u64_of,
};
pub use page::{BODY_AT, BODY_BYTES, LOG_BODY_AT, LOG_BODY_BYTES, PAGE_BYTES, Page, SUM_BYTES};
pub use page_kind::PageKind;
pub use place::{Part, Place, Places};
pub use stored::{Stored, items_at, list_at, push_items, push_list};

#[cfg(test)]
mod tests;
