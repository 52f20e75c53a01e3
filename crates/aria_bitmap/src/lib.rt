//! Bitmap pages: for each page of a data file three bits, which tell whether it is free and how much room
//! it has.
//!
//! The pattern of a page is its code (`code_of`). A bitmap page holds the patterns of 21808 pages, counted
//! from 0, which `get` reads and `set` changes. `find_room` and `find_empty_run` look for a page, or for
//! pages one after another, that a part of a row may be put on. docs/FORMATS.md has every bit
//! ("Room on head and tail pages" and "Bitmap pages").
//!
//! Contracts see a bitmap as its patterns. A change is of exactly one pattern; the page's checksum and log
//! sequence number stay as they were. Whether patterns are the codes of their pages is for callers to
//! see to. Only `set_edit` takes memory.
#![tactic(auto)]

mod bitmap;
mod code;
mod group;
mod search;
mod sought;

pub use bitmap::{GroupBytes, get, set, set_bytes, set_edit};
pub use code::{code_of, entry};
pub use group::PATTERNS;
pub use search::{find_empty_run, find_room};

#[cfg(test)]
mod tests;
