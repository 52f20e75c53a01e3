//! How rows and pages are divided (docs/FORMATS.md).

use aria_bitmap::PATTERNS;

/// The most row bytes that a head has alone, without a tail and blob pages.
pub const WHOLE_MAX: usize = 5_986;

/// How many row bytes the head of a longer row has.
pub const HEAD_ROW: usize = 1_986;

/// The most row bytes that a tail has.
pub const TAIL_MAX: usize = 4_000;

/// How many row bytes a blob page has, behind its first byte.
pub const BLOB_ROW: usize = 8_180;

/// How many bytes a head has in front of its row bytes.
pub const HEAD_FIELDS: usize = 14;

/// The place of the first part on a head or tail page.
pub const PARTS_AT: u16 = 4;

/// The size of an entry of a page's directory, in bytes.
pub const ENTRY_BYTES: u16 = 4;

/// The most entries of a directory.
pub const MAX_ENTRIES: u8 = 255;

/// Every page whose number is a multiple of this is a bitmap page.
pub const MAP_EVERY: u32 = PATTERNS + 1;

/// The most bytes of a part that a free page takes.
pub const PART_MAX: usize = 8_173;

/// The most bytes of a row.
pub const ROW_MAX: usize = 65_540;

/// The most bytes of a head.
pub const HEAD_MAX: usize = HEAD_FIELDS + WHOLE_MAX;

/// The most blob pages of a row.
pub const BLOBS_MAX: u32 = 8;

/// A data file with so many pages or more takes no row more.
pub const FULL_PAGES: u32 = 1 << 30;
