//! How a page of the log is spelled.

ghost use Rattle.std.specs.Prelude.{◌≡◌, ◌++◌, ◌/◌, ◌%◌, ◌<◌, ◌^◌, drop};
ghost use Rattle.aria_page.specs.Page.{Sums, with_sum};
ghost use Rattle.aria_log.specs.LogPage.{log_head};

use aria_page::{LOG_BODY_AT, LOG_BODY_BYTES, Page, flag, u16_bytes, u24_bytes, u32_bytes};

/// The place of the log file's number in a page of the log.
const FILE_AT: usize = 4;

/// The place of the page's number in its file.
const PAGE_AT: usize = 7;

/// The place of the mark.
const MARK_AT: usize = 11;

/// The mark of a page of the log.
pub(crate) const MARK: u8 = 10;

/// The place of the byte that says whether the page begins a run.
pub(crate) const BEGINS_AT: usize = 12;

/// The place of the number of used bytes.
pub(crate) const USED_AT: usize = 14;

/// The place of the body.
pub(crate) const BODY_AT: usize = LOG_BODY_AT;

/// The size of the body, in bytes.
pub(crate) const BODY_BYTES: usize = LOG_BODY_BYTES;

/// A page has as many places.
pub(crate) const PLACES: u64 = BODY_BYTES as u64;

/// The most pages of a log file.
pub(crate) const FILE_PAGES: u64 = 1024;

/// Pages are numbered below this: the last page of file 2^24 - 1 is never used.
pub(crate) const PAGES_END: u64 = (1 << 34) - 1;

/// Files of the log have lower numbers than this.
pub(crate) const NO_FILE: u32 = 1 << 24;

/// The file of the page of this number.
pub(crate) fn file_of(number: u64) -> u32
    requires { number < 2 ^ 34 }
    ensures is { result ≡ number / 1024 }
    ensures below { result < 2 ^ 24 }
{
    (number / FILE_PAGES) as u32
}

/// The page of this number, in its file.
pub(crate) fn page_of(number: u64) -> u32
    ensures is { result ≡ number % 1024 }
    ensures below { result < 1024 }
{
    (number % FILE_PAGES) as u32
}

/// Puts the head before the body, and sets the checksum.
pub(crate) fn seal(page: &mut Page, number: u64, begins: bool, used: u16)
    requires { number < 2 ^ 34 }
    ensures page { page.new ≡ with_sum (log_head number begins used ++ drop 16 page.old) }
    ensures sums { Sums page.new }
{
    page.put(USED_AT, &u16_bytes(used));
    page.put(MARK_AT, &[MARK, flag(begins), 0]);
    page.put(PAGE_AT, &u32_bytes(page_of(number)));
    page.put(FILE_AT, &u24_bytes(file_of(number)));
    page.sum();
}
