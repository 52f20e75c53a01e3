//! How a page of the log is spelled.

ghost use Rattle.std.specs.Prelude.{◌≡◌, ◌++◌, drop};
ghost use Rattle.aria_page.specs.Page.{Sums, with_sum};
ghost use Rattle.aria_journal.specs.LogPage.{log_head};

use aria_host::MAX_PAGES;
use aria_page::{LOG_BODY_BYTES, Page, flag, u16_bytes, u24_bytes, u32_bytes};

/// The number of the file of the log.
pub(crate) const FILE: u32 = 1;

/// The place of the file's number in a page of the log.
const FILE_AT: usize = 4;

/// The place of the page's number.
const PAGE_AT: usize = 7;

/// The place of the mark.
const MARK_AT: usize = 11;

/// The mark of a page of the log.
const MARK: u8 = 10;

/// The place of the byte that says whether the page begins a run.
pub(crate) const BEGINS_AT: usize = 12;

/// The place of the number of used bytes.
pub(crate) const USED_AT: usize = 14;

/// The bodies of all pages that a file may have, in bytes.
pub(crate) const FILE_BODY_BYTES: u64 = LOG_BODY_BYTES as u64 * MAX_PAGES;

/// Puts the head before the body, and sets the checksum.
pub(crate) fn seal(page: &mut Page, number: u32, begins: bool, used: u16)
    ensures page { page.new ≡ with_sum (log_head number begins used ++ drop 16 page.old) }
    ensures sums { Sums page.new }
{
    page.put(USED_AT, &u16_bytes(used));
    page.put(MARK_AT, &[MARK, flag(begins), 0]);
    page.put(PAGE_AT, &u32_bytes(number));
    page.put(FILE_AT, &u24_bytes(FILE));
    page.sum();
}
