//! Places in the log, and their log sequence numbers.

ghost use Rattle.std.specs.Prelude.{◌≡◌, ◌≤◌, ◌<◌, ◌*◌, ◌-◌, ◌/◌, ◌^◌, ℕ, nat_lt, IfSome};
ghost use Rattle.aria_page.specs.Lsn.{IsLsn, lsn_number};
ghost use Rattle.aria_record.specs.Logged.{lsn_at_place};
ghost use Rattle.aria_log.specs.Finding.{means_none, place_of, start_of};

use crate::log_page::{BODY_AT, BODY_BYTES, FILE_PAGES, file_of, page_of};
use aria_page::{Lsn, PAGE_BYTES};

/// The log sequence number of a place, in bytes of pages' bodies.
pub(crate) fn lsn_of_place(place: u64) -> Lsn
    requires { place ≤ 8176 * (2 ^ 34 - 1) }
    ensures { result ≡ lsn_at_place place }
{
    let number = place / BODY_BYTES as u64;
    let byte = (place % BODY_BYTES as u64) as u32;
    Lsn {
        file: file_of(number),
        offset: page_of(number) * PAGE_BYTES as u32 + BODY_AT as u32 + byte,
    }
}

/// The place of a log sequence number.
pub(crate) fn place_of_lsn(lsn: Lsn) -> u64
    ensures place { (place : ℕ) → lsn ≡ lsn_at_place place → result ≡ place }
    ensures low { result < 2 ^ 56 }
{
    let number = u64::from(lsn.file) * FILE_PAGES + u64::from(lsn.offset / PAGE_BYTES as u32);
    let byte = (lsn.offset % PAGE_BYTES as u32).saturating_sub(BODY_AT as u32);
    number * BODY_BYTES as u64 + u64::from(byte)
}

/// Whether the log sequence number stands before that of a place.
pub(crate) fn is_before_place(lsn: Lsn, place: u64) -> bool
    requires { place ≤ 8176 * (2 ^ 34 - 1) }
    ensures { result ≡ nat_lt (lsn_number lsn) (lsn_number (lsn_at_place place)) }
{
    lsn.is_before(lsn_of_place(place))
}

/// The log sequence number of the log's first byte.
const START: Lsn = Lsn {
    file: 1,
    offset: BODY_AT as u32,
};

/// Whether the log sequence number means none.
pub(crate) fn means_none(from: Lsn) -> bool
    ensures { result ≡ means_none from }
{
    from.file == 0 && from.offset == 0
}

/// Where the log is read from: none stands for its first byte.
#[tactic(auto, unfolding(crate::specs::Finding::start_of))]
pub(crate) fn start_of(from: Lsn) -> Lsn
    requires { IsLsn from }
    ensures is { result ≡ start_of from }
    ensures fits { IsLsn result }
{
    if means_none(from) { START } else { from }
}

/// The place of the byte that has this log sequence number; `None` where no byte of a page's body has it.
#[tactic(auto, unfolding(crate::specs::Finding::place_of))]
pub(crate) fn place_of(lsn: Lsn) -> Option<u64>
    requires { IsLsn lsn }
    ensures is { result ≡ place_of lsn }
    ensures file { IfSome result (λ place. place / 8176 / 1024 ≡ lsn.file) }
{
    let page = lsn.offset / PAGE_BYTES as u32;
    let byte = lsn.offset % PAGE_BYTES as u32;
    if byte < BODY_AT as u32 {
        return None;
    }
    if u64::from(page) >= FILE_PAGES {
        return None;
    }
    let number = u64::from(lsn.file) * FILE_PAGES + u64::from(page);
    Some(number * BODY_BYTES as u64 + u64::from(byte - BODY_AT as u32))
}
