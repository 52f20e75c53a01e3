ghost use Rattle.std.specs.Prelude.{◌≡◌, ◌+◌, ◌≤◌, ◌↔◌, length, take, drop, IsTrue, ◌==◌};
ghost use Rattle.std.specs.List.{list_all};
ghost use Rattle.aria_page.specs.Lsn.{IsLsn};
ghost use Rattle.aria_page.specs.declared.page.TheConstants.{PAGE_BYTES, BODY_BYTES};
ghost use Rattle.aria_page.specs.Page.{with_bytes, zero_page, page_body, page_lsn, Sums, IsSound, summed, sealed};

use crate::bytes::bytes_from;
use crate::crc::checksum;
use crate::lsn::{LSN_BYTES, Lsn, lsn_of};
use crate::number::{u32_bytes, u32_of};
use std::marker::Model;

/// The size of a page, in bytes.
pub const PAGE_BYTES: usize = 8192;

/// The size of the checksum that a page begins with, in bytes.
pub const SUM_BYTES: usize = 4;

/// The place of the body in a page: behind the checksum and the log sequence number.
pub const BODY_AT: usize = SUM_BYTES + LSN_BYTES;

/// The size of a page's body, in bytes.
pub const BODY_BYTES: usize = PAGE_BYTES - BODY_AT;

/// The place of the body in a page of the log.
pub const LOG_BODY_AT: usize = 16;

/// The size of the body of a page of the log, in bytes.
pub const LOG_BODY_BYTES: usize = PAGE_BYTES - LOG_BODY_AT;

/// A page: its checksum, its log sequence number and its body (docs/FORMATS.md).
#[derive(Clone, Copy, Debug)]
pub struct Page {
    bytes: [u8; PAGE_BYTES],
}

impl Model for Page {
    ghost use Rattle.std.specs.Prelude.{List, ℕ};
    ghost use Rattle.std.specs.Coded.{coded_list, coded_ℕ};

    ghost Value = { List ℕ };

    ghost coded = { coded_list coded_ℕ };

    ghost view = { λ p. p.bytes };

    ghost inverse = { λ v. record { bytes = v } };
}

// Whether all bytes are zero.
fn are_zero(bytes: &[u8]) -> bool
    ensures { result ≡ list_all (λ b. b == 0) bytes.now }
{
    bytes.iter().all(|byte| *byte == 0)
}

impl Page {
    /// The page of zeros.
    #[tactic(auto, unfolding(crate::specs::Page::zero_page))]
    pub fn zero() -> Page
        ensures { result ≡ zero_page }
    {
        Page {
            bytes: [0; PAGE_BYTES],
        }
    }

    /// All bytes of the page.
    pub fn bytes(&self) -> &[u8]
        ensures value { result.now ≡ self.now }
        ensures len { length self.now ≡ PAGE_BYTES }
    {
        &self.bytes
    }

    /// Puts the bytes into the page from this place on. Nothing else changes, not even the checksum.
    #[tactic(auto, unfolding(crate::specs::Page::with_bytes))]
    pub fn put(&mut self, at: usize, bytes: &[u8])
        requires { at + length bytes.now ≤ PAGE_BYTES }
        ensures bytes { self.new ≡ with_bytes at bytes.now self.old }
        ensures len_before { length self.old ≡ PAGE_BYTES }
        ensures len { length self.new ≡ PAGE_BYTES }
    {
        self.bytes[at..at + bytes.len()].copy_from_slice(bytes);
    }

    /// Copies the bytes from a place, as they stand, to another. Nothing else changes.
    pub fn copy_within(&mut self, at: usize, len: usize, to: usize)
        requires from { at + len ≤ PAGE_BYTES }
        requires to { to + len ≤ PAGE_BYTES }
        ensures bytes { self.new ≡ with_bytes to (take len (drop at self.old)) self.old }
        ensures len_before { length self.old ≡ PAGE_BYTES }
        ensures len { length self.new ≡ PAGE_BYTES }
    {
        self.bytes.copy_within(at..at + len, to);
    }

    /// The body of the page.
    #[tactic(auto, unfolding(crate::specs::Page::page_body))]
    pub fn body(&self) -> &[u8]
        ensures value { result.now ≡ page_body self.now }
        ensures len { length result.now ≡ BODY_BYTES }
    {
        bytes_from(self.bytes(), BODY_AT)
    }

    /// The log sequence number of the page.
    #[tactic(auto, unfolding(crate::specs::Page::page_lsn))]
    pub fn lsn(&self) -> Lsn
        ensures value { result ≡ page_lsn self.now }
        ensures fits { IsLsn result }
    {
        lsn_of(bytes_from(self.bytes(), SUM_BYTES))
    }

    /// Whether the checksum is that of the bytes behind it.
    #[tactic(auto, unfolding(crate::specs::Page::Sums))]
    pub fn sums(&self) -> bool
        ensures { IsTrue result ↔ Sums self.now }
    {
        u32_of(self.bytes()) == checksum(bytes_from(self.bytes(), SUM_BYTES))
    }

    /// Whether the checksum fits, or all bytes are zero.
    pub fn is_sound(&self) -> bool
        ensures { IsTrue result ↔ IsSound self.now }
    {
        self.sums() || are_zero(self.bytes())
    }

    /// Sets the checksum. Nothing else changes.
    pub fn sum(&mut self)
        ensures bytes { self.new ≡ summed self.old }
        ensures sums { Sums self.new }
        ensures len { length self.new ≡ PAGE_BYTES }
    {
        let sum = checksum(bytes_from(self.bytes(), SUM_BYTES));
        self.put(0, &u32_bytes(sum));
    }

    /// Sets the log sequence number, and then the checksum. The body stays.
    pub fn seal(&mut self, lsn: Lsn)
        ensures bytes { self.new ≡ sealed lsn self.old }
        ensures sums { Sums self.new }
        ensures lsn { IsLsn lsn → page_lsn self.new ≡ lsn }
        ensures body { page_body self.new ≡ page_body self.old }
        ensures len { length self.new ≡ PAGE_BYTES }
    {
        self.put(SUM_BYTES, &lsn.to_bytes());
        self.sum();
    }
}
