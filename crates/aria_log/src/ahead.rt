//! Makes room ahead of the log's end.

ghost use Rattle.std.specs.Prelude.{◌≡◌, ◌≤◌, ◌<◌, ◌+◌, ◌-◌, ◌/◌, ◌%◌, ◌^◌, ℕ, List, true, IsTrue, OnOk, OnErr, length};
ghost use Rattle.aria_host.specs.Calls.{HasDiskCause};
ghost use Rattle.aria_log.specs.Pieces.{Piece};
ghost use Rattle.aria_log.specs.Log.{behind, GoesAhead, HoldsRun, IsSameEnd, IsWriting, LogMoments};

use crate::log::Log;
use crate::log_page::{FILE_PAGES, PAGES_END, file_of, page_of};
use aria_host::{Fault, FileName, Host};
use aria_page::Page;
use std::cmp::min;

/// The most pages of zeros that are made ahead at a time: 1 MiB.
pub(crate) const MOST_AHEAD: u64 = 128;

impl Log {
    // Writes so many pages of zeros behind the log's end, in its last file.
    fn write_zeros<H: Host>(&self, host: &mut H, count: u64) -> Result<(), Fault>
        requires inside { self.now.number % 1024 + count ≤ 1024 }
        requires low { self.now.number < 2 ^ 34 - 1 }
        requires at { IsTrue H.tells → (base : ℕ) × (whole : List Piece) × (parts : List (List ℕ)) × IsWriting (H.state host.old) base whole parts true × (self.now.number ≡ behind base whole parts) }
        ensures ahead { IsTrue H.tells → (base : ℕ) (whole : List Piece) (parts : List (List ℕ)) → IsWriting (H.state host.old) base whole parts true → self.now.number ≡ behind base whole parts
            → OnOk result (GoesAhead (H.state host.old) (H.state host.new) base whole parts) }
        ensures moments { IsTrue H.tells → (base : ℕ) (whole : List Piece) (parts : List (List ℕ)) → IsWriting (H.state host.old) base whole parts true → self.now.number ≡ behind base whole parts
            → LogMoments (H.state host.old) (H.state host.new) (HoldsRun base whole parts) }
        ensures cause { HasDiskCause (H.state host.old) (H.state host.new) result }
    {
        let file = FileName::Log(file_of(self.number));
        let first = page_of(self.number);
        let zeros = Page::zero();
        for page in first..first + count as u32 {
            host.write_page(&file, page, &zeros)?;
        }
        Ok(())
    }

    // Makes room behind the page that was written last, where it was the last of its file: as many pages of zeros as were
    // written so far, so that a run of a few groups leaves little.
    pub(crate) fn make_ahead<H: Host>(&mut self, host: &mut H) -> Result<(), Fault>
        requires at { IsTrue H.tells → (base : ℕ) × (whole : List Piece) × (parts : List (List ℕ)) × IsWriting (H.state host.old) base whole parts self.old.there × (self.old.number ≡ behind base whole parts) }
        ensures ahead { IsTrue H.tells → (base : ℕ) (whole : List Piece) (parts : List (List ℕ)) → IsWriting (H.state host.old) base whole parts self.old.there → self.old.number ≡ behind base whole parts
            → OnOk result (IsWriting (H.state host.new) base whole parts self.old.there) }
        ensures moments { IsTrue H.tells → (base : ℕ) (whole : List Piece) (parts : List (List ℕ)) → IsWriting (H.state host.old) base whole parts self.old.there → self.old.number ≡ behind base whole parts
            → LogMoments (H.state host.old) (H.state host.new) (HoldsRun base whole parts) }
        ensures same { IsSameEnd self.old self.new }
        ensures cause { HasDiskCause (H.state host.old) (H.state host.new) result }
    {
        if !self.there {
            return Ok(());
        }
        if self.number < self.made || self.number >= PAGES_END {
            return Ok(());
        }
        let count = min(self.written, FILE_PAGES - self.number % FILE_PAGES);
        self.write_zeros(host, count)?;
        self.made = self.number + count;
        Ok(())
    }
}
