//! Starts a log that was opened.

ghost use Rattle.std.specs.Prelude.{◌≡◌, ◌↔◌, ◌≤◌, ◌+◌, ◌*◌, ◌/◌, ◌%◌, [], Some, false, ℕ, List, length, max, take, unwrap_or, IsTrue, IfOk, OnOk, is_ok};
ghost use Rattle.std.specs.Option.{option_map};
ghost use Rattle.aria_page.specs.Page.{zero_page};
ghost use Rattle.aria_host.specs.Calls.{HasDiskCause, Unchanged, extent_of};
ghost use Rattle.aria_log.specs.Pieces.{log_files};
ghost use Rattle.aria_record.specs.Logged.{Logged};
ghost use Rattle.aria_log.specs.Log.{HasNoLog, HoldsAll, IsBlankFrom, IsEnded, IsLog, IsOpened, KeepsRoom, LogMoments, Starts, place};

use crate::log::Log;
use crate::log_page::{FILE_PAGES, file_of, page_of};
use aria_host::{Extent, Fault, FileName, Host};
use aria_page::Page;
use std::cmp::max;

// Whether a log file of this extent has whole pages, and not too many.
fn is_regular(extent: &Extent) -> bool
    ensures { IsTrue result ↔ ((extent.now.odd ≡ false) × (extent.now.pages ≤ 1024)) }
{
    !extent.odd && extent.pages <= FILE_PAGES as u32
}

fn is_zero(page: &Page) -> bool
    ensures { IsTrue result ↔ (page.now ≡ zero_page) }
{
    page.bytes() == Page::zero().bytes()
}

impl Log {
    /// The log of a folder that has no log file. It begins in file 1, and is to be started before anything is appended.
    pub fn fresh<H: Host>(host: &H) -> Log
        ensures opened { IsTrue H.tells → HasNoLog (H.state host.now) → IsOpened result (H.state host.now) (8176 * 1024) [] result.last }
    {
        let _host = host;
        Log {
            page: Page::zero(),
            number: FILE_PAGES,
            first: FILE_PAGES,
            used: 0,
            there: false,
            made: FILE_PAGES,
            written: 0,
            last: 1,
        }
    }

    // Removes the files behind that of the log's end, the highest first.
    fn remove_later<H: Host>(&self, host: &mut H) -> Result<(), Fault>
        requires opened { IsTrue H.tells → (base : ℕ) × (groups : List Logged) × IsOpened self.now (H.state host.old) base groups self.now.last }
        ensures starts { IsTrue H.tells → (base : ℕ) (groups : List Logged) → IsOpened self.now (H.state host.old) base groups self.now.last
            → Starts self.now (H.state host.old) (H.state host.new) base groups (self.now.number / 1024) (is_ok result) }
        ensures cause { HasDiskCause (H.state host.old) (H.state host.new) result }
    {
        let end = file_of(self.number);
        let mut file = self.last;
        while end < file {
            host.remove(&FileName::Log(file))?;
            file -= 1;
        }
        Ok(())
    }

    // Whether only zeros stand behind the log's end in its last file, which has this extent. A file that is too long, or
    // ends within a page, isn't read.
    fn is_blank<H: Host>(&self, host: &mut H, extent: Extent) -> Result<bool, Fault>
        requires found { IsTrue H.tells → Some extent ≡ extent_of (log_files (H.state host.old).folder (self.now.number / 1024)) }
        requires few { IsTrue H.tells → extent.pages ≤ 1024 }
        ensures blank { IsTrue H.tells → IfOk result (λ blank. IsTrue blank ↔ IsBlankFrom (self.now.number % 1024) (log_files (H.state host.old).folder (self.now.number / 1024))) }
        ensures same { IsTrue H.tells → Unchanged (H.state host.old) (H.state host.new) }
        ensures cause { HasDiskCause (H.state host.old) (H.state host.new) result }
    {
        let first = page_of(self.number);
        if extent.pages <= first {
            return Ok(true);
        }
        if !is_regular(&extent) {
            return Ok(false);
        }
        let file = FileName::Log(file_of(self.number));
        let mut page = Page::zero();
        for at in first..extent.pages {
            host.read_page(&file, at, &mut page)?;
            if !is_zero(&page) {
                return Ok(false);
            }
        }
        Ok(true)
    }

    // The first page that isn't in the log's last file, which has so many, or isn't there.
    fn made_with(&self, pages: Option<u32>) -> u64
        ensures { result ≡ max self.now.number (1024 * (self.now.number / 1024) + unwrap_or pages 0) }
    {
        let first = u64::from(file_of(self.number)) * FILE_PAGES;
        max(self.number, first + u64::from(pages.unwrap_or(0)))
    }

    // Cuts the log's last file to the log's end, and brings it to the disk.
    fn cut_end<H: Host>(&self, host: &mut H) -> Result<(), Fault>
        requires opened { IsTrue H.tells → (base : ℕ) × (groups : List Logged) × IsOpened self.now (H.state host.old) base groups (self.now.number / 1024) }
        requires pages { IsTrue H.tells → (content : List (List ℕ)) × (log_files (H.state host.old).folder (self.now.number / 1024) ≡ Some content) × (self.now.number % 1024 ≤ length content) }
        ensures opened { IsTrue H.tells → (base : ℕ) (groups : List Logged) → IsOpened self.now (H.state host.old) base groups (self.now.number / 1024)
            → OnOk result (IsOpened self.now (H.state host.new) base groups (self.now.number / 1024)) }
        ensures cut { IsTrue H.tells → OnOk result (log_files (H.state host.new).folder (self.now.number / 1024) ≡ option_map (take (self.now.number % 1024)) (log_files (H.state host.old).folder (self.now.number / 1024))) }
        ensures moments { IsTrue H.tells → (base : ℕ) (groups : List Logged) → IsOpened self.now (H.state host.old) base groups (self.now.number / 1024)
            → LogMoments (H.state host.old) (H.state host.new) (HoldsAll base groups) }
        ensures cause { HasDiskCause (H.state host.old) (H.state host.new) result }
    {
        let file = FileName::Log(file_of(self.number));
        host.cut(&file, page_of(self.number))?;
        host.sync(&file)
    }

    // Ends the log's last file, which has this extent, where the log ends, and says how many pages it has then.
    fn end_pages<H: Host>(&self, host: &mut H, extent: Extent) -> Result<u32, Fault>
        requires opened { IsTrue H.tells → (base : ℕ) × (groups : List Logged) × IsOpened self.now (H.state host.old) base groups (self.now.number / 1024) }
        requires found { IsTrue H.tells → Some extent ≡ extent_of (log_files (H.state host.old).folder (self.now.number / 1024)) }
        ensures ended { IsTrue H.tells → (base : ℕ) (groups : List Logged) → IsOpened self.now (H.state host.old) base groups (self.now.number / 1024)
            → IfOk result (λ pages. IsEnded self.now (H.state host.old) (H.state host.new) base groups (Some pages)) }
        ensures moments { IsTrue H.tells → (base : ℕ) (groups : List Logged) → IsOpened self.now (H.state host.old) base groups (self.now.number / 1024)
            → LogMoments (H.state host.old) (H.state host.new) (HoldsAll base groups) }
        ensures cause { HasDiskCause (H.state host.old) (H.state host.new) result }
    {
        if self.is_blank(host, extent)? {
            return Ok(extent.pages);
        }
        self.cut_end(host)?;
        Ok(page_of(self.number))
    }

    // Ends the log's last file where the log ends, and says how many pages it has then, or that it isn't there. Where only
    // zeros stand behind the log's end, the file stays as it is.
    fn end_file<H: Host>(&self, host: &mut H) -> Result<Option<u32>, Fault>
        requires opened { IsTrue H.tells → (base : ℕ) × (groups : List Logged) × IsOpened self.now (H.state host.old) base groups (self.now.number / 1024) }
        ensures ended { IsTrue H.tells → (base : ℕ) (groups : List Logged) → IsOpened self.now (H.state host.old) base groups (self.now.number / 1024)
            → IfOk result (λ pages. IsEnded self.now (H.state host.old) (H.state host.new) base groups pages) }
        ensures moments { IsTrue H.tells → (base : ℕ) (groups : List Logged) → IsOpened self.now (H.state host.old) base groups (self.now.number / 1024)
            → LogMoments (H.state host.old) (H.state host.new) (HoldsAll base groups) }
        ensures cause { HasDiskCause (H.state host.old) (H.state host.new) result }
    {
        match host.look(&FileName::Log(file_of(self.number)))? {
            None => Ok(None),
            Some(extent) => Ok(Some(self.end_pages(host, extent)?)),
        }
    }

    /// Makes the log ready for groups: what lies behind its end is removed and cut off, and the cut is on the disk. Where
    /// only zeros stand behind the end, its file stays as it is: they are room for pages to come.
    pub fn start<H: Host>(&mut self, host: &mut H) -> Result<(), Fault>
        requires { IsTrue H.tells → (base : ℕ) × (groups : List Logged) × IsOpened self.old (H.state host.old) base groups self.old.last }
        ensures started { IsTrue H.tells → (base : ℕ) (groups : List Logged) → IsOpened self.old (H.state host.old) base groups self.old.last
            → OnOk result (IsLog self.new (H.state host.new) base groups (length groups)) }
        ensures moments { IsTrue H.tells → (base : ℕ) (groups : List Logged) → IsOpened self.old (H.state host.old) base groups self.old.last
            → LogMoments (H.state host.old) (H.state host.new) (HoldsAll base groups) }
        ensures room { IsTrue H.tells → (base : ℕ) (groups : List Logged) → IsOpened self.old (H.state host.old) base groups self.old.last
            → OnOk result (KeepsRoom self.old self.new (log_files (H.state host.old).folder) (log_files (H.state host.new).folder)) }
        ensures place { place self.new ≡ place self.old }
        ensures cause { HasDiskCause (H.state host.old) (H.state host.new) result }
    {
        self.remove_later(host)?;
        let pages = self.end_file(host)?;
        self.there = pages.is_some();
        self.made = self.made_with(pages);
        Ok(())
    }
}
