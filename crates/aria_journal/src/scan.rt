//! Opens the log: finds its end, and reads its frames.

ghost use Rattle.std.specs.Prelude.{◌≡◌, ◌≤◌, ◌+◌, ◌^◌, ◌++◌, [], length, map, drop, false, IfOk, OnOk, IsTrue};
ghost use Rattle.std.specs.Option.{option_map_or};
ghost use Rattle.aria_journal.specs.LogPage.{read_log_page};
ghost use Rattle.aria_host.specs.Calls.{HasDiskCause, HasDiskOrMemoryCause, Unchanged};
ghost use Rattle.aria_journal.specs.Frames.{frames_in};
ghost use Rattle.aria_journal.specs.Front.{begins_behind, end_of};
ghost use Rattle.aria_journal.specs.Places.{EndsBefore, frame_pages_of, pages_from};
ghost use Rattle.aria_journal.specs.Log.{log_pages, log_of};
ghost use Rattle.aria_journal.specs.Opened.{Finds};

use crate::log::Log;
use crate::log_page::FILE;
use crate::opened::Opened;
use crate::reader::Reader;
use crate::reading::read_page_of;
use aria_host::{Fault, FileName, Host};
use aria_page::Page;
use std::alloc::Global;

// Reads the pages of the valid front, and says how many there are.
fn read_front<H: Host>(
    alloc: Global,
    host: &mut H,
    pages: u32,
    reader: &mut Reader,
) -> Result<u32, Fault>
    requires pages { IsTrue H.tells → pages ≡ length (log_pages (H.state host.old).folder) }
    requires frames { reader.old.frames ≡ [] }
    requires first { reader.old.first ≡ 0 }
    requires run { reader.old.run ≡ [] }
    requires full { reader.old.full ≡ false }
    ensures end { IsTrue H.tells → IfOk result (λ number. number ≡ end_of (log_pages (H.state host.old).folder)) }
    ensures frames { IsTrue H.tells → IfOk result (λ _. log_of (H.state host.old).folder ≡ map (λ f. f.bytes) reader.new.frames ++ frames_in reader.new.run) }
    ensures starts { IsTrue H.tells → IfOk result (λ _. frame_pages_of (log_pages (H.state host.old).folder) ≡ map (λ f. f.page) reader.new.frames ++ pages_from reader.new.first 0 (frames_in reader.new.run)) }
    ensures before { OnOk result (EndsBefore reader.new.first reader.new.run (2 ^ 32)) }
    ensures within { IfOk result (λ number. number ≤ pages) }
    ensures same { IsTrue H.tells → Unchanged (H.state host.old) (H.state host.new) }
    ensures cause { HasDiskOrMemoryCause (H.state host.old) (H.state host.new) result }
{
    let mut page = Page::zero();
    for number in 0..pages {
        host.read_page(&FileName::Log(FILE), number, &mut page)?;
        if !reader.take(alloc, number, &page)? {
            return Ok(number);
        }
    }
    Ok(pages)
}

// Whether the page begins a run.
fn begins_run(number: u32, page: &Page) -> bool
    ensures { result ≡ option_map_or (λ piece. piece.0) (read_log_page number page.now) false }
{
    match read_page_of(number, page) {
        None => false,
        Some((begins, _)) => begins,
    }
}

// Whether a page from this one on begins a run.
fn begins_from<H: Host>(host: &mut H, from: u32, pages: u32) -> Result<bool, Fault>
    requires pages { IsTrue H.tells → pages ≡ length (log_pages (H.state host.old).folder) }
    requires within { from ≤ pages }
    ensures found { IsTrue H.tells → IfOk result (λ found. found ≡ begins_behind from (drop from (log_pages (H.state host.old).folder))) }
    ensures same { IsTrue H.tells → Unchanged (H.state host.old) (H.state host.new) }
    ensures cause { HasDiskCause (H.state host.old) (H.state host.new) result }
{
    let mut page = Page::zero();
    for number in from..pages {
        host.read_page(&FileName::Log(FILE), number, &mut page)?;
        if begins_run(number, &page) {
            return Ok(true);
        }
    }
    Ok(false)
}

// How many pages the file has; none where it isn't there.
fn pages_of<H: Host>(host: &mut H) -> Result<u32, Fault>
    ensures pages { IsTrue H.tells → IfOk result (λ pages. pages ≡ length (log_pages (H.state host.old).folder)) }
    ensures within { IfOk result (λ pages. pages ≤ 2 ^ 31) }
    ensures same { IsTrue H.tells → Unchanged (H.state host.old) (H.state host.new) }
    ensures cause { HasDiskCause (H.state host.old) (H.state host.new) result }
{
    match host.look(&FileName::Log(FILE))? {
        None => Ok(0),
        Some(extent) => Ok(extent.pages),
    }
}

/// Opens the log, and changes nothing. Where the file isn't there the log has no frames.
pub fn open<H: Host>(alloc: Global, host: &mut H) -> Result<Opened, Fault>
    ensures found { IsTrue H.tells → IfOk result (λ opened. Finds opened (H.state host.old).folder) }
    ensures same { IsTrue H.tells → Unchanged (H.state host.old) (H.state host.new) }
    ensures cause { HasDiskOrMemoryCause (H.state host.old) (H.state host.new) result }
{
    let pages = pages_of(host)?;
    let mut reader = Reader::new(alloc);
    let number = read_front(alloc, host, pages, &mut reader)?;
    if begins_from(host, number, pages)? {
        return Ok(Opened::Damaged { page: number });
    }
    let frames = reader.finish(alloc)?;
    Ok(Opened::Sound(Log::at(number), frames))
}
