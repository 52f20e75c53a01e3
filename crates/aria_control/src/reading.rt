//! Reads the control file.

ghost use Rattle.std.specs.Prelude.{◌≡◌, ◌⊎◌, ◌≤◌, ◌↔◌, ℕ, Option, Result, Ok, not, List, IsTrue, IfOk};
ghost use Rattle.std.specs.List.{list_any};
ghost use Rattle.aria_page.specs.Page.{zero_page};
ghost use Rattle.aria_host.specs.declared.fault.Fault.TheVariants.{NotOurs};
ghost use Rattle.aria_host.specs.Folder.{page_count};
ghost use Rattle.aria_host.specs.Calls.{HasDiskCause, Narrows, Unchanged};
ghost use Rattle.aria_control.specs.declared.found.Found.TheVariants.{Kept};
ghost use Rattle.aria_control.specs.Found.{control_file, is_control, whole_pages, HasPages, BeginsWith, IsFirst, OnPage, OnBlank, Answers, Fails, FitsLength, HasReadCause, IsFoundStorable};

use crate::control::{Control, has_magic, named_by};
use crate::found::Found;
use aria_host::{Extent, Fault, FileName, Host};
use aria_page::{Page, same_bytes};
use std::alloc::Global;

// How many pages a file has: none where it is absent, and `None` where its length is no multiple of a page's.
fn whole_pages(looked: Option<Extent>) -> Option<u32>
    ensures { result ≡ whole_pages looked }
{
    match looked {
        None => Some(0),
        Some(extent) if extent.odd => None,
        Some(extent) => Some(extent.pages),
    }
}

// The fault of a control file that isn't of this program's making.
fn not_ours() -> Fault
    ensures { result ≡ NotOurs control_file }
{
    Fault::NotOurs {
        file: FileName::Control,
    }
}

fn is_zero(page: &Page) -> bool
    ensures { IsTrue result ↔ (page.now ≡ zero_page) }
{
    same_bytes(page.bytes(), Page::zero().bytes())
}

// The first page of a file of so many pages, or `None` where that is its one page and zeros.
fn unless_blank(pages: u32, page: &Page) -> Option<Page>
    requires { 1 ≤ pages }
    ensures { (content : Option (List (List ℕ))) → HasPages pages content → BeginsWith page.now content → IsFirst result content }
{
    if pages == 1 && is_zero(page) {
        return None;
    }
    Some(*page)
}

// The first page of the control file, which has so many, or `None` where it is blank.
fn first_page<H: Host>(host: &mut H, pages: u32) -> Result<Option<Page>, Fault>
    requires { IsTrue H.tells → page_count control_file (H.state host.old).folder ≡ pages }
    ensures page { IsTrue H.tells → IfOk result (λ page. IsFirst page ((H.state host.old).folder control_file)) }
    ensures same { IsTrue H.tells → Unchanged (H.state host.old) (H.state host.new) }
    ensures cause { HasDiskCause (H.state host.old) (H.state host.new) result }
{
    if pages == 0 {
        return Ok(None);
    }
    let mut page = Page::zero();
    host.read_page(&FileName::Control, 0, &mut page)?;
    Ok(unless_blank(pages, &page))
}

fn is_control(file: &FileName) -> bool
    ensures { result ≡ is_control file.now }
{
    matches!(file, FileName::Control)
}

// Whether a file other than the control file is among these.
fn has_others(names: &[FileName]) -> bool
    ensures { result ≡ list_any (λ file. not (is_control file)) names.now }
{
    names.iter().any(|file| !is_control(file))
}

// What a folder with a blank control file is: fresh, unless another file of the program's is there.
fn on_blank<H: Host>(alloc: Global, host: &mut H) -> Result<Found, Fault>
    ensures found { IsTrue H.tells → Fails result ⊎ OnBlank result (H.state host.old).folder }
    ensures same { IsTrue H.tells → Narrows (H.state host.old) (H.state host.new) }
    ensures cause { HasReadCause (H.state host.old) (H.state host.new) result }
    ensures storable { IfOk result IsFoundStorable }
{
    let names = host.names(alloc)?;
    if has_others(names.as_slice()) {
        return Err(Fault::FileMissing {
            file: FileName::Control,
        });
    }
    Ok(Found::Fresh)
}

// What the first page of a control file that isn't blank says.
fn on_page(page: &Page) -> Result<Found, Fault>
    ensures found { OnPage result page.now }
    ensures storable { IfOk result IsFoundStorable }
{
    if !has_magic(page) {
        return Err(not_ours());
    }
    if !page.sums() {
        return Err(Fault::ControlDamaged);
    }
    Ok(Found::Kept(named_by(page)))
}

/// What the folder's control file is. Nothing is changed; behind a list of the folder's names a crash may leave less.
///
/// `FileMissing` where it is absent, empty or one page of zeros beside another file of the program's: a control file was
/// here, and without it nobody knows where redo starts. `NotOurs` where its length is no multiple of a page's, or its page
/// has another magic. `ControlDamaged` where the magic is there and the checksum doesn't fit. docs/FORMATS.md, "The control
/// file", has them in their order.
pub fn read<H: Host>(alloc: Global, host: &mut H) -> Result<Found, Fault>
    // Unless the disk or memory fails it answers what the folder says, and no other answer fits.
    ensures found { IsTrue H.tells → Fails result ⊎ Answers result (H.state host.old).folder }
    ensures only { IsTrue H.tells → (other : Result Found Fault) → Answers other (H.state host.old).folder → Fails result ⊎ (other ≡ result) }

    // A length that is no multiple of a page's, as the host's look found it, is answered by NotOurs.
    ensures length { Fails result ⊎ ((looked : Option Extent) × H.may_find host.old control_file looked × FitsLength looked result) }
    ensures storable { IfOk result IsFoundStorable }
    ensures same { IsTrue H.tells → Narrows (H.state host.old) (H.state host.new) }
    ensures cause { HasReadCause (H.state host.old) (H.state host.new) result }
{
    let looked = host.look(&FileName::Control)?;
    let pages = whole_pages(looked).ok_or(not_ours())?;
    match first_page(host, pages)? {
        None => on_blank(alloc, host),
        Some(page) => on_page(&page),
    }
}
