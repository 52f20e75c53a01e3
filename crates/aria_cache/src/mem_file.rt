ghost use Rattle.std.specs.Prelude.{◌≡◌, ◌==◌, ◌+◌, ◌<◌, ◌^◌, ℕ, nat_eq, if◌then◌else◌, is_some, Some, None, All, OnOk, OnErr};
ghost use Rattle.std.specs.Option.{option_map};
ghost use Rattle.std.specs.HashMap.{get};
ghost use Rattle.aria_page.specs.Change.{edit_of, edits_of};
ghost use Rattle.aria_page.specs.Edit.{IsWithin, all_edited};
ghost use Rattle.aria_page.specs.Page.{page_body};
ghost use Rattle.aria_cache.specs.MemFile.{kept_body, blank_body, file_body, EditsFile, SameFile};

use aria_page::{BODY_AT, Change, Page, PageKind, Part, apply_all};
use std::alloc::{AllocError, Global};
use std::collections::HashMap;

/// Of a data file every page of a number that this divides is a bitmap page.
const MAP_EVERY: u32 = 21_809;

/// A file in memory: how many pages it has, and those that were edited.
#[derive(Drop)]
pub struct MemFile {
    /// The number of pages that was set, before any edit.
    pub(crate) set: u32,
    pub(crate) count: u32,
    pub(crate) pages: HashMap<u32, Box<Page>>,
}

// A page that was never edited.
#[tactic(auto, using(crate::proofs::Blank::bitmap_put))]
fn blank(part: Part, set: u32, number: u32) -> Page
    ensures { page_body result ≡ blank_body part set number }
{
    let mut page = Page::zero();
    if part == Part::Rows && number < set && number % MAP_EVERY == 0 {
        page.put(BODY_AT, &[PageKind::Bitmap.to_byte()]);
    }
    page
}

impl MemFile {
    /// A file of so many pages.
    pub(crate) fn new(alloc: Global, pages: u32) -> MemFile
        ensures set { result.set ≡ pages }
        ensures count { result.count ≡ pages }
        ensures none { (n : ℕ) → kept_body result n ≡ None }
    {
        MemFile {
            set: pages,
            count: pages,
            pages: HashMap::new(alloc),
        }
    }

    pub(crate) fn page(&self, part: Part, number: u32) -> Page
        ensures { page_body result ≡ file_body part (Some self.now) number }
    {
        match self.pages.get(&number) {
            Some(page) => **page,
            None => blank(part, self.set, number),
        }
    }

    // Edits the page if it was edited before.
    fn edit_kept(&mut self, number: u32, edits: &[Change<'_>]) -> bool
        requires { All (λ e. IsWithin (edit_of e)) edits.now }
        ensures there { result ≡ is_some (kept_body self.old number) }
        ensures set { self.new.set ≡ self.old.set }
        ensures count { self.new.count ≡ self.old.count }
        ensures pages { (q : ℕ) → kept_body self.new q ≡ (if number == q then option_map (all_edited (edits_of edits.now)) (kept_body self.old number) else kept_body self.old q) }
    {
        match self.pages.get_mut(&number) {
            Some(page) => {
                apply_all(edits, page);
                true
            }
            None => false,
        }
    }

    // Keeps a page.
    fn keep(&mut self, alloc: Global, number: u32, page: Page) -> Result<(), AllocError>
        ensures set { self.new.set ≡ self.old.set }
        ensures count { self.new.count ≡ self.old.count }
        ensures ok { OnOk result ((q : ℕ) → kept_body self.new q ≡ (if number == q then Some (page_body page) else kept_body self.old q)) }
        ensures err { OnErr result ((q : ℕ) → kept_body self.new q ≡ kept_body self.old q) }
    {
        self.pages.insert(number, Box::new(alloc, page)?)?;
        Ok(())
    }

    /// Edits a page.
    pub(crate) fn edit(
        &mut self,
        alloc: Global,
        part: Part,
        number: u32,
        edits: &[Change<'_>],
    ) -> Result<(), AllocError>
        requires low { number < 2 ^ 31 }
        requires within { All (λ e. IsWithin (edit_of e)) edits.now }
        ensures ok { OnOk result (EditsFile part number (edits_of edits.now) self.old self.new) }
        ensures err { OnErr result (SameFile self.old self.new) }
    {
        if !self.edit_kept(number, edits) {
            let mut page = blank(part, self.set, number);
            apply_all(edits, &mut page);
            self.keep(alloc, number, page)?;
        }
        self.count = self.count.max(number + 1);
        Ok(())
    }
}
