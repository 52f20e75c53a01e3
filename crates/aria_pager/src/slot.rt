//! Open tables: the slots that stand for them, and how many pages their files have.

ghost use Rattle.std.specs.Prelude.{◌≡◌, ◌+◌, ◌<◌, ◌^◌, max, true};
ghost use Rattle.aria_recovery.specs.Tables.{file};
ghost use Rattle.aria_pager.specs.Pager.{pages_in, with_pages};

use aria_host::FileName;
use aria_page::{Name, Part};

/// How many slots there may be.
pub(crate) const MAX_SLOTS: usize = u32::MAX as usize;

/// How many pages a table's file has.
#[derive(Clone, Copy, Debug)]
pub(crate) struct FilePages {
    /// Those that the file has as it reads.
    pub(crate) written: u32,
    /// Those that the table has there, the ones that aren't written yet too.
    pub(crate) pages: u32,
}

impl FilePages {
    /// A file whose pages are all written.
    pub(crate) fn of(pages: u32) -> FilePages
        ensures { result ≡ record { written = pages; pages = pages } }
    {
        FilePages {
            written: pages,
            pages,
        }
    }

    // A page was written.
    fn with_written(self, page: u32) -> FilePages
        requires { page < 2 ^ 31 }
        ensures { result ≡ record { written = max self.written (page + 1); pages = self.pages } }
    {
        FilePages {
            written: self.written.max(page + 1),
            pages: self.pages,
        }
    }

    // A page was edited.
    fn with_edited(self, page: u32) -> FilePages
        requires { page < 2 ^ 31 }
        ensures { result ≡ record { written = self.written; pages = max self.pages (page + 1) } }
    {
        FilePages {
            written: self.written,
            pages: self.pages.max(page + 1),
        }
    }
}

/// A slot: the table that it stands for.
#[derive(Clone, Copy, Debug)]
pub(crate) struct Slot {
    pub(crate) name: Name,
    /// The table wasn't dropped since it got the slot.
    pub(crate) used: bool,
    pub(crate) keys: FilePages,
    pub(crate) rows: FilePages,
}

/// The file of a part of a table.
pub(crate) fn file_of(name: &Name, part: Part) -> FileName
    ensures { result ≡ file name.now part }
{
    match part {
        Part::Keys => FileName::Keys(*name),
        Part::Rows => FileName::Rows(*name),
    }
}

impl Slot {
    pub(crate) fn file(&self, part: Part) -> FileName
        ensures { result ≡ file self.now.name part }
    {
        file_of(&self.name, part)
    }

    pub(crate) fn pages(&self, part: Part) -> FilePages
        ensures { result ≡ pages_in self.now part }
    {
        match part {
            Part::Keys => self.keys,
            Part::Rows => self.rows,
        }
    }

    // The slot with these numbers of pages of a file.
    fn with_pages(&self, part: Part, pages: FilePages) -> Slot
        ensures { result ≡ with_pages part pages self.now }
    {
        match part {
            Part::Keys => Slot {
                name: self.name,
                used: self.used,
                keys: pages,
                rows: self.rows,
            },
            Part::Rows => Slot {
                name: self.name,
                used: self.used,
                keys: self.keys,
                rows: pages,
            },
        }
    }

    /// The slot after a page was written.
    pub(crate) fn with_written(&self, part: Part, page: u32) -> Slot
        requires { page < 2 ^ 31 }
        ensures { result ≡ with_pages part (record { written = max (pages_in self.now part).written (page + 1); pages = (pages_in self.now part).pages }) self.now }
    {
        self.with_pages(part, self.pages(part).with_written(page))
    }

    /// The slot after a page was edited.
    pub(crate) fn with_edited(&self, part: Part, page: u32) -> Slot
        requires { page < 2 ^ 31 }
        ensures { result ≡ with_pages part (record { written = (pages_in self.now part).written; pages = max (pages_in self.now part).pages (page + 1) }) self.now }
    {
        self.with_pages(part, self.pages(part).with_edited(page))
    }
}
