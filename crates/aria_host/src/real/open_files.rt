ghost use Rattle.std.specs.Prelude.{◌≡◌, ◌*◌, ◌/◌, ◌<◌, ℕ, List, length, IsTrue, IfOk, OnOk, MatchResult, All, ◌∷◌};
ghost use Rattle.aria_host.specs.Folder.{IsFileName};
ghost use Rattle.aria_host.specs.Form.{AddsFile, AreFiles};
ghost use Rattle.aria_host.specs.OpenTable.{IsPlace, IsClosed};
ghost use Rattle.aria_host.specs.System.{IsRefused, Does, DoesWith, Opens};
ghost use Rattle.aria_host.specs.System.Call.{Looked, Made, Removed, Listed, SyncedFolder, Read, Wrote, Cut, SyncedData, SyncedWhole, Told};

use crate::real::open_table::OpenTable;
use crate::real::system::System;
use crate::{FileName, Stream};
use aria_page::{Bytes, List, PAGE_BYTES, Page};
use std::alloc::{AllocError, Global};
use std::io;

/// The files of a folder, by the system's calls. Some of them stay open between calls.
///
/// Only the list of the folder's names takes memory: all the rest stands in place.
#[derive(Drop)]
pub(crate) struct OpenFiles<S: System + Drop> {
    system: S,
    table: OpenTable,
}

// Where a page begins in its file.
fn offset_of(page: u32) -> u64
    ensures { result ≡ 8192 * page }
{
    u64::from(page) * PAGE_BYTES as u64
}

// Puts the bytes in the place of all of a page.
#[tactic(auto, unfolding(aria_page::specs::Page::with_bytes))]
fn fill(page: &mut Page, bytes: &[u8])
    requires { length bytes.now ≡ 8192 }
    ensures { page.new ≡ bytes.now }
{
    page.put(0, bytes);
}

// Adds the file of that name, if there is one.
fn add_file(names: &mut List<FileName>, text: &[u8]) -> Result<(), AllocError>
    ensures { OnOk result (AddsFile text.now names.old names.new) }
{
    if let Some(name) = FileName::read(text) {
        names.push(name)?;
    }
    Ok(())
}

// The files of the forms of `FileName` among these.
fn forms(alloc: Global, texts: &[Bytes]) -> Result<List<FileName>, AllocError>
    ensures forms { IfOk result (λ names. All IsFileName names) }
    ensures names { IfOk result (λ names. AreFiles texts.now names) }
{
    let mut names = List::new(alloc);
    for text in texts {
        add_file(&mut names, text.as_slice())?;
    }
    Ok(names)
}

impl<S: System + Drop> OpenFiles<S> {
    pub(crate) fn new(system: S) -> OpenFiles<S>
        ensures { result.system ≡ system }
    {
        OpenFiles {
            system,
            table: OpenTable::new(),
        }
    }

    // Opens the file, unless it is open, and says at which place it is kept.
    fn place(&mut self, name: &FileName) -> io::Result<usize>
        ensures place { IfOk result (λ place. IsPlace name.now place self.new.table.handles) }
        ensures calls { IsTrue S.tells → MatchResult result (λ _. Opens name.now (S.calls self.old.system) (S.calls self.new.system)) (λ _. IsRefused (S.calls self.new.system)) }
    {
        if let Some(place) = self.table.place(name) {
            return Ok(place);
        }
        let handle = self.system.open(name)?;
        Ok(self.table.keep(handle))
    }

    /// The names of the files of the forms of `FileName`, which are on the disk then.
    pub(crate) fn names(&mut self, alloc: Global) -> io::Result<List<FileName>>
        ensures forms { IfOk result (λ names. All IsFileName names) }
        ensures calls { IsTrue S.tells → IfOk result (λ names. (texts : List (List ℕ)) × (S.calls self.new.system ≡ SyncedFolder ∷ Listed texts ∷ S.calls self.old.system) × AreFiles texts names) }
    {
        let texts = self.system.list(alloc)?;
        let names = forms(alloc, texts.as_slice())?;
        self.system.sync_folder()?;
        Ok(names)
    }

    /// The length of the file in bytes, or `None` where it isn't there.
    pub(crate) fn length(&mut self, name: &FileName) -> io::Result<Option<u64>>
        ensures { IsTrue S.tells → Does result (λ found. Looked name.now found) (S.calls self.old.system) (S.calls self.new.system) }
    {
        self.system.look(name)
    }

    pub(crate) fn read_page(
        &mut self,
        name: &FileName,
        page: u32,
        into: &mut Page,
    ) -> io::Result<()>
        ensures { IsTrue S.tells → DoesWith name.now result (λ _. Read name.now (8192 * page) into.new) (S.calls self.old.system) (S.calls self.new.system) }
    {
        let mut bytes = [0; PAGE_BYTES];
        let place = self.place(name)?;
        self.system
            .read_at(self.table.at(place, name), offset_of(page), &mut bytes)?;
        fill(into, &bytes);
        Ok(())
    }

    pub(crate) fn write_page(&mut self, name: &FileName, page: u32, from: &Page) -> io::Result<()>
        ensures { IsTrue S.tells → DoesWith name.now result (λ _. Wrote name.now (8192 * page) from.now) (S.calls self.old.system) (S.calls self.new.system) }
    {
        let place = self.place(name)?;
        self.system
            .write_at(self.table.at(place, name), offset_of(page), from.bytes())
    }

    /// Cuts the file to so many pages.
    pub(crate) fn cut(&mut self, name: &FileName, pages: u32) -> io::Result<()>
        ensures { IsTrue S.tells → DoesWith name.now result (λ _. Cut name.now (8192 * pages)) (S.calls self.old.system) (S.calls self.new.system) }
    {
        let place = self.place(name)?;
        self.system
            .cut(self.table.at(place, name), offset_of(pages))
    }

    /// Makes an empty file, and brings its name to the disk.
    pub(crate) fn create(&mut self, name: &FileName) -> io::Result<()>
        ensures { IsTrue S.tells → MatchResult result (λ _. S.calls self.new.system ≡ SyncedFolder ∷ SyncedWhole name.now ∷ Made name.now ∷ S.calls self.old.system) (λ _. IsRefused (S.calls self.new.system)) }
    {
        let handle = self.system.make(name)?;
        self.system.sync_whole(&handle)?;
        self.table.close(name);
        self.table.keep(handle);
        self.system.sync_folder()
    }

    /// Removes the file, and brings that to the disk.
    pub(crate) fn remove(&mut self, name: &FileName) -> io::Result<()>
        ensures calls { IsTrue S.tells → MatchResult result (λ _. S.calls self.new.system ≡ SyncedFolder ∷ Removed name.now ∷ S.calls self.old.system) (λ _. IsRefused (S.calls self.new.system)) }
        ensures closed { IsClosed name.now self.new.table.handles }
    {
        self.table.close(name);
        self.system.remove(name)?;
        self.system.sync_folder()
    }

    /// Brings the bytes of the file to the disk.
    pub(crate) fn sync(&mut self, name: &FileName) -> io::Result<()>
        ensures { IsTrue S.tells → DoesWith name.now result (λ _. SyncedData name.now) (S.calls self.old.system) (S.calls self.new.system) }
    {
        let place = self.place(name)?;
        self.system.sync_data(self.table.at(place, name))
    }

    pub(crate) fn tell(&mut self, stream: Stream, bytes: &[u8]) -> io::Result<()>
        ensures { IsTrue S.tells → Does result (λ _. Told stream bytes.now) (S.calls self.old.system) (S.calls self.new.system) }
    {
        self.system.tell(stream, bytes)
    }
}
