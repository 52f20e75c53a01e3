ghost use Rattle.std.specs.Prelude.{◌≡◌, ◌⊎◌, ◌+◌, ◌-◌, ◌^◌, ◌≤◌, ◌*◌, ◌/◌, ◌%◌, ◌<◌, ◌==◌, ◌∷◌, ⊤, false, ℕ, List, Option, Some, IsTrue, is_ok, IfOk, IfSome, MatchResult, MatchOption, All};
ghost use Rattle.aria_host.specs.Untold.{untold, not_told};
ghost use Rattle.aria_host.specs.Count.{Rose};
ghost use Rattle.aria_host.specs.Calls.{HasDiskCause, HasDiskOrMemoryCause, HasTellCause};
ghost use Rattle.aria_host.specs.Folder.{IsFileName};
ghost use Rattle.aria_host.specs.Form.{AreFiles};
ghost use Rattle.aria_host.specs.Extent.{IsExtent, IsTooLong, IsFound};
ghost use Rattle.aria_host.specs.System.{IsRefused, Does, DoesWith};
ghost use Rattle.aria_host.specs.System.Call.{Looked, Made, Removed, Listed, SyncedFolder, Read, Wrote, Cut, SyncedData, SyncedWhole, Told};

use crate::real::open_files::OpenFiles;
use crate::real::os::Os;
use crate::real::system::System;
use crate::{Extent, Fault, FileName, Host, MAX_PAGES, Stream};
use aria_page::{List, PAGE_BYTES, Page};
use std::alloc::{AllocError, Global};
use std::io;

/// The current folder, and the standard streams of output. It tells no contents: that the system keeps what `Host`
/// promises is trusted. Links, folders and devices under a file's name are faults.
#[derive(Drop)]
pub struct DirHost<S: System + Drop = Os> {
    files: OpenFiles<S>,
    disk_faults: u64,
    tell_faults: u64,
}

// What a file of that many bytes extends over, if it isn't too long.
fn extent_of(bytes: u64) -> Option<Extent>
    ensures { MatchOption result (IsTooLong bytes) (IsExtent bytes) }
{
    let pages = bytes / PAGE_BYTES as u64;
    if pages > MAX_PAGES {
        return None;
    }
    Some(Extent {
        pages: pages as u32,
        odd: bytes % PAGE_BYTES as u64 != 0,
    })
}

impl DirHost {
    pub fn new(rt: &HostRuntime) -> DirHost
        ensures disk { result.disk_faults ≡ 0 }
        ensures tell { result.tell_faults ≡ 0 }
    {
        DirHost {
            files: OpenFiles::new(Os::new(rt)),
            disk_faults: 0,
            tell_faults: 0,
        }
    }
}

impl<S: System + Drop> DirHost<S> {
    // Counts a fault of the disk.
    fn disk_fault(&mut self) -> Fault
        ensures is { result ≡ Fault.Disk }
        ensures counted { Rose self.old.disk_faults self.new.disk_faults }
        ensures later { self.old.disk_faults ≤ self.new.disk_faults }
        ensures tell { self.new.tell_faults ≡ self.old.tell_faults }
        ensures files { self.new.files ≡ self.old.files }
    {
        self.disk_faults = self.disk_faults.saturating_add(1);
        Fault::Disk
    }

    // What a call answers; a refusal of the system is a fault of the disk.
    fn answer(&mut self, answer: io::Result<()>) -> Result<(), Fault>
        ensures same { is_ok result ≡ is_ok answer }
        ensures cause { HasDiskCause (untold self.old.disk_faults self.old.tell_faults) (untold self.new.disk_faults self.new.tell_faults) result }
        ensures files { self.new.files ≡ self.old.files }
    {
        match answer {
            Ok(()) => Ok(()),
            Err(_) => Err(self.disk_fault()),
        }
    }
}

impl<S: System + Drop> Host for DirHost<S> {
    ghost tells = { false };

    ghost state = { λ host. untold host.disk_faults host.tell_faults };

    ghost may_find = { λ host file found. ⊤ };

    fn names(&mut self, alloc: Global) -> Result<List<FileName>, Fault>
        ensures forms { IfOk result (λ names. All IsFileName names) }
        ensures cause { HasDiskOrMemoryCause (untold self.old.disk_faults self.old.tell_faults) (untold self.new.disk_faults self.new.tell_faults) result }
        ensures calls { IsTrue S.tells → IfOk result (λ names. (texts : List (List ℕ)) × (S.calls self.new.files.system ≡ SyncedFolder ∷ Listed texts ∷ S.calls self.old.files.system) × AreFiles texts names) }
    {
        match self.files.names(alloc) {
            Ok(names) => Ok(names),
            Err(error) => {
                if error.kind() == io::ErrorKind::OutOfMemory {
                    Err(Fault::Memory(AllocError))
                } else {
                    Err(self.disk_fault())
                }
            }
        }
    }

    fn look(&mut self, file: &FileName) -> Result<Option<Extent>, Fault>
        ensures pages { IfOk result (λ found. IfSome found (λ extent. extent.pages ≤ 2 ^ 31)) }
        ensures cause { HasDiskCause (untold self.old.disk_faults self.old.tell_faults) (untold self.new.disk_faults self.new.tell_faults) result }
        ensures calls { IsTrue S.tells → MatchResult result
            (λ found. (bytes : Option ℕ) × (S.calls self.new.files.system ≡ Looked file.now bytes ∷ S.calls self.old.files.system) × IsFound bytes found)
            (λ _. IsRefused (S.calls self.new.files.system) ⊎ ((bytes : ℕ) × (S.calls self.new.files.system ≡ Looked file.now (Some bytes) ∷ S.calls self.old.files.system) × IsTooLong bytes)) }
    {
        match self.files.length(file) {
            Ok(Some(bytes)) => match extent_of(bytes) {
                Some(extent) => Ok(Some(extent)),
                None => Err(self.disk_fault()),
            },
            Ok(None) => Ok(None),
            Err(_) => Err(self.disk_fault()),
        }
    }

    fn read_page(&mut self, file: &FileName, page: u32, into: &mut Page) -> Result<(), Fault>
        ensures cause { HasDiskCause (untold self.old.disk_faults self.old.tell_faults) (untold self.new.disk_faults self.new.tell_faults) result }
        ensures calls { IsTrue S.tells → DoesWith file.now result (λ _. Read file.now (8192 * page) into.new) (S.calls self.old.files.system) (S.calls self.new.files.system) }
    {
        let answer = self.files.read_page(file, page, into);
        self.answer(answer)
    }

    fn write_page(&mut self, file: &FileName, page: u32, from: &Page) -> Result<(), Fault>
        ensures cause { HasDiskCause (untold self.old.disk_faults self.old.tell_faults) (untold self.new.disk_faults self.new.tell_faults) result }
        ensures calls { IsTrue S.tells → DoesWith file.now result (λ _. Wrote file.now (8192 * page) from.now) (S.calls self.old.files.system) (S.calls self.new.files.system) }
    {
        let answer = self.files.write_page(file, page, from);
        self.answer(answer)
    }

    fn cut(&mut self, file: &FileName, pages: u32) -> Result<(), Fault>
        ensures cause { HasDiskCause (untold self.old.disk_faults self.old.tell_faults) (untold self.new.disk_faults self.new.tell_faults) result }
        ensures calls { IsTrue S.tells → DoesWith file.now result (λ _. Cut file.now (8192 * pages)) (S.calls self.old.files.system) (S.calls self.new.files.system) }
    {
        let answer = self.files.cut(file, pages);
        self.answer(answer)
    }

    fn create(&mut self, file: &FileName) -> Result<(), Fault>
        ensures cause { HasDiskCause (untold self.old.disk_faults self.old.tell_faults) (untold self.new.disk_faults self.new.tell_faults) result }
        ensures calls { IsTrue S.tells → MatchResult result (λ _. S.calls self.new.files.system ≡ SyncedFolder ∷ SyncedWhole file.now ∷ Made file.now ∷ S.calls self.old.files.system) (λ _. IsRefused (S.calls self.new.files.system)) }
    {
        let answer = self.files.create(file);
        self.answer(answer)
    }

    fn remove(&mut self, file: &FileName) -> Result<(), Fault>
        ensures cause { HasDiskCause (untold self.old.disk_faults self.old.tell_faults) (untold self.new.disk_faults self.new.tell_faults) result }
        ensures calls { IsTrue S.tells → MatchResult result (λ _. S.calls self.new.files.system ≡ SyncedFolder ∷ Removed file.now ∷ S.calls self.old.files.system) (λ _. IsRefused (S.calls self.new.files.system)) }
    {
        let answer = self.files.remove(file);
        self.answer(answer)
    }

    fn sync(&mut self, file: &FileName) -> Result<(), Fault>
        ensures cause { HasDiskCause (untold self.old.disk_faults self.old.tell_faults) (untold self.new.disk_faults self.new.tell_faults) result }
        ensures calls { IsTrue S.tells → DoesWith file.now result (λ _. SyncedData file.now) (S.calls self.old.files.system) (S.calls self.new.files.system) }
    {
        let answer = self.files.sync(file);
        self.answer(answer)
    }

    fn tell(&mut self, stream: Stream, bytes: &[u8]) -> Result<(), Fault>
        ensures cause { HasTellCause (untold self.old.disk_faults self.old.tell_faults) (untold self.new.disk_faults self.new.tell_faults) result }
        ensures calls { IsTrue S.tells → Does result (λ _. Told stream bytes.now) (S.calls self.old.files.system) (S.calls self.new.files.system) }
    {
        if self.files.tell(stream, bytes).is_err() {
            self.tell_faults = self.tell_faults.saturating_add(1);
            return Err(Fault::Tell);
        }
        Ok(())
    }

    ghost reads_now = { λ host told. not_told told };

    ghost counts_now = { λ host t c told le leaves. not_told told };

    ghost only_now = { λ host c b told left. not_told told };
}
