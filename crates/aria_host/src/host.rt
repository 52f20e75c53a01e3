ghost use Rattle.std.specs.Prelude.{◌≡◌, ◌≤◌, ◌<◌, ◌^◌, ℕ, List, Bool, Option, IsTrue, IsSome, IsNone, is_ok, IfOk, IfSome, OnOk, All};
ghost use Rattle.aria_host.specs.Folder.{Folder, IsFileName, page_count};
ghost use Rattle.aria_host.specs.State.{State};
ghost use Rattle.aria_host.specs.Calls.{Lists, extent_of, IsPage, Unchanged, HaveNames, Narrows, Writes, Cuts, Creates, Removes, Syncs, Tells, HasTellCause, HasDiskCause, HasDiskOrMemoryCause};

use crate::{Fault, FileName};
use aria_page::{List, Page};
use std::alloc::Global;

/// Where text is told.
#[derive(Clone, Copy, Debug)]
pub enum Stream {
    /// Standard output.
    Out,
    /// Standard error.
    Err,
}

/// The most pages that a file may have.
pub const MAX_PAGES: u64 = 1 << 31;

/// What a look at a file finds.
#[derive(Clone, Copy, Debug)]
pub struct Extent {
    /// The number of whole pages, at most `MAX_PAGES`.
    pub pages: u32,
    /// The length is no multiple of a page's.
    pub odd: bool,
}

/// A folder of files, and two streams of output.
pub trait Host {
    /// Whether the clauses on what the folder holds and what was told speak.
    ghost tells: { Bool };

    /// The folder, what was told, and what a crash may leave.
    ghost state: { Self → State };

    ghost use Rattle.aria_host.specs.declared.file_name.FileName.{FileName};
    ghost use Rattle.aria_host.specs.declared.host.Extent.{Extent};

    /// What a look at a file may find, also where the folder isn't told: there nothing else is known of a file's length.
    ghost may_find: { Self → FileName → Option Extent → Type 0 };

    /// The names of all files of the folder that are of the forms of `FileName`. It brings them to the disk: after it,
    /// a crash leaves the files of these names, and no others.
    fn names(&mut self, alloc: Global) -> Result<List<FileName>, Fault>
        ensures names { IsTrue tells → IfOk result (λ names. Lists (state self.old).folder names) }
        ensures forms { IfOk result (λ names. All IsFileName names) }
        ensures synced { IsTrue tells → OnOk result (HaveNames (state self.new)) }
        ensures same { IsTrue tells → Narrows (state self.old) (state self.new) }
        ensures cause { HasDiskOrMemoryCause (state self.old) (state self.new) result };

    /// How long the file is, or `None` where it isn't there.
    fn look(&mut self, file: &FileName) -> Result<Option<Extent>, Fault>
        requires { IsFileName file.now }
        ensures found { IsTrue tells → IfOk result (λ found. found ≡ extent_of ((state self.old).folder file.now)) }
        ensures pages { IfOk result (λ found. IfSome found (λ extent. extent.pages ≤ 2 ^ 31)) }
        ensures may { IfOk result (λ found. may_find self.old file.now found) }
        ensures same { IsTrue tells → Unchanged (state self.old) (state self.new) }
        ensures cause { HasDiskCause (state self.old) (state self.new) result };

    /// Reads a page. After an `Err` the buffer holds any page.
    fn read_page(&mut self, file: &FileName, page: u32, into: &mut Page) -> Result<(), Fault>
        requires name { IsFileName file.now }
        requires there { IsTrue tells → page < page_count file.now (state self.old).folder }
        ensures page { IsTrue tells → OnOk result (IsPage file.now page (state self.old).folder into.new) }
        ensures same { IsTrue tells → Unchanged (state self.old) (state self.new) }
        ensures cause { HasDiskCause (state self.old) (state self.new) result };

    /// Writes a page. Pages between the file's end and a page that is written past it read as zeros.
    fn write_page(&mut self, file: &FileName, page: u32, from: &Page) -> Result<(), Fault>
        requires name { IsFileName file.now }
        requires there { IsTrue tells → IsSome ((state self.old).folder file.now) }
        requires page { page < 2 ^ 31 }
        ensures written { IsTrue tells → Writes file.now page from.now (state self.old) (state self.new) (is_ok result) }
        ensures cause { HasDiskCause (state self.old) (state self.new) result };

    /// Cuts the file to so many pages.
    fn cut(&mut self, file: &FileName, pages: u32) -> Result<(), Fault>
        requires name { IsFileName file.now }
        requires there { IsTrue tells → IsSome ((state self.old).folder file.now) }
        requires pages { IsTrue tells → pages ≤ page_count file.now (state self.old).folder }
        ensures cut { IsTrue tells → Cuts file.now pages (state self.old) (state self.new) (is_ok result) }
        ensures cause { HasDiskCause (state self.old) (state self.new) result };

    /// Makes an empty file.
    fn create(&mut self, file: &FileName) -> Result<(), Fault>
        requires name { IsFileName file.now }
        requires absent { IsTrue tells → IsNone ((state self.old).folder file.now) }
        ensures created { IsTrue tells → Creates file.now (state self.old) (state self.new) (is_ok result) }
        ensures cause { HasDiskCause (state self.old) (state self.new) result };

    /// Removes the file.
    fn remove(&mut self, file: &FileName) -> Result<(), Fault>
        requires name { IsFileName file.now }
        requires there { IsTrue tells → IsSome ((state self.old).folder file.now) }
        ensures removed { IsTrue tells → Removes file.now (state self.old) (state self.new) (is_ok result) }
        ensures cause { HasDiskCause (state self.old) (state self.new) result };

    /// Brings the file to the disk: after it, a crash that leaves the file's name leaves what a read gives. Its name is
    /// on the disk once `create` or `names` has answered Ok.
    fn sync(&mut self, file: &FileName) -> Result<(), Fault>
        requires name { IsFileName file.now }
        requires there { IsTrue tells → IsSome ((state self.old).folder file.now) }
        ensures synced { IsTrue tells → Syncs file.now (state self.old) (state self.new) (is_ok result) }
        ensures cause { HasDiskCause (state self.old) (state self.new) result };

    /// Tells all the bytes, or a part from their front where it fails.
    fn tell(&mut self, stream: Stream, bytes: &[u8]) -> Result<(), Fault>
        ensures told { IsTrue tells → Tells stream bytes.now (state self.old) (state self.new) (is_ok result) }
        ensures cause { HasTellCause (state self.old) (state self.new) result };

    /// A crash now may leave the folder as it reads.
    ghost reads_now: { (host : Self) → IsTrue tells → (state host).may_leave (state host).folder };

    /// This moment is one of those since an earlier one.
    ghost counts_now: { (host : Self) (t : ℕ) (c : Folder) → IsTrue tells → t ≤ (state host).moment → (state host).may_leave c → (state host).since t c (state host).out };

    /// Since this moment there is no other.
    ghost only_now: { (host : Self) (c : Folder) (b : List ℕ) → IsTrue tells → (state host).since (state host).moment c b → (state host).may_leave c × (b ≡ (state host).out) };
}
