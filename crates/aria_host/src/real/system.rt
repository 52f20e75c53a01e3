ghost use Rattle.std.specs.Prelude.{◌≡◌, ◌≤◌, List, IsTrue, Bool, length, take, IfOk};
ghost use Rattle.aria_host.specs.System.{Call, Does};
ghost use Rattle.aria_host.specs.System.Call.{Looked, Opened, Made, Removed, Listed, SyncedFolder, Read, Wrote, Cut, SyncedData, SyncedWhole, Told, Took};

use crate::real::os::Handle;
use crate::{FileName, Stream};
use aria_page::{Bytes, List};
use std::alloc::Global;
use std::io;

/// The system, as the adapter calls it: each method is one call, which the system carries out or refuses.
pub trait System {
    /// Whether the clauses on the calls speak.
    ghost tells: { Bool };

    /// The calls so far, the newest first.
    ghost calls: { Self → List Call };

    /// The length of a regular file in bytes, or `None` where it isn't there.
    fn look(&mut self, name: &FileName) -> io::Result<Option<u64>>
        ensures { IsTrue tells → Does result (λ found. Looked name.now found) (calls self.old) (calls self.new) };

    /// Opens a regular file.
    fn open(&mut self, name: &FileName) -> io::Result<Handle>
        ensures call { IsTrue tells → Does result (λ _. Opened name.now) (calls self.old) (calls self.new) }
        ensures name { IfOk result (λ handle. handle.name ≡ name.now) };

    /// Makes an empty file, and opens it.
    fn make(&mut self, name: &FileName) -> io::Result<Handle>
        ensures call { IsTrue tells → Does result (λ _. Made name.now) (calls self.old) (calls self.new) }
        ensures name { IfOk result (λ handle. handle.name ≡ name.now) };

    /// Removes a regular file.
    fn remove(&mut self, name: &FileName) -> io::Result<()>
        ensures { IsTrue tells → Does result (λ _. Removed name.now) (calls self.old) (calls self.new) };

    /// The names of the folder that are UTF-8.
    fn list(&mut self, alloc: Global) -> io::Result<List<Bytes>>
        ensures { IsTrue tells → Does result (λ texts. Listed texts) (calls self.old) (calls self.new) };

    /// Brings the names of the folder to the disk.
    fn sync_folder(&mut self) -> io::Result<()>
        ensures { IsTrue tells → Does result (λ _. SyncedFolder) (calls self.old) (calls self.new) };

    /// Fills the buffer with the bytes from an offset on.
    fn read_at(&mut self, handle: &Handle, offset: u64, into: &mut [u8]) -> io::Result<()>
        ensures { IsTrue tells → Does result (λ _. Read handle.now.name offset into.new) (calls self.old) (calls self.new) };

    /// Writes all the bytes from an offset on.
    fn write_at(&mut self, handle: &Handle, offset: u64, from: &[u8]) -> io::Result<()>
        ensures { IsTrue tells → Does result (λ _. Wrote handle.now.name offset from.now) (calls self.old) (calls self.new) };

    /// Cuts the file to so many bytes.
    fn cut(&mut self, handle: &Handle, bytes: u64) -> io::Result<()>
        ensures { IsTrue tells → Does result (λ _. Cut handle.now.name bytes) (calls self.old) (calls self.new) };

    /// Brings the bytes of the file to the disk.
    fn sync_data(&mut self, handle: &Handle) -> io::Result<()>
        ensures { IsTrue tells → Does result (λ _. SyncedData handle.now.name) (calls self.old) (calls self.new) };

    /// Brings the bytes of the file and what the system keeps of it to the disk.
    fn sync_whole(&mut self, handle: &Handle) -> io::Result<()>
        ensures { IsTrue tells → Does result (λ _. SyncedWhole handle.now.name) (calls self.old) (calls self.new) };

    /// Tells all the bytes.
    fn tell(&mut self, stream: Stream, bytes: &[u8]) -> io::Result<()>
        ensures { IsTrue tells → Does result (λ _. Told stream bytes.now) (calls self.old) (calls self.new) };

    /// Takes bytes of standard input into the front of the buffer, and says how many; 0 is the end of the input.
    fn take(&mut self, into: &mut [u8]) -> io::Result<usize>
        ensures call { IsTrue tells → Does result (λ n. Took (take n into.new)) (calls self.old) (calls self.new) }
        ensures within { IfOk result (λ n. n ≤ length into.new) };
}
