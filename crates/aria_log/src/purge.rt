//! Removes the log's files that nothing needs any more.

ghost use Rattle.std.specs.Prelude.{◌≡◌, ◌≤◌, ◌^◌, ◌∷◌, ◌++◌, [], ℕ, List, IsTrue, is_ok};
ghost use Rattle.aria_host.specs.declared.file_name.FileName.{FileName};
ghost use Rattle.aria_host.specs.Calls.{HasDiskCause, HasDiskOrMemoryCause, HaveNames, Lists};
ghost use Rattle.aria_record.specs.Logged.{Logged};
ghost use Rattle.aria_log.specs.Log.{file_of, IsLog, LogKeeps};
ghost use Rattle.aria_log.specs.Purge.{IsLowest, number_from, Purges};

use crate::log::Log;
use aria_host::{Fault, FileName, Host};
use aria_page::Lsn;
use std::alloc::Global;
use std::cmp::min;

/// Log files are numbered below this.
const FILES_END: u32 = 1 << 24;

// The number of a log file if it isn't below the first, and the end of all other files.
fn number_from(first: u32, end: u32, file: &FileName) -> u32
    ensures { result ≡ number_from first end file.now }
{
    match file {
        FileName::Log(number) if *number >= first => *number,
        _ => end,
    }
}

// The lower one of a number and that of a file.
fn lower(lowest: u32, first: u32, end: u32, file: &FileName) -> u32
    ensures { (names : List FileName) → IsLowest names first end lowest → IsLowest (names ++ file.now ∷ []) first end result }
{
    min(lowest, number_from(first, end, file))
}

// The lowest number, from the first on, of the log files among these names; the end where all of them are behind it.
fn lowest(names: &[FileName], first: u32, end: u32) -> u32
    requires { first ≤ end }
    ensures { IsLowest names.now first end result }
{
    let mut lowest = end;
    for file in names {
        lowest = lower(lowest, first, end, file);
    }
    lowest
}

// Removes the log files among these names that are below the end, the lowest first.
fn remove_files<H: Host>(host: &mut H, names: &[FileName], end: u32) -> Result<(), Fault>
    requires low { end ≤ 2 ^ 24 }
    requires lists { IsTrue H.tells → Lists (H.state host.old).folder names.now }
    requires synced { IsTrue H.tells → HaveNames (H.state host.old) }
    ensures purged { IsTrue H.tells → Purges end (H.state host.old) (H.state host.new) (is_ok result) }
    ensures cause { HasDiskCause (H.state host.old) (H.state host.new) result }
{
    let mut number = lowest(names, 0, end);
    while number < end {
        host.remove(&FileName::Log(number))?;
        number = lowest(names, number + 1, end);
    }
    Ok(())
}

impl Log {
    /// Removes the log's files before that of this place, the lowest first, and no others. After an `Err` some of them may
    /// be gone. The log stays from each base that isn't in one of them.
    pub fn purge<H: Host>(&self, alloc: Global, host: &mut H, below: Lsn) -> Result<(), Fault>
        ensures purged { IsTrue H.tells → Purges below.file (H.state host.old) (H.state host.new) (is_ok result) }
        ensures log { IsTrue H.tells → (base : ℕ) (groups : List Logged) (forced : ℕ) → IsLog self.now (H.state host.old) base groups forced → below.file ≤ file_of base
            → IsLog self.now (H.state host.new) base groups forced × LogKeeps (H.state host.old) (H.state host.new) base groups forced }
        ensures cause { HasDiskOrMemoryCause (H.state host.old) (H.state host.new) result }
    {
        let names = host.names(alloc)?;
        remove_files(host, names.as_slice(), min(below.file, FILES_END))
    }
}
