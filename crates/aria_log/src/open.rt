//! Opens the log of a folder.

ghost use Rattle.std.specs.Prelude.{◌≡◌, ◌⊎◌, ◌↔◌, ◌≤◌, ◌<◌, ◌+◌, ◌*◌, ◌^◌, [], ℕ, IsTrue, IsOk, IsSome, OnOk, IfOk};
ghost use Rattle.aria_page.specs.Lsn.{IsLsn};
ghost use Rattle.aria_host.specs.Folder.{Folder};
ghost use Rattle.aria_host.specs.Calls.{HasDiskCause, HaveNames, Narrows};
ghost use Rattle.aria_log.specs.Pieces.{log_files};
ghost use Rattle.aria_log.specs.Log.{AreAtRest, HasNoLog, IsOpened};
ghost use Rattle.aria_log.specs.Finding.{Answers, Fails, HasFindCause, IsDamage, IsLast, IsWhole, Opens, TellsMissing, means_none};

use crate::find::Found;
use crate::log::Log;
use crate::place::start_of;
use aria_host::{Fault, FileName, Host};
use aria_page::Lsn;
use std::alloc::Global;

// Brings these files of the log to the disk, the lowest first.
fn sync_files<H: Host>(host: &mut H, low: u32, last: u32) -> Result<(), Fault>
    requires last { last < 2 ^ 24 }
    requires there { IsTrue H.tells → (f : ℕ) → low ≤ f → f ≤ last → IsSome (log_files (H.state host.old).folder f) }
    requires names { IsTrue H.tells → HaveNames (H.state host.old) }
    ensures rest { IsTrue H.tells → OnOk result ((c : Folder) → (H.state host.new).may_leave c → (f : ℕ) → low ≤ f → f ≤ last → log_files c f ≡ log_files (H.state host.old).folder f) }
    ensures same { IsTrue H.tells → Narrows (H.state host.old) (H.state host.new) }
    ensures cause { HasDiskCause (H.state host.old) (H.state host.new) result }
{
    for file in low..last + 1 {
        host.sync(&FileName::Log(file))?;
    }
    Ok(())
}

// Brings the files of the log from the base's on to the disk, of which this is the last. There are none where the base's
// own isn't there.
fn settle<H: Host>(host: &mut H, low: u32, last: u32) -> Result<(), Fault>
    requires low { low < 2 ^ 24 }
    requires within { last < 2 ^ 24 }
    requires last { IsTrue H.tells → IsLast (log_files (H.state host.old).folder) low last }
    requires stand { IsTrue H.tells → (f g : ℕ) → low ≤ f → f < g → g < 2 ^ 24 → IsSome (log_files (H.state host.old).folder g) → IsSome (log_files (H.state host.old).folder f) }
    requires names { IsTrue H.tells → HaveNames (H.state host.old) }
    ensures rest { IsTrue H.tells → OnOk result (AreAtRest (H.state host.new) low) }
    ensures same { IsTrue H.tells → Narrows (H.state host.old) (H.state host.new) }
    ensures cause { HasDiskCause (H.state host.old) (H.state host.new) result }
{
    match host.look(&FileName::Log(low))? {
        None => Ok(()),
        Some(_) => sync_files(host, low, last),
    }
}

// Opens the log from this log sequence number on.
fn open_in<H: Host>(alloc: Global, host: &mut H, from: Lsn) -> Result<Log, Fault>
    requires { IsLsn from }
    ensures opened { IsTrue H.tells → Fails result ⊎ Answers from (log_files (H.state host.old).folder) (Opens from (H.state host.new)) (IsDamage from (log_files (H.state host.old).folder)) result }
    ensures same { IsTrue H.tells → Narrows (H.state host.old) (H.state host.new) }
    ensures cause { HasFindCause (H.state host.old) (H.state host.new) result }
{
    let Found { log, damage } = Log::find(alloc, host, from)?;
    if let Some(damage) = damage {
        return Err(Fault::LogDamaged {
            file: damage.file,
            page: damage.page,
        });
    }
    settle(host, start_of(from).file, log.last)?;
    Ok(log)
}

impl Log {
    /// Opens the log from this log sequence number on; file 0 with offset 0 stands for the log's first byte. The log is to
    /// be started before anything is appended. No file is changed, and those that are read are on the disk.
    ///
    /// `FileMissing` where a file of the log is missing, with the lowest one, and `LogDamaged` with a page at which the log
    /// is damaged. docs/FORMATS.md, "The log's pages", says what is missing and what is damage.
    pub fn open<H: Host>(alloc: Global, host: &mut H, from: Lsn) -> Result<Log, Fault>
        requires { IsLsn from }
        // Unless the disk or memory fails it answers what the folder's files say, and nothing else.
        ensures opened { IsTrue H.tells → Fails result ⊎ Answers from (log_files (H.state host.old).folder) (Opens from (H.state host.new)) (IsDamage from (log_files (H.state host.old).folder)) result }
        ensures missing { IsTrue H.tells → Fails result ⊎ TellsMissing from (log_files (H.state host.old).folder) result }
        ensures whole { IsTrue H.tells → Fails result ⊎ (IsOk result ↔ IsWhole from (log_files (H.state host.old).folder)) }
        // Of a folder without a log file it is the log that `fresh` gives.
        ensures fresh { IsTrue H.tells → IsTrue (means_none from) → HasNoLog (H.state host.old) → IfOk result (λ log. IsOpened log (H.state host.new) (8176 * 1024) [] log.last) }
        ensures same { IsTrue H.tells → Narrows (H.state host.old) (H.state host.new) }
        ensures cause { HasFindCause (H.state host.old) (H.state host.new) result }
    {
        open_in(alloc, host, from)
    }
}
