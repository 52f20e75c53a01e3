//! The files of tables are settled, before groups are made again.

ghost use Rattle.std.specs.Prelude.{◌≡◌, ℕ, List as Seq, IsTrue, None, Some, true, false, IfOk, OnOk, length};
ghost use Rattle.aria_page.specs.declared.place.Part.{Part as AnyPart};
ghost use Rattle.aria_page.specs.declared.place.Part.TheVariants.{Keys, Rows};
ghost use Rattle.aria_host.specs.declared.file_name.FileName.{FileName as AnyFile};
ghost use Rattle.aria_host.specs.Calls.{HasDiskCause};
ghost use Rattle.aria_host.specs.Folder.{Folder, is_log, same_file};
ghost use Rattle.aria_host.specs.Moments.{SameBut, Moments};
ghost use Rattle.aria_record.specs.Logged.{Logged};
ghost use Rattle.aria_log.specs.declared.log.Log.{Log as LogValue};
ghost use Rattle.aria_log.specs.Log.{place};
ghost use Rattle.aria_recovery.specs.Redo.{number_at};
ghost use Rattle.aria_recovery.specs.Tables.{Agrees, Maker, life_of, is_from, file};
ghost use Rattle.aria_page.specs.declared.lsn.Lsn.{Lsn as Number};
ghost use Rattle.aria_recovery.specs.Analysed.{Has};
ghost use Rattle.aria_pager.specs.Entered.{AreListed};
ghost use Rattle.aria_pager.specs.Found.{HasCause, IsWalkFault};
ghost use Rattle.aria_pager.specs.Turns.{is_aside};
ghost use Rattle.aria_pager.specs.Settled.{IsFound, IsSettled};
ghost use Rattle.aria_pager.specs.Prepared.{AreAllListed, may_change, KeepsTables, HasTables, HasFiles, Prepares, AreFirst};

use crate::settle_names::{remove_new_files, settle_names};
use aria_host::{Fault, FileName, Host};
use aria_log::Log;
use aria_page::{Lsn, Name, Page, Part};
use aria_recovery::Analysis;
use std::alloc::Global;

// Starts the log of a folder that was found.
fn start_log<H: Host>(host: &mut H, log: Log) -> Result<Log, Fault>
    requires found { IsTrue H.tells → (base : ℕ) × (groups : Seq Logged) × IsFound log (H.state host.old) base groups }
    ensures tables { IsTrue H.tells → (base : ℕ) (groups : Seq Logged) → IsFound log (H.state host.old) base groups → IfOk result (λ log'. HasTables log' (H.state host.new) base (H.state host.old).folder groups) }
    ensures files { IsTrue H.tells → (base : ℕ) (groups : Seq Logged) → IsFound log (H.state host.old) base groups → HasFiles (H.state host.new) }
    ensures keeps { IsTrue H.tells → (base : ℕ) (groups : Seq Logged) → IsFound log (H.state host.old) base groups → Moments (may_change groups) (H.state host.old) (H.state host.new) (KeepsTables base groups (H.state host.old).folder) }
    ensures agrees { IsTrue H.tells → (base : ℕ) (groups : Seq Logged) → IsFound log (H.state host.old) base groups → Agrees groups (length groups) (H.state host.old).folder (H.state host.new).folder }
    ensures others { IsTrue H.tells → SameBut is_log (H.state host.old).folder (H.state host.new).folder }
    ensures place { IfOk result (λ log'. place log' ≡ place log) }
    ensures cause { HasDiskCause (H.state host.old) (H.state host.new) result }
{
    let _file = FileName::Control;
    let mut log = log;
    log.start(host)?;
    Ok(log)
}

/// Starts the log of a folder that was found, and settles its tables' files: those of a table that the groups dropped last are
/// removed, and a file that is missing or older than the group that made its table is made anew. What a repair has left is
/// removed.
pub(crate) fn prepare<H: Host>(
    alloc: Global,
    host: &mut H,
    log: Log,
    files: &[FileName],
    analysis: &Analysis,
) -> Result<Log, Fault>
    requires found { IsTrue H.tells → (checkpoint : Number) × (base : ℕ) × (groups : Seq Logged) × IsFound log (H.state host.old) base groups × Has checkpoint analysis.now groups × AreAllListed files.now (H.state host.old).folder }
    ensures settled { IsTrue H.tells → (checkpoint : Number) (base : ℕ) (groups : Seq Logged) → IsFound log (H.state host.old) base groups → Has checkpoint analysis.now groups → AreAllListed files.now (H.state host.old).folder
        → IfOk result (λ log'. IsSettled log' (H.state host.new) base (H.state host.old).folder groups × AreListed files.now (H.state host.new).folder groups) }
    ensures keeps { IsTrue H.tells → (checkpoint : Number) (base : ℕ) (groups : Seq Logged) → IsFound log (H.state host.old) base groups → Has checkpoint analysis.now groups → AreAllListed files.now (H.state host.old).folder
        → Moments (may_change groups) (H.state host.old) (H.state host.new) (KeepsTables base groups (H.state host.old).folder) }
    ensures agrees { IsTrue H.tells → (checkpoint : Number) (base : ℕ) (groups : Seq Logged) → IsFound log (H.state host.old) base groups → Has checkpoint analysis.now groups → AreAllListed files.now (H.state host.old).folder
        → Agrees groups (length groups) (H.state host.old).folder (H.state host.new).folder }
    ensures cleared { IsTrue H.tells → AreAllListed files.now (H.state host.old).folder → OnOk result ((f : AnyFile) → is_aside f ≡ true → (H.state host.new).folder f ≡ None) }
    ensures place { IfOk result (λ log'. place log' ≡ place log) }
    ensures cause { HasCause (IsWalkFault H.tells) (H.state host.old) (H.state host.new) result }
{
    let _file = FileName::Control;
    let log = start_log(host, log)?;
    remove_new_files(host, files)?;
    let names = analysis.names()?;
    settle_names(alloc, host, &log, analysis, names.as_slice())?;
    Ok(log)
}
