//! A folder is found: its control file and its log are read, and its tables' files are brought to the disk.

ghost use Rattle.std.specs.Prelude.{◌≡◌, ◌⊎◌, ◌<◌, ℕ, List as Seq, Option, Some, All, true, IsTrue, IsSome, IfOk, IfErr, OnOk};
ghost use Rattle.aria_page.specs.declared.lsn.Lsn.{Lsn as Number};
ghost use Rattle.aria_page.specs.declared.place.Part.{Part as AnyPart};
ghost use Rattle.aria_host.specs.Calls.{HasDiskCause, HaveNames, Narrows};
ghost use Rattle.aria_host.specs.Folder.{IsFileName};
ghost use Rattle.aria_host.specs.declared.host.Extent.{Extent as Length};
ghost use Rattle.aria_control.specs.ControlPage.{IsStorable};
ghost use Rattle.aria_control.specs.Found.{control_file};
ghost use Rattle.aria_record.specs.Logged.{Logged, lsn_at_place};
ghost use Rattle.aria_log.specs.Finding.{start_of, Fails};
ghost use Rattle.aria_log.specs.Log.{place};
ghost use Rattle.aria_log.specs.Pieces.{log_files};
ghost use Rattle.aria_page.specs.Lsn.{lsn_number};
ghost use Rattle.aria_recovery.specs.Redo.{number_at};
ghost use Rattle.aria_recovery.specs.Analysed.{Has};
ghost use Rattle.aria_recovery.specs.Pending.{Chained, unchained};
ghost use Rattle.aria_recovery.specs.Tables.{file};
ghost use Rattle.aria_pager.specs.Steps.{damaged_at};
ghost use Rattle.aria_pager.specs.Found.{is_part, AreFiles, FitsLength, HasCause, IsDurable, IsFindFault, IsFoundAs, IsLogDamage, IsLogFault, IsRead, MayBegin, Refuses, RefusesLog};

use crate::analyse::analyse;
use crate::begin::settle_control;
use crate::load::log_damaged;
use aria_control::{Control, read};
use aria_host::{Fault, FileName, Host};
use aria_log::Log;
use aria_page::{LOG_BODY_AT, List, Lsn};
use aria_recovery::Analysis;
use std::alloc::Global;

/// What is found of a folder, before its log is started.
#[derive(Drop)]
pub(crate) struct Found {
    pub(crate) log: Log,
    /// The files of the folder, as they were listed.
    pub(crate) files: List<FileName>,
    pub(crate) analysis: Analysis,
    /// The log's base.
    pub(crate) from: Lsn,
}

// Whether it is a file of a table.
fn is_part(file: &FileName) -> bool
    ensures { result ≡ is_part file.now }
{
    match file {
        FileName::Keys(_) => true,
        FileName::Rows(_) => true,
        _ => false,
    }
}

// Brings the file to the disk if it is one of a table.
fn sync_file<H: Host>(host: &mut H, file: &FileName) -> Result<(), Fault>
    requires form { IsFileName file.now }
    requires there { IsTrue H.tells → is_part file.now ≡ true → IsSome ((H.state host.old).folder file.now) }
    requires names { IsTrue H.tells → HaveNames (H.state host.old) }
    ensures same { IsTrue H.tells → Narrows (H.state host.old) (H.state host.new) }
    ensures durable { IsTrue H.tells → OnOk result (is_part file.now ≡ true → IsDurable file.now (H.state host.new)) }
    ensures cause { HasDiskCause (H.state host.old) (H.state host.new) result }
{
    if !is_part(file) {
        return Ok(());
    }
    host.sync(file)
}

// Brings those of these files to the disk that are files of tables.
fn sync_files<H: Host>(host: &mut H, files: &[FileName]) -> Result<(), Fault>
    requires forms { All IsFileName files.now }
    requires listed { IsTrue H.tells → AreFiles files.now (H.state host.old).folder }
    requires names { IsTrue H.tells → HaveNames (H.state host.old) }
    ensures same { IsTrue H.tells → Narrows (H.state host.old) (H.state host.new) }
    ensures durable { IsTrue H.tells → OnOk result ((name : Seq ℕ) (part : AnyPart) → IsDurable (file name part) (H.state host.new)) }
    ensures cause { HasDiskCause (H.state host.old) (H.state host.new) result }
{
    for file in files {
        sync_file(host, file)?;
    }
    Ok(())
}

// Whether the log ends behind the checkpoint; where it doesn't, it is damaged at its end.
fn check_end(log: &Log, checkpoint: Lsn) -> Result<(), Fault>
    ensures behind { OnOk result (lsn_number checkpoint < number_at (place log.now)) }
    ensures fails { IfErr result (λ fault. (¬ (lsn_number checkpoint < number_at (place log.now))) × (fault ≡ damaged_at (lsn_at_place (place log.now)))) }
    ensures only { IfErr result IsLogDamage }
{
    let _file = FileName::Control;
    let end = log.end();
    if checkpoint.is_before(end) {
        return Ok(());
    }
    Err(log_damaged(end))
}

// Whether the chain of undo records fails at a group behind the checkpoint.
fn check_chain(analysis: &Analysis) -> Result<(), Fault>
    ensures chained { (checkpoint : Number) (groups : Seq Logged) → Has checkpoint analysis.now groups → OnOk result (Chained checkpoint groups) }
    ensures fails { (checkpoint : Number) (groups : Seq Logged) → Has checkpoint analysis.now groups → IfErr result (λ fault. (at : ℕ) × (unchained checkpoint groups ≡ Some at) × (fault ≡ damaged_at (lsn_at_place at))) }
    ensures only { IfErr result IsLogDamage }
{
    let _file = FileName::Control;
    match analysis.unchained() {
        None => Ok(()),
        Some(at) => Err(log_damaged(at)),
    }
}

// The first byte of the log that is read from this number on; file 0 with offset 0 stands for the log's first byte.
#[tactic(auto, unfolding(aria_log::specs::Finding::start_of))]
fn start_of(from: Lsn) -> Lsn
    ensures { result ≡ start_of from }
{
    if from.file == 0 && from.offset == 0 {
        return Lsn {
            file: 1,
            offset: LOG_BODY_AT as u32,
        };
    }
    from
}

// Opens the log from where redo starts, brings the tables' files to the disk, and analyses the log's groups.
fn read_log<H: Host>(
    alloc: Global,
    host: &mut H,
    control: Control,
    files: List<FileName>,
) -> Result<Found, Fault>
    requires storable { IsStorable control }
    requires forms { All IsFileName files }
    requires listed { IsTrue H.tells → AreFiles files (H.state host.old).folder }
    requires names { IsTrue H.tells → HaveNames (H.state host.old) }
    ensures read { IsTrue H.tells → IfOk result (λ found. (base : ℕ) × (groups : Seq Logged) × IsRead control files (H.state host.new) found base groups) }
    ensures refused { IsTrue H.tells → IfErr result (RefusesLog control (log_files (H.state host.old).folder)) }
    ensures same { IsTrue H.tells → Narrows (H.state host.old) (H.state host.new) }
    ensures cause { HasCause IsLogFault (H.state host.old) (H.state host.new) result }
{
    let log = Log::open(alloc, host, control.redo)?;
    check_end(&log, control.checkpoint)?;
    sync_files(host, files.as_slice())?;
    let from = start_of(control.redo);
    let analysis = analyse(alloc, host, &log, control.checkpoint, from)?;
    check_chain(&analysis)?;
    Ok(Found {
        log,
        files,
        analysis,
        from,
    })
}

/// Finds a folder: reads its control file and its log, and brings both and its tables' files to the disk. Nothing is changed,
/// but that the control file of a fresh folder is made.
///
/// `FileMissing`, `NotOurs` and `ControlDamaged` are those of the control file; then `FileMissing` and `LogDamaged` those of
/// the log as `Log::open` answers them; `LogDamaged` at the log's end where that isn't behind the checkpoint; and `LogDamaged` at
/// the page in which a group begins where the chain of undo records fails at it.
pub(crate) fn find<H: Host>(alloc: Global, host: &mut H) -> Result<Found, Fault>
    ensures found { IsTrue H.tells → IfOk result (λ found. (checkpoint : Number) × (base : ℕ) × (groups : Seq Logged) × IsFoundAs found (H.state host.old) (H.state host.new) checkpoint base groups) }
    ensures refused { IsTrue H.tells → IfErr result (Refuses (H.state host.old).folder) }
    // A length of the control file that is no multiple of a page's, as the host's look found it, is answered by NotOurs.
    ensures length { Fails result ⊎ ((looked : Option Length) × H.may_find host.old control_file looked × FitsLength looked result) }
    ensures begins { IsTrue H.tells → MayBegin (H.state host.old) (H.state host.new) }
    ensures cause { HasCause IsFindFault (H.state host.old) (H.state host.new) result }
{
    let found = read(alloc, host)?;
    let files = host.names(alloc)?;
    let control = settle_control(host, found)?;
    read_log(alloc, host, control, files)
}
