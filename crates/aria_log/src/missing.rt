//! Which files of the log are there, and which is missing.

ghost use Rattle.std.specs.Prelude.{◌≡◌, ◌&&◌, ◌≤◌, ◌<◌, ◌+◌, ◌^◌, ℕ, not, true, false, IfOk, IfErr, MatchResult};
ghost use Rattle.std.specs.List.{All, list_any};
ghost use Rattle.aria_page.specs.Lsn.{IsLsn};
ghost use Rattle.aria_host.specs.declared.fault.Fault.TheVariants.{FileMissing};
ghost use Rattle.aria_host.specs.declared.file_name.FileName.TheVariants.{Log as LogFile};
ghost use Rattle.aria_host.specs.Folder.{Folder, IsFileName, same_file};
ghost use Rattle.aria_host.specs.Calls.{Lists};
ghost use Rattle.aria_log.specs.Pieces.{log_files};
ghost use Rattle.aria_log.specs.Finding.{IsLast, IsMissing, NoneMissing, is_from, means_none, start_of};

use crate::log_page::NO_FILE;
use crate::place::{means_none, start_of};
use aria_host::{Fault, FileName};
use aria_page::Lsn;

// Whether this file of the log is among these.
fn has_log(names: &[FileName], file: u32) -> bool
    ensures { result ≡ list_any (same_file (LogFile file)) names.now }
{
    names.iter().any(|name| FileName::Log(file).is_same(name))
}

// Whether it is a file of the log with this number or a higher one.
fn is_from(name: &FileName, low: u32) -> bool
    ensures { result ≡ is_from low name.now }
{
    match name {
        FileName::Log(file) => low <= *file,
        _ => false,
    }
}

// Whether a file of the log with this number or a higher one is among these.
fn has_from(names: &[FileName], low: u32) -> bool
    ensures { result ≡ list_any (is_from low) names.now }
{
    names.iter().any(|name| is_from(name, low))
}

// The lowest number from this one on that no file of the log among these has.
fn first_absent(names: &[FileName], low: u32) -> u32
    requires { low < 2 ^ 24 }
    ensures from { low ≤ result }
    ensures within { result ≤ 2 ^ 24 }
    ensures below { (f : ℕ) → low ≤ f → f < result → list_any (same_file (LogFile f)) names.now ≡ true }
    ensures absent { result < 2 ^ 24 → list_any (same_file (LogFile result)) names.now ≡ false }
{
    for file in low..NO_FILE {
        if !has_log(names, file) {
            return file;
        }
    }
    NO_FILE
}

// Whether no base is given and no file of the log is among these.
fn is_new(names: &[FileName], from: Lsn) -> bool
    ensures { result ≡ means_none from && not (list_any (is_from 0) names.now) }
{
    means_none(from) && !has_from(names, 0)
}

// The fault that this file of the log is missing.
fn missing(file: u32) -> Fault
    ensures { result ≡ FileMissing (LogFile file) }
{
    Fault::FileMissing {
        file: FileName::Log(file),
    }
}

/// The last file of the log among these, from the base's on, and the base's own where there is none; or the lowest one
/// that is missing.
pub(crate) fn last_of(names: &[FileName], from: Lsn) -> Result<u32, Fault>
    requires from { IsLsn from }
    requires forms { All IsFileName names.now }
    ensures last { (folder : Folder) → Lists folder names.now
        → MatchResult result (λ last. NoneMissing from (log_files folder) × IsLast (log_files folder) (start_of from).file last)
        (λ fault. (f : ℕ) × (fault ≡ FileMissing (LogFile f)) × IsMissing from (log_files folder) f) }
    ensures within { IfOk result (λ last. last < 2 ^ 24) }
    ensures only { IfErr result (λ fault. (f : ℕ) × (fault ≡ FileMissing (LogFile f))) }
{
    let low = start_of(from).file;
    let first = first_absent(names, low);
    if has_from(names, first + 1) {
        return Err(missing(first));
    }
    if first > low {
        return Ok(first - 1);
    }
    if is_new(names, from) {
        return Ok(low);
    }
    Err(missing(low))
}
