//! From where on the log of a folder is looked at.

ghost use Rattle.std.specs.Prelude.{◌≡◌, ◌^◌, ◌<◌, [], ◌∷◌, ◌++◌, List, Some, IsTrue, IfOk, IfSome};
ghost use Rattle.std.specs.List.{All};
ghost use Rattle.aria_page.specs.Lsn.{IsLsn};
ghost use Rattle.aria_host.specs.Calls.{HasDiskOrMemoryCause, Lists, Narrows};
ghost use Rattle.aria_host.specs.declared.file_name.FileName.{FileName as AnyName};
ghost use Rattle.aria_host.specs.declared.file_name.FileName.TheVariants.{Log as LogFile};
ghost use Rattle.aria_host.specs.Folder.{Folder, IsFileName};
ghost use Rattle.aria_control.specs.Found.{IsFoundStorable};
ghost use Rattle.aria_log.specs.Pieces.{log_files};
ghost use Rattle.aria_log.specs.Finding.{means_none, start_of};
ghost use Rattle.aria_readlog.specs.Start.{redo_of, IsStart, IsLowestOf};

use aria_control::Found;
use aria_host::{Fault, FileName, Host};
use aria_page::{LOG_BODY_AT, Lsn};
use std::alloc::Global;

// The lower of a number, if there is one, and that of a log file.
fn lower(low: Option<u32>, file: u32) -> u32
    ensures lowest { (names : List AnyName) → IsLowestOf low names → IsLowestOf (Some result) (names ++ LogFile file ∷ []) }
    ensures form { IfSome low (λ low. low < 2 ^ 24) → file < 2 ^ 24 → result < 2 ^ 24 }
{
    match low {
        Some(low) if low < file => low,
        _ => file,
    }
}

// The lowest number of a log file, with one name more.
fn with_name(low: Option<u32>, name: &FileName) -> Option<u32>
    requires { IsFileName name.now }
    ensures lowest { (names : List AnyName) → IsLowestOf low names → IsLowestOf result (names ++ name.now ∷ []) }
    ensures form { IfSome low (λ low. low < 2 ^ 24) → IfSome result (λ low. low < 2 ^ 24) }
{
    match name {
        FileName::Log(file) => Some(lower(low, *file)),
        _ => low,
    }
}

// The lowest number of a log file among these.
fn lowest(names: &[FileName]) -> Option<u32>
    requires { All IsFileName names.now }
    ensures lowest { IsLowestOf result names.now }
    ensures form { IfSome result (λ low. low < 2 ^ 24) }
{
    let mut low = None;
    for name in names {
        low = with_name(low, name);
    }
    low
}

// Where redo starts.
fn redo_of(found: &Found) -> Lsn
    ensures value { result ≡ redo_of found.now }
    ensures lsn { IsFoundStorable found.now → IsLsn result }
{
    match found {
        Found::Fresh => Lsn { file: 0, offset: 0 },
        Found::Kept(control) => control.redo,
    }
}

// From where on the log is looked at, in a folder with this control file and this lowest file of the log.
fn start_at(low: Option<u32>, found: &Found) -> Lsn
    requires storable { IsFoundStorable found.now }
    requires form { IfSome low (λ low. low < 2 ^ 24) }
    ensures start { (folder : Folder) (names : List AnyName) → Lists folder names → IsLowestOf low names → IsStart found.now (log_files folder) result }
    ensures lsn { IsLsn result }
{
    match low {
        None => redo_of(found),
        Some(file) => Lsn {
            file,
            offset: LOG_BODY_AT as u32,
        },
    }
}

/// From where on the log is looked at, in a folder with this control file.
pub(crate) fn start<H: Host>(alloc: Global, host: &mut H, found: &Found) -> Result<Lsn, Fault>
    requires { IsFoundStorable found.now }
    ensures start { IsTrue H.tells → IfOk result (IsStart found.now (log_files (H.state host.old).folder)) }
    ensures lsn { IfOk result IsLsn }
    ensures same { IsTrue H.tells → Narrows (H.state host.old) (H.state host.new) }
    ensures cause { HasDiskOrMemoryCause (H.state host.old) (H.state host.new) result }
{
    let names = host.names(alloc)?;
    Ok(start_at(lowest(names.as_slice()), found))
}

// Whether the number means none.
fn means_none(lsn: Lsn) -> bool
    ensures { result ≡ means_none lsn }
{
    lsn.file == 0 && lsn.offset == 0
}

/// The first byte of the log that is read from this number on; file 0 with offset 0 stands for the log's first byte.
#[tactic(auto, unfolding(aria_log::specs::Finding::start_of))]
pub(crate) fn start_of(from: Lsn) -> Lsn
    ensures { result ≡ start_of from }
{
    if means_none(from) {
        Lsn {
            file: 1,
            offset: LOG_BODY_AT as u32,
        }
    } else {
        from
    }
}
