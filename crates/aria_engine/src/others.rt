//! The files of the folder other than the log's.

ghost use Rattle.std.specs.Prelude.{◌≡◌, ◌∷◌, ◌++◌, ◌↔◌, [], List, IsTrue, IfOk, OnOk, MatchOption};
ghost use Rattle.std.specs.List.{All};
ghost use Rattle.std.specs.declared.cmp.Ordering.TheVariants.{Less};
ghost use Rattle.std.specs.Cmp.Lexicographic.{slice_cmp};
ghost use Rattle.std.specs.Ordering.{nat_cmp};
ghost use Rattle.aria_host.specs.declared.file_name.FileName.{FileName};
ghost use Rattle.aria_host.specs.FileText.{file_text};
ghost use Rattle.aria_host.specs.Folder.{IsFileName};
ghost use Rattle.aria_host.specs.Calls.{HasDiskOrMemoryCause, HaveNames, Narrows};
ghost use Rattle.aria_engine.specs.Holds.{IsLogAlone, IsFirstOther};
ghost use Rattle.aria_engine.specs.Opening.{IsFirst};

use crate::store::FILE;
use aria_host::{Fault, FileName, Host};
use std::alloc::Global;
use std::cmp::Ordering;

// Whether a file's name comes before another's.
fn comes_before(file: &FileName, other: &FileName) -> bool
    ensures { IsTrue result ↔ (slice_cmp nat_cmp (file_text file.now) (file_text other.now) ≡ Less) }
{
    match file.compare_texts(other) {
        Ordering::Less => true,
        Ordering::Equal => false,
        Ordering::Greater => false,
    }
}

// The first of the files seen other than the log's, where one more is seen.
fn see(first: Option<FileName>, file: &FileName) -> Option<FileName>
    requires { IsFileName file.now }
    ensures { (seen : List FileName) → IsFirst first seen → IsFirst result (seen ++ file.now ∷ []) }
{
    if FileName::Log(FILE).is_same(file) {
        return first;
    }
    match first {
        None => Some(*file),
        Some(found) => {
            if comes_before(file, &found) {
                Some(*file)
            } else {
                Some(found)
            }
        }
    }
}

// The first of these files other than the log's, by the bytes of its name.
fn first_other(files: &[FileName]) -> Option<FileName>
    requires { All IsFileName files.now }
    ensures { IsFirst result files.now }
{
    let mut first = None;
    for file in files {
        first = see(first, file);
    }
    first
}

/// The first of the folder's files other than the log's, by the bytes of its name. The folder's names are on the disk
/// then.
pub(crate) fn find_other<H: Host>(alloc: Global, host: &mut H) -> Result<Option<FileName>, Fault>
    ensures found { IsTrue H.tells → IfOk result (λ found. MatchOption found (IsLogAlone (H.state host.old).folder) (λ file. IsFirstOther file (H.state host.old).folder)) }
    ensures named { IsTrue H.tells → OnOk result (HaveNames (H.state host.new)) }
    ensures same { IsTrue H.tells → Narrows (H.state host.old) (H.state host.new) }
    ensures cause { HasDiskOrMemoryCause (H.state host.old) (H.state host.new) result }
{
    let files = host.names(alloc)?;
    Ok(first_other(files.as_slice()))
}
