ghost use Rattle.std.specs.Prelude.{◌≡◌, alloc_error};
ghost use Rattle.aria_host.specs.declared.fault.Fault.TheVariants.{Memory};

use crate::FileName;
use std::alloc::{AllocError, AllocFailed};
use thiserror::Error;

/// What went wrong outside the program, or want of memory. A fault ends the run.
#[derive(Clone, Copy, Debug, Error)]
pub enum Fault {
    #[error("want of memory")]
    Memory(AllocError),
    #[error("the disk failed")]
    Disk,
    #[error("an output stream refused bytes")]
    Tell,
    #[error("the input could not be read")]
    Input,
    /// The log is damaged at this page of its file.
    #[error("the log is damaged at page {page} of file {file}")]
    LogDamaged { file: u32, page: u32 },
    /// No more can be appended to the log, whose last file is this one.
    #[error("the log is spent at file {file}")]
    LogSpent { file: u32 },
    /// The control file is the program's, but its checksum fits neither its page nor zeros.
    #[error("the control file is damaged")]
    ControlDamaged,
    /// A file is there that isn't of this program's making.
    #[error("a file is there that isn't ours")]
    NotOurs { file: FileName },
    /// A page of a table's file is damaged.
    #[error("page {page} of a table's file is damaged")]
    PageDamaged { file: FileName, page: u32 },
    /// A file that must be there is not.
    #[error("a file is missing")]
    FileMissing { file: FileName },
    #[error("there are too many tables")]
    TooManyTables,
}

impl From<AllocError> for Fault {
    ghost from_gives = { λ _ e. e ≡ Memory alloc_error };

    fn from(_: AllocError) -> Fault {
        Fault::Memory(AllocError)
    }
}

impl<T: Drop> From<AllocFailed<T>> for Fault {
    ghost from_gives = { λ _ e. e ≡ Memory alloc_error };

    fn from(_: AllocFailed<T>) -> Fault {
        Fault::Memory(AllocError)
    }
}
