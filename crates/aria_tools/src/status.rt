//! How a command ends: its code, and its line on standard error.

ghost use Rattle.std.specs.Prelude.{◌≡◌};
ghost use Rattle.aria_tools.specs.Statuses.{code_of, status_at, status_text};

use aria_host::Fault;

/// How a command ends (docs/LANGUAGE.md, "Statuses").
#[derive(Clone, Copy, Debug)]
pub enum Status {
    /// All was executed, and no statement was refused.
    Done,
    /// All was executed, and a statement was refused.
    Refused,
    BadWords,
    Memory,
    Disk,
    /// The folder is damaged.
    Damaged,
    Input,
    Tell,
    TooLong,
    LogSpent,
    TooManyTables,
}

impl Status {
    /// The status at a fault.
    pub fn at(fault: &Fault) -> Status
        ensures { result ≡ status_at fault.now }
    {
        match fault {
            Fault::Memory(_) => Status::Memory,
            Fault::Disk => Status::Disk,
            Fault::LogDamaged { .. }
            | Fault::ControlDamaged
            | Fault::NotOurs { .. }
            | Fault::PageDamaged { .. }
            | Fault::FileMissing { .. } => Status::Damaged,
            Fault::Input => Status::Input,
            Fault::Tell => Status::Tell,
            Fault::LogSpent { .. } => Status::LogSpent,
            Fault::TooManyTables => Status::TooManyTables,
        }
    }

    /// The number that the program exits with.
    pub fn code(self) -> u8
        ensures { result ≡ code_of self }
    {
        match self {
            Status::Done => 0,
            Status::Refused => 1,
            Status::BadWords => 2,
            Status::Memory => 3,
            Status::Disk => 4,
            Status::Damaged => 5,
            Status::Input => 6,
            Status::Tell => 7,
            Status::TooLong => 8,
            Status::LogSpent => 9,
            Status::TooManyTables => 10,
        }
    }

    /// The line on standard error. It is empty where there is none, and where it names a fault.
    pub fn line(self) -> &'static str
        ensures { result.now ≡ status_text (code_of self) }
    {
        match self {
            Status::BadWords => "aria: bad words\n",
            Status::Memory => "aria: want of memory\n",
            Status::Disk => "aria: disk fault\n",
            Status::Input => "aria: input fault\n",
            Status::TooLong => "aria: input too long\n",
            Status::TooManyTables => "aria: too many tables\n",
            Status::Done | Status::Refused | Status::Damaged | Status::Tell | Status::LogSpent =>
                "",
        }
    }
}
