use aria_page::Name;

/// What is wrong in a definition: the word that the refusal tells.
#[derive(Clone, Copy, Debug)]
pub enum Which {
    Packed,
    MaxRows,
    Columns,
    Kind,
    Keys,
    Spatial,
    Fulltext,
    Entry,
}

/// Why a statement is refused (docs/LANGUAGE.md, "Refusals"). A refused statement changes nothing.
#[derive(Clone, Copy, Debug)]
pub enum Refusal {
    /// No statement goes on with the token at this byte, or the line ends there too soon.
    BadStatement { at: u64 },
    /// The line is longer than `MAX_LINE_BYTES`.
    LineTooLong,
    /// The number at this byte may stand there and doesn't fit 64 bits with sign.
    NumberTooWide { at: u64 },
    LogSpent { file: u32 },
    TableFull { pages: u32 },
    TableCrashed { name: Name },
    Duplicate { key: Name },
    RowTooLong,
    BadValue { column: Name },
    RowsFull,
    NoTable { name: Name },
    TableExists { name: Name },
    NoKey { name: Name },
    TooManyRows,
    BadDefinition { which: Which },
    NoColumn { name: Name },
    /// The statement, or its refusal, is not built yet.
    NotBuilt,
}

/// Why a statement was refused for want of room on the disk.
#[derive(Clone, Copy, Debug)]
pub enum Exception {
    /// The log's last file has this number.
    Spent(u32),
    /// A file of the table had so many pages as the statement's row of this number, from 1, was to be put.
    Full { row: u32, pages: u32 },
}

/// A statement of a script, counted from 0, that met an exception.
#[derive(Clone, Copy, Debug)]
pub struct Met {
    pub nth: u64,
    pub why: Exception,
}
