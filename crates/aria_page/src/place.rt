//! Where the parts of a table lie.

/// One of the two files of a table.
#[derive(Clone, Copy, Debug, PartialEq, Eq, PartialOrd, Ord)]
pub enum Part {
    /// The index file: the header and the trees of the keys.
    Keys,
    /// The data file: the rows.
    Rows,
}

/// The place of a part of a row: a page of the data file, and its directory entry there, both from 0.
#[derive(Clone, Copy, Debug, PartialEq, Eq, PartialOrd, Ord)]
pub struct Place {
    pub page: u32,
    pub slot: u8,
}

/// The places of a row: its head, its tail where it has one, and `blobs` blob pages from page `blob` on.
///
/// A row without blob pages has `blob` 0.
#[derive(Clone, Copy, Debug, PartialEq, Eq)]
pub struct Places {
    pub head: Place,
    pub tail: Option<Place>,
    pub blob: u32,
    pub blobs: u8,
}
