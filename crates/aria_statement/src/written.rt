//! A definition as it is written, before it is known to be one.

use aria_page::{List, Name};

/// The type of a column. The number of `Text` is the limit that stands there.
#[derive(Clone, Copy, Debug)]
pub enum WrittenType {
    Int,
    Text(i64),
}

/// A column.
#[derive(Clone, Copy, Debug)]
pub struct WrittenColumn {
    pub name: Name,
    pub kind: WrittenType,
}

/// What a key may be besides.
#[derive(Clone, Copy, Debug)]
pub enum Special {
    Plain,
    Spatial,
    Fulltext,
}

/// A key, with the names of its columns.
#[derive(Debug, Drop)]
pub struct WrittenKey {
    pub name: Name,
    pub columns: List<Name>,
    pub special: Special,
}

/// The kind of a table.
#[derive(Clone, Copy, Debug)]
pub enum TableKind {
    Trans,
    Plain,
    Packed,
}
