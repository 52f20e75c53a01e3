//! Where the header of an index file has the number of rows (docs/FORMATS.md).

/// The place of the number of rows, 4 bytes, in the header's body.
pub const ROWS_AT: usize = 19;
