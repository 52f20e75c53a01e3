//! Rows on pages: heads, tails and blob pages in a data file, over any `Pages` (docs/FORMATS.md, "Rows" and "Bitmap pages").
//!
//! A row's head stands on a page with other heads, its tail, where it has one, on a page with other tails, and the bytes
//! between them on blob pages of their own. Contracts see a data file as its pieces: a function from page and slot to the
//! head, the tail or the row bytes that stand there (`specs/Pieces.antt`). `IsDataFile` says that each page holds its pieces
//! and that its pattern on the bitmap page is its code; `IsTiled` that the pieces are rows, each piece of exactly one.
//!
//! A part is put on a page that is promised for it. The file grows only where no page of the file is promised. Each call
//! that changes a page sets its pattern in the same group of edits.
#![tactic(auto, using(aria_cache::proofs::Growing::grows_same, aria_cache::proofs::Growing::grows_on, aria_cache::proofs::Growing::grows_edited, aria_cache::proofs::Growing::stays_same, aria_cache::proofs::Growing::stays_on, crate::proofs::Causing::page_cause, crate::proofs::Causing::cause_then, crate::proofs::Causing::keeps_loaded, crate::proofs::Looking::looks_loaded, crate::proofs::Looking::looks_on, crate::proofs::Looking::keeps_looked, crate::proofs::Causing::keeps_edited, crate::proofs::Causing::keeps_on))]

mod blob;
mod blob_run;
mod codes;
mod cut;
mod deleting;
mod finding;
mod growing;
mod head_fields;
mod inserting;
mod layout;
mod lengthening;
mod part;
mod part_kind;
mod placing;
mod putting_back;
mod reading;
mod row_bytes;
mod row_reading;
mod row_sizes;
mod run;
mod spot;
mod storing;
mod take;

pub use deleting::delete_row;
pub use layout::MAP_EVERY;
pub use part_kind::PartKind;
pub use putting_back::put_back;
pub use row_reading::read_row;
pub use storing::insert_row;

#[cfg(test)]
mod tests;
