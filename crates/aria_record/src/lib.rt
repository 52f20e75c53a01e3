//! Groups of the log: what they are made of, and how they are stored.
//!
//! A `Group` is what the log has as one step: a list of `Record`s. Either edits of pages and one record that
//! ends them, or one record alone. `encode_group` gives its bytes, and `decode_group` the group that stands in
//! front of bytes, with its length (docs/FORMATS.md, "Groups"). No group's bytes begin another's. Bytes in
//! front of which no group stands are `None`, whatever they are, and the only failure is want of memory.
//!
//! A `GroupWriter` puts a group's bytes together entry by entry, in a buffer that is used again, and `Entries`
//! reads a group's entries and edits as they lie in its bytes. Neither builds a `Group`, and the reading takes
//! no memory.
//!
//! `specs/Spelled.antt` says how groups are spelled, `specs/Groups.antt` which groups there are, and
//! `specs/Reading.antt` how they are read; `specs/Writing.antt` what a writer has written, and
//! `specs/InPlace.antt` what lies in bytes.
#![tactic(auto)]

mod edit_codec;
mod entries;
mod entry_codec;
mod field_codec;
mod group;
mod group_codec;
mod group_writer;
mod record;
mod record_codec;
mod record_kind;

pub use entries::{Edits, Entries, Entry};
pub use group::Group;
pub use group_codec::{decode_group, encode_group};
pub use group_writer::GroupWriter;
pub use record::{Dirty, Record};
pub use record_kind::RecordKind;

#[cfg(test)]
mod tests;
