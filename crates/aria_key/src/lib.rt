//! Trees of key pages: the entries of a key in their order, each with the place of its row.
//!
//! The levels of a tree stand one above the other: the highest is the root alone, the items of each level name the pages
//! of the level below it, and those of the lowest level, the leaves, are the tree's entries (`specs/Tree.antt`). Each
//! function is proved once, over whatever implements `Pages`.
//!
//! `seek` gives a `Cursor` before the first entry of a key's tree that isn't below a given one, and `next` reads the next
//! one each time, while the pages stay as they are: what is ahead of a cursor is told by `specs/Ahead.antt`.
//! `first_with_prefix` looks for the first entry that begins with given bytes.
#![tactic(auto)]

mod count;
mod cursor;
mod descent;
mod divide;
mod editing;
mod entering;
mod exchange;
mod fetching;
mod freeing;
mod fresh;
mod halves;
mod halving;
mod head;
mod inserting;
mod layout;
mod look;
mod merging;
mod neighbours;
mod offer;
mod path;
mod place;
mod prefix;
mod put;
mod removing;
mod renaming;
mod root;
mod rooting;
mod settle;
mod take;
mod take_out;
mod thickening;
mod way_up;
mod weight;

pub use cursor::{Cursor, next, seek};
pub use descent::{Found, find};
pub use inserting::insert;
pub use path::{MAX_LEVELS, Passed, Path};
pub use prefix::first_with_prefix;
pub use removing::remove;
