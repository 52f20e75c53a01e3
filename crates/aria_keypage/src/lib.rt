//! Key pages: the leaves and the nodes of a key's tree, whose items share prefixes (docs/FORMATS.md).
//!
//! `KeyPage` is a view of a page, borrowed and checked once by `view`. Contracts see it as its `Content`:
//! its kind, the number of its key, a node's first child, and the items in their order, each
//! an entry and where it leads. A page spells one content at most.
//!
//! The readers and `find` tell of that list. `find` takes no memory and puts no entry together. `insert`
//! and `remove` walk the page once, and give a `Patch` that makes any page of the old list into one of the
//! changed list, and `join` one that makes it take over the items of the page to its right. A `Patch` owns the
//! new item bytes and lends them as three edits. `split` divides the items of a page in the middle of their
//! bytes, and `share` those of two pages side by side: a `Split` is the patch of the left page, the body of the
//! right one and the entry between them. `root_leaf` and `root_node` give whole bodies. A `LeafReader` reads a leaf's
//! items one after another, each from the page's bytes alone, and grows the entry in place.
//!
//! Nothing here asks that the entries rise, which is the tree's affair. A node's first child counts among its
//! item bytes.
#![tactic(auto)]

mod edit;
mod entry;
mod find;
mod insert;
mod item;
mod key_page;
mod kind;
mod leaf_reader;
mod merge;
mod remove;
mod root;
mod split;
mod walk;

pub use edit::Patch;
pub use item::ENTRY_MAX;
pub use key_page::{ITEM_BYTES_LOW, ITEM_BYTES_MAX, KeyPage};
pub use kind::{Kind, LEAF, NODE};
pub use leaf_reader::LeafReader;
pub use root::{root_leaf, root_node};
pub use split::Split;

#[cfg(test)]
mod tests;
