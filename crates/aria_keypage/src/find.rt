//! The search in packed items, which doesn't put any entry together.

ghost use Rattle.std.specs.Prelude.{◌≡◌, ℕ, ◌<◌, ◌≤◌, List, length, true, drop};
ghost use Rattle.std.specs.Ordering.{nat_cmp};
ghost use Rattle.std.specs.Cmp.Lexicographic.{slice_cmp};
ghost use Rattle.aria_keypage.specs.Item.{Item, entry_before, is_below, IsPosition};
ghost use Rattle.aria_keypage.specs.Packed.{common_length, ArePacked, IsLeft};

use crate::entry::compare;
use crate::item::{StoredItem, stored_at};
use aria_page::bytes_from;
use std::cmp::Ordering;

// How many leading bytes an item's entry and the one that is sought have in common, and which comes first.
//
// What the entry before and the sought one have in common is `common`. An item that shares more than that
// with the entry before differs from the sought one in the same byte, and isn't looked at.
pub(crate) fn against(common: usize, item: &StoredItem<'_>, entry: &[u8]) -> (usize, Ordering)
    requires { common ≤ length entry.now }
    ensures within { result.0 ≤ length entry.now }
    ensures common { (before there : List ℕ) → common ≡ common_length before entry.now → item.now.shared ≤ common_length before there → item.now.rest.now ≡ drop item.now.shared there → result.0 ≡ common_length there entry.now }
    ensures order { (before there : List ℕ) → common ≡ common_length before entry.now → (common < length before → is_below before entry.now ≡ true) → item.now.shared ≤ common_length before there → item.now.rest.now ≡ drop item.now.shared there → result.1 ≡ slice_cmp nat_cmp there entry.now }
{
    let shared = item.shared as usize;
    if shared > common {
        return (common, Ordering::Less);
    }
    let (same, order) = compare(item.rest, bytes_from(entry, shared));
    (shared + same, order)
}

/// The position of the first entry that isn't below the given one, and whether they are the same.
pub(crate) fn find_in(items: &[u8], width: usize, count: usize, entry: &[u8]) -> (usize, bool)
    ensures { (xs : List Item) → ArePacked width xs items.now → count ≡ length xs → IsPosition entry.now xs result.0 result.1 }
{
    let mut rest = items;
    let mut common = 0;
    for at in 0..count {
        let Some((item, behind)) = stored_at(rest, width) else {
            return (at, false);
        };
        let (same, order) = against(common, &item, entry);
        match order {
            Ordering::Less => {}
            Ordering::Equal => return (at, true),
            Ordering::Greater => return (at, false),
        }
        common = same;
        rest = behind;
    }
    (count, false)
}

// How many leading bytes the entry before a position has in common with another, and what is left from there on.
pub(crate) fn common_at<'b>(
    items: &'b [u8],
    width: usize,
    count: usize,
    entry: &[u8],
) -> (usize, &'b [u8])
    ensures within { result.0 ≤ length entry.now }
    ensures common { (xs : List Item) → ArePacked width xs items.now → count ≤ length xs → result.0 ≡ common_length (entry_before xs count) entry.now }
    ensures left { (xs : List Item) → ArePacked width xs items.now → count ≤ length xs → IsLeft width xs count result.1.now }
{
    let mut rest = items;
    let mut common = 0;
    for at in 0..count {
        let Some((item, behind)) = stored_at(rest, width) else {
            return (common, rest);
        };
        let (same, _) = against(common, &item, entry);
        common = same;
        rest = behind;
    }
    (common, rest)
}
