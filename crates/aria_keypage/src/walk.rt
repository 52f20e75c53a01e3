//! A walk over packed items, from the first on.

ghost use Rattle.std.specs.Prelude.{◌≡◌, ◌+◌, ◌≤◌, ◌++◌, List, length, take, IfSome, IfNone, IfOk};
ghost use Rattle.aria_keypage.specs.Item.{Item, entry_before};
ghost use Rattle.aria_keypage.specs.Packed.{ArePacked, IsLeft};

use crate::item::{ENTRY_MAX, is_stored, stored_at};
use std::alloc::{AllocError, Global};

// Puts the bytes behind the first ones, over what stood there.
fn put_behind(entry: &mut [u8], at: usize, bytes: &[u8])
    requires { at + length bytes.now ≤ length entry.old }
    ensures { take (at + length bytes.now) entry.new ≡ take at entry.old ++ bytes.now }
{
    entry[at..at + bytes.len()].copy_from_slice(bytes);
}

// How many items the bytes spell; `None` where they spell no items.
pub(crate) fn count_items(items: &[u8], width: usize) -> Option<usize>
    ensures found { IfSome result (λ n. (xs : List Item) × ArePacked width xs items.now × (n ≡ length xs)) }
    ensures none { IfNone result ((xs : List Item) → ArePacked width xs items.now → ⊥) }
{
    let mut entry = [0; ENTRY_MAX];
    let mut len = 0;
    let mut count = 0;
    let mut rest = items;
    while !rest.is_empty() {
        let Some((item, behind)) = stored_at(rest, width) else {
            return None;
        };
        if !is_stored(&entry[..len], &item) {
            return None;
        }
        put_behind(&mut entry, item.shared as usize, item.rest);
        len = item.shared as usize + item.rest.len();
        count += 1;
        rest = behind;
    }
    Some(count)
}

// What is left of packed items behind the first ones.
pub(crate) fn skip(items: &[u8], width: usize, count: usize) -> &[u8]
    ensures { (xs : List Item) → ArePacked width xs items.now → count ≤ length xs → IsLeft width xs count result.now }
{
    let mut rest = items;
    for at in 0..count {
        let Some((_, behind)) = stored_at(rest, width) else {
            return rest;
        };
        rest = behind;
    }
    rest
}

// The entry before a position, put together from those before it, and what is left from the position on.
pub(crate) fn walk_to<'b>(
    alloc: Global,
    items: &'b [u8],
    width: usize,
    count: usize,
) -> Result<(Vec<u8>, &'b [u8]), AllocError>
    ensures entry { (xs : List Item) → ArePacked width xs items.now → count ≤ length xs → IfOk result (λ r. r.0.items ≡ entry_before xs count) }
    ensures left { (xs : List Item) → ArePacked width xs items.now → count ≤ length xs → IfOk result (λ r. IsLeft width xs count r.1.now) }
{
    let mut entry = Vec::new(alloc);
    let mut rest = items;
    for at in 0..count {
        let Some((item, behind)) = stored_at(rest, width) else {
            return Ok((entry, rest));
        };
        entry.truncate(item.shared as usize);
        entry.extend_from_slice(item.rest)?;
        rest = behind;
    }
    Ok((entry, rest))
}
