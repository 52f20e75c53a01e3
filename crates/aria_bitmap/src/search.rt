ghost use Rattle.std.specs.Prelude.{◌≡◌, ℕ, ◌+◌, ◌/◌, ◌%◌, ◌<◌, ◌≤◌, true, false, length, slice_index_or, IsTrue};
ghost use Rattle.aria_page.specs.declared.page.TheConstants.{BODY_BYTES};
ghost use Rattle.aria_page.specs.Page.{page_body};
ghost use Rattle.aria_bitmap.specs.declared.group.TheConstants.{GROUPS};
ghost use Rattle.aria_bitmap.specs.Pattern.{group, pattern};
ghost use Rattle.aria_bitmap.specs.Promise.{promises, IsFreeRun, IsLowest};
ghost use Rattle.aria_bitmap.specs.Sought.{any_sought};

use crate::bitmap::pattern;
use crate::group::{GROUP_PATTERNS, PATTERNS, group};
use crate::sought::Sought;
use aria_page::Page;

// The first group from one number on and below another that has a pattern that is sought; the latter
// where none has.
fn first_group(body: &[u8], from: u32, to: u32, sought: &Sought) -> u32
    requires body { length body.now ≡ BODY_BYTES }
    requires from { from ≤ to }
    requires to { to ≤ GROUPS }
    ensures low { from ≤ result }
    ensures high { result ≤ to }
    ensures before { (g : ℕ) → from ≤ g → g < result → any_sought sought.now GROUP_PATTERNS (group body.now g) ≡ false }
    ensures found { result < to → any_sought sought.now GROUP_PATTERNS (group body.now result) ≡ true }
{
    let mut nth = from;
    while nth < to {
        if sought.is_in(group(body, nth)) {
            return nth;
        }
        nth += 1;
    }
    to
}

// The pattern past the whole groups from this one on in which none is sought; this one where it begins no group.
fn past_groups(body: &[u8], nth: u32, to: u32, sought: &Sought) -> u32
    requires body { length body.now ≡ BODY_BYTES }
    requires nth { nth ≤ to }
    requires to { to ≤ PATTERNS }
    ensures low { nth ≤ result }
    ensures high { result ≤ to }
    ensures before { (m : ℕ) → nth ≤ m → m < result → slice_index_or sought.now (pattern body.now m) false ≡ false }
    ensures found { nth % GROUP_PATTERNS ≡ 0 → result / GROUP_PATTERNS < to / GROUP_PATTERNS → any_sought sought.now GROUP_PATTERNS (group body.now (result / GROUP_PATTERNS)) ≡ true }
{
    if nth % GROUP_PATTERNS != 0 {
        return nth;
    }
    GROUP_PATTERNS * first_group(body, nth / GROUP_PATTERNS, to / GROUP_PATTERNS, sought)
}

// The first pattern from one number on and below another that is sought; the latter where none is.
fn first_sought(body: &[u8], from: u32, to: u32, sought: &Sought) -> u32
    requires body { length body.now ≡ BODY_BYTES }
    requires from { from ≤ to }
    requires to { to ≤ PATTERNS }
    ensures low { from ≤ result }
    ensures high { result ≤ to }
    ensures before { (m : ℕ) → from ≤ m → m < result → slice_index_or sought.now (pattern body.now m) false ≡ false }
    ensures found { result < to → slice_index_or sought.now (pattern body.now result) false ≡ true }
{
    let mut nth = past_groups(body, from, to, sought);
    while nth < to {
        if sought.has(pattern(body, nth)) {
            return nth;
        }
        nth = past_groups(body, nth + 1, to, sought);
    }
    to
}

/// The lowest number of a pattern that promises a tail, or else a head, of so many bytes.
pub fn find_room(bitmap: &Page, tail: bool, bytes: u16) -> Option<u32>
    ensures { IsLowest (λ n. IsTrue (promises tail bytes (pattern (page_body bitmap.now) n))) PATTERNS result }
{
    let room = Sought::room(tail, bytes);
    let nth = first_sought(bitmap.body(), 0, PATTERNS, &room);
    if nth == PATTERNS { None } else { Some(nth) }
}

/// The lowest number of a pattern from which on so many pages are free, one after another.
pub fn find_empty_run(bitmap: &Page, pages: u32) -> Option<u32>
    ensures { IsLowest (λ n. IsFreeRun (page_body bitmap.now) pages n) PATTERNS result }
{
    let free = Sought::new([true, false, false, false, false, false, false, false]);
    let used = Sought::new([false, true, true, true, true, true, true, true]);
    let body = bitmap.body();
    let mut from = 0;
    while from < PATTERNS && pages <= PATTERNS - from {
        let end = first_sought(body, from, from + pages, &used);
        if end == from + pages {
            return Some(from);
        }
        from = first_sought(body, end + 1, PATTERNS, &free);
    }
    None
}
