//! Two entries side by side.

ghost use Rattle.std.specs.Prelude.{◌≡◌, ◌==◌, min};
ghost use Rattle.std.specs.Ordering.{nat_cmp};
ghost use Rattle.std.specs.Cmp.Lexicographic.{slice_cmp};
ghost use Rattle.aria_keypage.specs.declared.entry.TheConstants.{SHARED_MAX};
ghost use Rattle.aria_keypage.specs.Packed.{common_length, shared};

use std::cmp::Ordering;

/// The most leading bytes that an entry takes from the one before it.
pub(crate) const SHARED_MAX: usize = 255;

/// How many leading bytes the two have in common.
pub(crate) fn common_length(a: &[u8], b: &[u8]) -> usize
    ensures { result ≡ common_length a.now b.now }
{
    let mut at = 0;
    while at < a.len() && at < b.len() && a[at] == b[at] {
        at += 1;
    }
    at
}

/// How many leading bytes the two have in common, and which of them comes first.
pub(crate) fn compare(a: &[u8], b: &[u8]) -> (usize, Ordering)
    ensures common { result.0 ≡ common_length a.now b.now }
    ensures order { result.1 ≡ slice_cmp nat_cmp a.now b.now }
{
    let same = common_length(a, b);
    let order = if same < a.len() && same < b.len() {
        a[same].cmp(&b[same])
    } else {
        a.len().cmp(&b.len())
    };
    (same, order)
}

// As many leading bytes as an entry may take.
pub(crate) fn capped(common: usize) -> usize
    ensures { result ≡ min SHARED_MAX common }
{
    if common < SHARED_MAX {
        common
    } else {
        SHARED_MAX
    }
}

// How many leading bytes an entry takes from the one before it.
#[tactic(auto, unfolding(crate::specs::Packed::shared))]
pub(crate) fn shared_of(before: &[u8], entry: &[u8]) -> u8
    ensures { result ≡ shared before.now entry.now }
{
    capped(common_length(before, entry)) as u8
}
