//! Items that are stored one after another, behind their number or not.

ghost use Rattle.std.specs.Prelude.{◌≡◌, ℕ, ◌^◌, ◌<◌, ◌++◌, List as Seq, Option as Maybe, length, All, IfOk, OnOk};
ghost use Rattle.std.specs.List.{flat_map};
ghost use Rattle.aria_page.specs.Field.{Gives};
ghost use Rattle.aria_page.specs.Items.{items_at, list_at, list_bytes};

use crate::list::{Bytes, List};
use crate::number::{push_u8, u8_at};
use std::alloc::{AllocError, Global};

/// What lists of a format are made of.
pub trait Stored: Sized + Drop {
    // The bytes that an item is stored in.
    ghost spelled: { Self → Seq ℕ };

    // Which items can be stored.
    ghost fits: { Self → Type 0 };

    // What holds of every item.
    ghost holds: { Self → Type 0 };

    // The item in front, and the bytes after it.
    ghost reads: { Seq ℕ → Maybe (Self × Seq ℕ) };

    /// Adds the bytes that the item is stored in.
    fn write(&self, out: &mut Bytes) -> Result<(), AllocError>
        requires { fits self.now }
        ensures spelled { OnOk result (out.new ≡ out.old ++ spelled self.now) }
        ensures holds { holds self.now };

    /// The item in front, and the bytes after it; `None` where none stands there.
    fn read(alloc: Global, bytes: &[u8]) -> Result<Option<(Self, &[u8])>, AllocError>
        ensures { IfOk result (λ r. Gives (λ x. (x.0, x.1.now)) r (reads bytes.now)) };
}

/// So many items one after another, and the bytes after them; `None` where one of them isn't there.
pub fn items_at<T: Stored>(
    alloc: Global,
    count: usize,
    bytes: &[u8],
) -> Result<Option<(List<T>, &[u8])>, AllocError>
    ensures { IfOk result (λ r. Gives (λ x. (x.0, x.1.now)) r (items_at T.reads count bytes.now)) }
{
    let mut items = List::new(alloc);
    let mut rest = bytes;
    for _ in 0..count {
        match T::read(alloc, rest)? {
            None => return Ok(None),
            Some((item, after)) => {
                items.push(item)?;
                rest = after;
            }
        }
    }
    Ok(Some((items, rest)))
}

/// The items behind 1 byte with their number, and the bytes after them; `None` where one of them isn't there.
#[tactic(auto, unfolding(crate::specs::Items::list_at))]
pub fn list_at<T: Stored>(
    alloc: Global,
    bytes: &[u8],
) -> Result<Option<(List<T>, &[u8])>, AllocError>
    ensures { IfOk result (λ r. Gives (λ x. (x.0, x.1.now)) r (list_at T.reads bytes.now)) }
{
    match u8_at(bytes) {
        None => Ok(None),
        Some((count, rest)) => items_at(alloc, count as usize, rest),
    }
}

/// Adds the items one after another.
pub fn push_items<T: Stored>(out: &mut Bytes, items: &[T]) -> Result<(), AllocError>
    requires { All T.fits items.now }
    ensures spelled { OnOk result (out.new ≡ out.old ++ flat_map T.spelled items.now) }
    ensures holds { OnOk result (All T.holds items.now) }
{
    for item in items {
        item.write(out)?;
    }
    Ok(())
}

/// Adds the items behind 1 byte with their number.
pub fn push_list<T: Stored>(out: &mut Bytes, items: &[T]) -> Result<(), AllocError>
    requires few { length items.now < 2 ^ 8 }
    requires fit { All T.fits items.now }
    ensures spelled { OnOk result (out.new ≡ out.old ++ list_bytes T.spelled items.now) }
    ensures holds { OnOk result (All T.holds items.now) }
{
    push_u8(out, items.len() as u8)?;
    push_items(out, items)
}
