//! Which bytes of a row go where.

ghost use Rattle.std.specs.Prelude.{◌≡◌, ◌+◌, ◌<◌, ◌≤◌, ◌++◌, length, take, drop};
ghost use Rattle.arrayvec.specs.ArrayVec.{array_vec_len};
ghost use Rattle.aria_page.specs.declared.place.Place.{Place as At};
ghost use Rattle.aria_page.specs.Number.{number};
ghost use Rattle.aria_block.specs.declared.layout.TheConstants.{ROW_MAX, WHOLE_MAX, BLOB_ROW, TAIL_MAX, BLOBS_MAX, HEAD_FIELDS, HEAD_MAX};
ghost use Rattle.aria_block.specs.Pieces.{head_size, left_size, tail_size, blob_count, tail_bytes, head_of, tail_of, blob_of};

use crate::layout::{BLOB_ROW, HEAD_MAX, HEAD_ROW, TAIL_MAX, WHOLE_MAX};
use aria_page::{Place, u32_bytes};
use arrayvec::ArrayVec;

// How many row bytes the head has.
pub(crate) fn head_size(n: usize) -> usize
    ensures { result ≡ head_size n }
{
    if n <= WHOLE_MAX { n } else { HEAD_ROW }
}

// How many row bytes are left behind those of the head and of full blob pages.
fn left_size(n: usize) -> usize
    ensures { result ≡ left_size n }
{
    n.saturating_sub(head_size(n)) % BLOB_ROW
}

// How many row bytes the tail has.
pub(crate) fn tail_size(n: usize) -> usize
    ensures is { result ≡ tail_size n }
    ensures few { result ≤ TAIL_MAX }
{
    let left = left_size(n);
    if left <= TAIL_MAX { left } else { 0 }
}

// The number of blob pages.
pub(crate) fn blob_count(n: usize) -> u32
    requires { n ≤ ROW_MAX }
    ensures is { result ≡ blob_count n }
    ensures few { result ≤ BLOBS_MAX }
{
    let full = (n.saturating_sub(head_size(n)) / BLOB_ROW) as u32;
    if left_size(n) <= TAIL_MAX {
        full
    } else {
        full + 1
    }
}

// The bytes of a row's tail.
#[tactic(auto, unfolding(crate::specs::Pieces::tail_of))]
pub(crate) fn last_bytes(row: &[u8]) -> &[u8]
    ensures is { result.now ≡ tail_of row.now }
    ensures len { length result.now ≡ tail_size (length row.now) }
{
    let from = row.len().saturating_sub(tail_size(row.len()));
    &row[from..]
}

// The bytes from a place on.
fn behind(bytes: &[u8], from: usize) -> &[u8]
    requires { from ≤ length bytes.now }
    ensures { result.now ≡ drop from bytes.now }
{
    &bytes[from..]
}

// The bytes in front, as many as a blob page has.
fn page_bytes(bytes: &[u8]) -> &[u8]
    ensures is { result.now ≡ take BLOB_ROW bytes.now }
    ensures few { length result.now ≤ BLOB_ROW }
{
    if bytes.len() <= BLOB_ROW {
        return bytes;
    }
    &bytes[..BLOB_ROW]
}

// The bytes of a row on its blob page with this number.
#[tactic(auto, using(crate::proofs::Sizes::blob_from), unfolding(crate::specs::Pieces::blob_of))]
pub(crate) fn blob_bytes(row: &[u8], nth: u32) -> &[u8]
    requires low { nth < blob_count (length row.now) }
    requires long { WHOLE_MAX < length row.now }
    requires few { length row.now ≤ ROW_MAX }
    ensures is { result.now ≡ blob_of row.now nth }
    ensures few { length result.now ≤ BLOB_ROW }
{
    let end = row.len().saturating_sub(tail_size(row.len()));
    let from = head_size(row.len()) + BLOB_ROW * nth as usize;
    page_bytes(behind(&row[..end], from))
}

// Adds bytes to a head that has room for them.
fn add(head: &mut ArrayVec<u8, HEAD_MAX>, bytes: &[u8])
    requires { array_vec_len head.old + length bytes.now ≤ HEAD_MAX }
    ensures items { head.new.items ≡ head.old.items ++ bytes.now }
    ensures len { array_vec_len head.new ≡ array_vec_len head.old + length bytes.now }
{
    let Ok(()) = head.try_extend_from_slice(bytes) else {
        unreachable!();
    };
}

// Adds a page and the number that goes with it.
fn add_page(head: &mut ArrayVec<u8, HEAD_MAX>, page: u32, nth: u8)
    requires { array_vec_len head.old + 5 ≤ HEAD_MAX }
    ensures items { head.new.items ≡ head.old.items ++ (number 4 page ++ number 1 nth) }
    ensures len { array_vec_len head.new ≡ array_vec_len head.old + 5 }
{
    add(head, &u32_bytes(page));
    add(head, &[nth]);
}

// Adds the place of a tail.
fn add_tail(head: &mut ArrayVec<u8, HEAD_MAX>, tail: Option<Place>)
    requires { array_vec_len head.old + 5 ≤ HEAD_MAX }
    ensures items { head.new.items ≡ head.old.items ++ tail_bytes tail }
    ensures len { array_vec_len head.new ≡ array_vec_len head.old + 5 }
{
    match tail {
        None => add_page(head, 0, 0),
        Some(place) => add_page(head, place.page, place.slot),
    }
}

/// The bytes of a row's head.
pub(crate) fn head_bytes(
    row: &[u8],
    tail: Option<Place>,
    blob: u32,
    blobs: u8,
) -> ArrayVec<u8, HEAD_MAX>
    requires few { length row.now ≤ ROW_MAX }
    ensures is { (head : At) → result.items ≡ head_of (record { head = head; tail = tail; blob = blob; blobs = blobs }) row.now }
    ensures len { length result.items ≡ HEAD_FIELDS + head_size (length row.now) }
{
    let mut head = ArrayVec::new();
    add(&mut head, &u32_bytes(row.len() as u32));
    add_tail(&mut head, tail);
    add_page(&mut head, blob, blobs);
    add(&mut head, &row[..head_size(row.len())]);
    head
}
