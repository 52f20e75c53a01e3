//! How many bytes of a row go where.

ghost use Rattle.std.specs.Prelude.{◌≡◌, ◌≤◌, ℕ, List, length};
ghost use Rattle.aria_block.specs.declared.layout.TheConstants.{BLOB_ROW as BlobRow, ROW_MAX};
ghost use Rattle.aria_block.specs.Pieces.{head_size, left_size, tail_size, blob_count, blob_of};

use crate::layout::{BLOB_ROW, HEAD_ROW, TAIL_MAX, WHOLE_MAX};

/// How many row bytes a head has.
pub(crate) fn head_size(len: usize) -> usize
    ensures size { result ≡ head_size len }
    ensures within { result ≤ len }
{
    if len <= WHOLE_MAX {
        return len;
    }
    HEAD_ROW
}

// How many row bytes are left behind those of the head and of full blob pages.
fn left_size(len: usize) -> usize
    ensures { result ≡ left_size len }
{
    (len - head_size(len)) % BLOB_ROW
}

/// How many row bytes a tail has; 0 where the row has none.
pub(crate) fn tail_size(len: usize) -> usize
    ensures { result ≡ tail_size len }
{
    let left = left_size(len);
    if left <= TAIL_MAX {
        return left;
    }
    0
}

/// How many blob pages there are.
pub(crate) fn blob_count(len: usize) -> usize
    ensures { result ≡ blob_count len }
{
    let full = (len - head_size(len)) / BLOB_ROW;
    if left_size(len) <= TAIL_MAX {
        return full;
    }
    full + 1
}

/// How many row bytes the k-th blob page has.
pub(crate) fn blob_size(len: usize, k: u8) -> usize
    requires { len ≤ ROW_MAX }
    ensures size { (row : List ℕ) → length row ≡ len → result ≡ length (blob_of row k) }
    ensures most { result ≤ BLOB_ROW }
{
    let from = head_size(len) + BLOB_ROW * k as usize;
    (len - tail_size(len)).saturating_sub(from).min(BLOB_ROW)
}
