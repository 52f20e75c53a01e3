ghost use Rattle.std.specs.Prelude.{◌≡◌, ◌+◌, ◌*◌, ◌/◌, ◌<◌, ◌≤◌, length, IfOk};
ghost use Rattle.aria_page.specs.declared.page.TheConstants.{BODY_BYTES, PAGE_BYTES};
ghost use Rattle.aria_page.specs.Page.{page_body, with_body, with_bytes};
ghost use Rattle.aria_page.specs.Edit.{IsWithin, edit_bytes, edited};
ghost use Rattle.aria_bitmap.specs.Pattern.{pattern, SetsPattern};

use crate::group::{
    CODES, GROUP_BYTES, GROUP_PATTERNS, GROUPS_AT, PATTERNS, digit, group, group_bytes, with_digit,
};
use aria_page::{BODY_AT, Bytes, Edit, Page};
use std::alloc::{AllocError, Global};

// The pattern with this number.
#[tactic(auto, unfolding(crate::specs::Pattern::pattern))]
pub fn pattern(body: &[u8], nth: u32) -> u8
    requires body { length body.now ≡ BODY_BYTES }
    requires nth { nth < PATTERNS }
    ensures value { result ≡ pattern body.now nth }
    ensures fits { result < CODES }
{
    digit(group(body, nth / GROUP_PATTERNS), nth % GROUP_PATTERNS)
}

// The place in the body of the group that has this pattern.
fn place(nth: u32) -> usize
    requires { nth < PATTERNS }
    ensures { result ≡ GROUPS_AT + GROUP_BYTES * (nth / GROUP_PATTERNS) }
{
    GROUPS_AT + GROUP_BYTES * (nth / GROUP_PATTERNS) as usize
}

// The bytes that the pattern's group has to become.
fn changed(body: &[u8], nth: u32, code: u8) -> [u8; GROUP_BYTES]
    requires body { length body.now ≡ BODY_BYTES }
    requires nth { nth < PATTERNS }
    requires code { code < CODES }
    ensures sets { SetsPattern nth code body.now (with_bytes (GROUPS_AT + GROUP_BYTES * (nth / GROUP_PATTERNS)) result body.now) }
    ensures len { length result ≡ GROUP_BYTES }
{
    let old = group(body, nth / GROUP_PATTERNS);
    group_bytes(with_digit(old, nth % GROUP_PATTERNS, code))
}

/// The pattern with this number.
pub fn get(bitmap: &Page, nth: u32) -> u8
    requires { nth < PATTERNS }
    ensures value { result ≡ pattern (page_body bitmap.now) nth }
    ensures fits { result < CODES }
{
    pattern(bitmap.body(), nth)
}

/// Sets the pattern with this number. The checksum and the log sequence number stay as they were.
pub fn set(bitmap: &mut Page, nth: u32, code: u8)
    requires nth { nth < PATTERNS }
    requires code { code < CODES }
    ensures sets { SetsPattern nth code (page_body bitmap.old) (page_body bitmap.new) }
    ensures body_alone { bitmap.new ≡ with_body (page_body bitmap.new) bitmap.old }
    ensures len { length bitmap.new ≡ PAGE_BYTES }
{
    let bytes = changed(bitmap.body(), nth, code);
    bitmap.put(BODY_AT + place(nth), &bytes);
}

/// Three bytes of a bitmap page's body, those of a group of patterns, and their place there.
#[derive(Clone, Copy)]
pub struct GroupBytes {
    pub at: u16,
    pub bytes: [u8; GROUP_BYTES],
}

/// What has to be put in the body to set the pattern with this number.
pub fn set_bytes(bitmap: &Page, nth: u32, code: u8) -> GroupBytes
    requires nth { nth < PATTERNS }
    requires code { code < CODES }
    ensures within { result.at + GROUP_BYTES ≤ BODY_BYTES }
    ensures len { length result.bytes ≡ GROUP_BYTES }
    ensures sets { SetsPattern nth code (page_body bitmap.now) (with_bytes result.at result.bytes (page_body bitmap.now)) }
{
    let bytes = changed(bitmap.body(), nth, code);
    GroupBytes {
        at: place(nth) as u16,
        bytes,
    }
}

/// The edit that sets the pattern with this number: three bytes, those of its group.
pub fn set_edit(alloc: Global, bitmap: &Page, nth: u32, code: u8) -> Result<Edit, AllocError>
    requires nth { nth < PATTERNS }
    requires code { code < CODES }
    ensures within { IfOk result (λ edit. IsWithin edit) }
    ensures bytes { IfOk result (λ edit. edit_bytes edit ≤ GROUP_BYTES) }
    ensures sets { IfOk result (λ edit. SetsPattern nth code (page_body bitmap.now) (edited edit (page_body bitmap.now))) }
{
    let bytes = changed(bitmap.body(), nth, code);
    Ok(Edit::Set {
        at: place(nth) as u16,
        bytes: Bytes::from_slice(alloc, &bytes)?,
    })
}
