//! The first pages of a table's two files (docs/FORMATS.md, "The header of an index file").

ghost use Rattle.std.specs.Prelude.{◌≡◌, ◌+◌, ◌-◌, ◌≤◌, ◌<◌, ◌⊎◌, ◌++◌, length, replicate, OnOk, IfOk, IfSome, if◌then◌else◌};
ghost use Rattle.aria_page.specs.declared.page.TheConstants.{BODY_BYTES};
ghost use Rattle.aria_page.specs.declared.page_kind.PageKind.TheVariants.{Dynamic, Bitmap};
ghost use Rattle.aria_page.specs.PageKind.{kind_byte};
ghost use Rattle.aria_page.specs.Lsn.{IsLsn};
ghost use Rattle.aria_page.specs.Page.{Sums, IsSound, page_body, page_lsn};
ghost use Rattle.aria_value.specs.Defined.{IsDefinition, HasNames};
ghost use Rattle.aria_value.specs.Header.{begins_header, definition_in, roots_in, header_of, read_header, IsHeader, new_header, new_front, new_fields, new_header_bytes, new_page, first_index_page, first_data_page};

use crate::definition::{Definition, MAX_KEYS};
use crate::definition_codec::{decode_definition, encode_definition};
use aria_page::{
    BODY_AT, Bytes, List, Lsn, Page, PageKind, bytes_at, bytes_from, flag, lsn_of,
    push_counted_u16, push_lsn, u16_of, u32_of, u40_of,
};
use std::alloc::{AllocError, Global};

/// What the first page of an index file says.
#[derive(Debug, Drop)]
pub struct Header {
    pub plain: bool,
    /// Whether a change of a plain table was begun, and its end isn't known.
    pub marked: bool,
    /// The log entry that made the table.
    pub created: Lsn,
    pub rows: u32,
    /// The first free page of the index file, 0 for none.
    pub free: u32,
    /// The first deleted block of a plain table, in units of 16 bytes; all ones for none.
    pub deleted: u64,
    /// The root page of each key's tree, 0 for an empty one.
    pub roots: [u32; MAX_KEYS],
    /// The end of a plain table's blocks, in units of 16 bytes.
    pub end: u64,
    pub definition: Definition,
    /// The format of the rows: in 2 each is kept with a checksum.
    pub format: u8,
}

// The places of the fields, from the body's first byte on.
const FORMAT_AT: usize = 9;

const PLAIN_AT: usize = 10;

const MARK_AT: usize = 11;

const CREATED_AT: usize = 12;

const ROWS_AT: usize = 19;

const FREE_AT: usize = 23;

const DELETED_AT: usize = 27;

const ROOTS_AT: usize = 32;

const END_AT: usize = 64;

const LENGTH_AT: usize = 69;

const DEFINITION_AT: usize = 71;

// The kind of the page, `PageKind::Header`, and the magic.
const FRONT: [u8; 9] = *b"\x01ARIAOWN1";

// Whether bytes 0 to 11 are those of a header.
#[tactic(auto, unfolding(crate::specs::Header::begins_header))]
fn begins_header(body: &[u8]) -> bool
    requires { length body.now ≡ BODY_BYTES }
    ensures { result ≡ begins_header body.now }
{
    body.starts_with(&FRONT)
        && (body[FORMAT_AT] == 1 || body[FORMAT_AT] == 2)
        && body[PLAIN_AT] <= 1
        && body[MARK_AT] <= body[PLAIN_AT]
}

// The definition behind its length.
#[tactic(auto, unfolding(crate::specs::Header::definition_in))]
fn definition_in(alloc: Global, body: &[u8]) -> Result<Option<Definition>, AllocError>
    requires { length body.now ≡ BODY_BYTES }
    ensures { IfOk result (λ r. r ≡ definition_in body.now) }
{
    let count = u16_of(bytes_from(body, LENGTH_AT));
    match bytes_at(bytes_from(body, DEFINITION_AT), count as usize) {
        None => Ok(None),
        Some((text, _)) => decode_definition(alloc, text),
    }
}

#[tactic(auto, unfolding(crate::specs::Header::roots_in))]
fn roots_in(body: &[u8]) -> [u32; MAX_KEYS]
    requires { length body.now ≡ BODY_BYTES }
    ensures { result ≡ roots_in body.now }
{
    [
        u32_of(bytes_from(body, ROOTS_AT)),
        u32_of(bytes_from(body, ROOTS_AT + 4)),
        u32_of(bytes_from(body, ROOTS_AT + 8)),
        u32_of(bytes_from(body, ROOTS_AT + 12)),
        u32_of(bytes_from(body, ROOTS_AT + 16)),
        u32_of(bytes_from(body, ROOTS_AT + 20)),
        u32_of(bytes_from(body, ROOTS_AT + 24)),
        u32_of(bytes_from(body, ROOTS_AT + 28)),
    ]
}

// The fields, each in its place.
#[tactic(auto, unfolding(crate::specs::Header::header_of))]
fn header_of(body: &[u8], definition: Definition) -> Header
    requires { length body.now ≡ BODY_BYTES }
    ensures { result ≡ header_of body.now definition }
{
    Header {
        plain: body[PLAIN_AT] == 1,
        marked: body[MARK_AT] == 1,
        created: lsn_of(bytes_from(body, CREATED_AT)),
        rows: u32_of(bytes_from(body, ROWS_AT)),
        free: u32_of(bytes_from(body, FREE_AT)),
        deleted: u40_of(bytes_from(body, DELETED_AT)),
        roots: roots_in(body),
        end: u40_of(bytes_from(body, END_AT)),
        definition,
        format: body[FORMAT_AT],
    }
}

#[tactic(auto, unfolding(crate::specs::Header::read_header))]
fn header_at(alloc: Global, body: &[u8]) -> Result<Option<Header>, AllocError>
    requires { length body.now ≡ BODY_BYTES }
    ensures { IfOk result (λ r. r ≡ read_header body.now) }
{
    if !begins_header(body) {
        return Ok(None);
    }
    match definition_in(alloc, body)? {
        None => Ok(None),
        Some(definition) => Ok(Some(header_of(body, definition))),
    }
}

// The header that a body spells.
fn header_in(alloc: Global, body: &[u8]) -> Result<Option<Header>, AllocError>
    requires { length body.now ≡ BODY_BYTES }
    ensures read { IfOk result (λ r. r ≡ read_header body.now) }
    ensures is { IfOk result (λ r. IfSome r IsHeader) }
{
    header_at(alloc, body)
}

/// What the first page of an index file says; `None` where it isn't sound, or spells no header.
pub fn read_header(alloc: Global, page: &Page) -> Result<Option<Header>, AllocError>
    ensures unsound { (IsSound page.now → ⊥) → IfOk result (λ r. r ≡ None) }
    ensures read { IsSound page.now → IfOk result (λ r. r ≡ read_header (page_body page.now)) }
    ensures is { IfOk result (λ r. IfSome r IsHeader) }
{
    if !page.is_sound() {
        return Ok(None);
    }
    header_in(alloc, page.body())
}

// The first 12 bytes of a new table's header.
fn front(plain: bool, format: u8) -> [u8; 12]
    ensures { result ≡ new_front plain format }
{
    let [a, b, c, d, e, f, g, h, i] = FRONT;
    [a, b, c, d, e, f, g, h, i, format, flag(plain), 0]
}

fn push_front(out: &mut Bytes, plain: bool, format: u8) -> Result<(), AllocError>
    ensures { OnOk result (out.new ≡ out.old ++ new_front plain format) }
{
    out.extend_from_slice(&front(plain, format))
}

fn no_block(plain: bool) -> u8
    ensures { result ≡ (if plain then 255 else 0) }
{
    if plain { 255 } else { 0 }
}

// No rows, no free page, no deleted block, no trees and no blocks.
fn push_fields(out: &mut Bytes, plain: bool) -> Result<(), AllocError>
    ensures { OnOk result (out.new ≡ out.old ++ new_fields plain) }
{
    out.extend_from_slice(&[0; 8])?;
    out.extend_from_slice(&[no_block(plain); 5])?;
    out.extend_from_slice(&[0; 37])
}

// The body of a new table's header, up to where zeros follow.
#[tactic(auto, unfolding(crate::specs::Header::new_header_bytes))]
fn new_header(
    alloc: Global,
    definition: &Definition,
    plain: bool,
    created: Lsn,
    format: u8,
) -> Result<Bytes, AllocError>
    requires { IsDefinition definition.now }
    ensures spelled { IfOk result (λ bytes. bytes ≡ new_header_bytes definition.now plain created format) }
    ensures names { IfOk result (λ bytes. HasNames definition.now) }
    ensures length { IfOk result (λ bytes. length bytes ≤ BODY_BYTES) }
{
    let stored = encode_definition(alloc, definition)?;
    let mut out = List::new(alloc);
    push_front(&mut out, plain, format)?;
    push_lsn(&mut out, created)?;
    push_fields(&mut out, plain)?;
    push_counted_u16(&mut out, stored.as_slice())?;
    Ok(out)
}

// A page of zeros but for these bytes at the beginning of its body.
#[tactic(auto, unfolding(crate::specs::Header::new_page))]
fn new_page(bytes: &[u8], created: Lsn) -> Page
    requires { length bytes.now ≤ BODY_BYTES }
    ensures page { result ≡ new_page bytes.now created }
    ensures sums { Sums result }
    ensures lsn { IsLsn created → page_lsn result ≡ created }
    ensures body { page_body result ≡ bytes.now ++ replicate (BODY_BYTES - length bytes.now) 0 }
{
    let mut page = Page::zero();
    page.put(BODY_AT, bytes);
    page.seal(created);
    page
}

// The kind of the first page of a data file: a page of dynamic rows, or a bitmap page.
fn kind_of(plain: bool) -> u8
    ensures { result ≡ (if plain then kind_byte Dynamic else kind_byte Bitmap) }
{
    if plain {
        PageKind::Dynamic.to_byte()
    } else {
        PageKind::Bitmap.to_byte()
    }
}

/// The first pages of the index file and of the data file of a new table of the format, 1 or 2.
pub fn first_pages(
    alloc: Global,
    definition: &Definition,
    plain: bool,
    created: Lsn,
    format: u8,
) -> Result<(Page, Page), AllocError>
    requires definition { IsDefinition definition.now }
    requires format { (format ≡ 1) ⊎ (format ≡ 2) }
    ensures index { IfOk result (λ pages. pages.0 ≡ first_index_page definition.now plain created format) }
    ensures data { IfOk result (λ pages. pages.1 ≡ first_data_page plain created) }
    ensures sums { IfOk result (λ pages. Sums pages.0 × Sums pages.1) }
    ensures lsn { IsLsn created → IfOk result (λ pages. (page_lsn pages.0 ≡ created) × (page_lsn pages.1 ≡ created)) }
    // What the first one says.
    ensures read { IsLsn created → IfOk result (λ pages. read_header (page_body pages.0) ≡ Some (new_header definition.now plain created format)) }
{
    let header = new_header(alloc, definition, plain, created, format)?;
    let index = new_page(header.as_slice(), created);
    let data = new_page(&[kind_of(plain)], created);
    Ok((index, data))
}
