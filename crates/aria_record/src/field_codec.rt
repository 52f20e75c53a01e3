//! Fields of records: where rows, keys and pages lie, and what a table is.

ghost use Rattle.std.specs.Prelude.{◌≡◌, ◌⊎◌, ◌++◌, OnOk};
ghost use Rattle.aria_page.specs.Field.{Gives};
ghost use Rattle.aria_page.specs.Number.{number};
ghost use Rattle.aria_page.specs.Lsn.{lsn_bytes};
ghost use Rattle.aria_page.specs.Text.{name_bytes};
ghost use Rattle.aria_record.specs.Spelled.{part_bytes, place_bytes, tail_bytes, places_bytes, table_number, row_head, key_head};
ghost use Rattle.aria_record.specs.Reading.{part_of, read_part, read_page, read_place, read_tail, read_blobs, read_places, read_row_head, read_key, read_key_head, table_of, read_table};

use aria_page::{
    Bytes, Lsn, Name, Part, Place, Places, lsn_at, name_at, push_lsn, push_name, push_u8, push_u32,
    push_u40, u8_at, u32_at, u40_at,
};
use aria_value::MAX_KEYS;
use std::alloc::AllocError;

pub(crate) fn push_part(out: &mut Bytes, part: Part) -> Result<(), AllocError>
    ensures { OnOk result (out.new ≡ out.old ++ part_bytes part) }
{
    match part {
        Part::Keys => push_u8(out, 0),
        Part::Rows => push_u8(out, 1),
    }
}

fn part_of(number: u8) -> Option<Part>
    ensures { result ≡ part_of number }
{
    match number {
        0 => Some(Part::Keys),
        1 => Some(Part::Rows),
        _ => None,
    }
}

#[tactic(auto, unfolding(crate::specs::Reading::read_part, crate::specs::Reading::read_as))]
pub(crate) fn part_at(bytes: &[u8]) -> Option<(Part, &[u8])>
    ensures { Gives (λ x. (x.0, x.1.now)) result (read_part bytes.now) }
{
    let (number, rest) = u8_at(bytes)?;
    let part = part_of(number)?;
    Some((part, rest))
}

// A page number is below 2^31.
#[tactic(auto, unfolding(crate::specs::Reading::read_page, crate::specs::Reading::read_as))]
pub(crate) fn page_at(bytes: &[u8]) -> Option<(u32, &[u8])>
    ensures { Gives (λ x. (x.0, x.1.now)) result (read_page bytes.now) }
{
    let (page, rest) = u32_at(bytes)?;
    if page < 1 << 31 {
        Some((page, rest))
    } else {
        None
    }
}

fn push_place(out: &mut Bytes, place: Place) -> Result<(), AllocError>
    ensures { OnOk result (out.new ≡ out.old ++ place_bytes place) }
{
    push_u32(out, place.page)?;
    push_u8(out, place.slot)
}

#[tactic(auto, unfolding(crate::specs::Reading::read_place, crate::specs::Reading::read_as, crate::specs::Reading::read_both))]
fn place_at(bytes: &[u8]) -> Option<(Place, &[u8])>
    ensures { Gives (λ x. (x.0, x.1.now)) result (read_place bytes.now) }
{
    let (page, rest) = page_at(bytes)?;
    let (slot, rest) = u8_at(rest)?;
    Some((Place { page, slot }, rest))
}

fn push_tail(out: &mut Bytes, tail: Option<Place>) -> Result<(), AllocError>
    ensures { OnOk result (out.new ≡ out.old ++ tail_bytes tail) }
{
    match tail {
        None => {
            push_u32(out, 0)?;
            push_u8(out, 0)
        }
        Some(place) => push_place(out, place),
    }
}

// Page 0 stands for no tail, and its slot is then 0.
#[tactic(auto, unfolding(crate::specs::Reading::read_tail, crate::specs::Reading::read_as))]
fn tail_at(bytes: &[u8]) -> Option<(Option<Place>, &[u8])>
    ensures { Gives (λ x. (x.0, x.1.now)) result (read_tail bytes.now) }
{
    let (place, rest) = place_at(bytes)?;
    if place.page != 0 {
        return Some((Some(place), rest));
    }
    if place.slot == 0 {
        Some((None, rest))
    } else {
        None
    }
}

fn push_blobs(out: &mut Bytes, blob: u32, blobs: u8) -> Result<(), AllocError>
    ensures { OnOk result (out.new ≡ out.old ++ (number 4 blob ++ number 1 blobs)) }
{
    push_u32(out, blob)?;
    push_u8(out, blobs)
}

// The first blob page and the number of blob pages. Without blob pages the first of them is 0.
#[tactic(auto, unfolding(crate::specs::Reading::read_blobs, crate::specs::Reading::read_as, crate::specs::Reading::read_both))]
fn blobs_at(bytes: &[u8]) -> Option<((u32, u8), &[u8])>
    ensures { Gives (λ x. (x.0, x.1.now)) result (read_blobs bytes.now) }
{
    let (blob, rest) = page_at(bytes)?;
    let (blobs, rest) = u8_at(rest)?;
    if blobs == 0 && blob != 0 {
        return None;
    }
    Some(((blob, blobs), rest))
}

fn push_tail_and_blobs(
    out: &mut Bytes,
    tail: Option<Place>,
    blob: u32,
    blobs: u8,
) -> Result<(), AllocError>
    ensures { OnOk result (out.new ≡ out.old ++ (tail_bytes tail ++ (number 4 blob ++ number 1 blobs))) }
{
    push_tail(out, tail)?;
    push_blobs(out, blob, blobs)
}

pub(crate) fn push_places(out: &mut Bytes, places: Places) -> Result<(), AllocError>
    ensures { OnOk result (out.new ≡ out.old ++ places_bytes places) }
{
    push_place(out, places.head)?;
    push_tail_and_blobs(out, places.tail, places.blob, places.blobs)
}

#[tactic(auto, unfolding(crate::specs::Reading::read_places, crate::specs::Reading::read_as, crate::specs::Reading::read_both))]
fn places_at(bytes: &[u8]) -> Option<(Places, &[u8])>
    ensures { Gives (λ x. (x.0, x.1.now)) result (read_places bytes.now) }
{
    let (head, rest) = place_at(bytes)?;
    let (tail, rest) = tail_at(rest)?;
    let ((blob, blobs), rest) = blobs_at(rest)?;
    let places = Places {
        head,
        tail,
        blob,
        blobs,
    };
    Some((places, rest))
}

fn push_lsn_places(out: &mut Bytes, prev: Lsn, places: Places) -> Result<(), AllocError>
    ensures { OnOk result (out.new ≡ out.old ++ (lsn_bytes prev ++ places_bytes places)) }
{
    push_lsn(out, prev)?;
    push_places(out, places)
}

pub(crate) fn push_row_head(
    out: &mut Bytes,
    table: &Name,
    prev: Lsn,
    places: Places,
) -> Result<(), AllocError>
    ensures { OnOk result (out.new ≡ out.old ++ row_head table.now prev places) }
{
    push_name(out, table)?;
    push_lsn_places(out, prev, places)
}

// The table, the undo record before this one, and the places of a row.
#[tactic(auto, unfolding(crate::specs::Reading::read_row_head, crate::specs::Reading::read_both))]
pub(crate) fn row_head_at(bytes: &[u8]) -> Option<((Name, Lsn, Places), &[u8])>
    ensures { Gives (λ x. ((x.0.0, (x.0.1, x.0.2)), x.1.now)) result (read_row_head bytes.now) }
{
    match name_at(bytes) {
        None => None,
        Some((table, rest)) => {
            let (prev, rest) = lsn_at(rest)?;
            let (places, rest) = places_at(rest)?;
            Some(((table, prev, places), rest))
        }
    }
}

#[tactic(auto, unfolding(crate::specs::Reading::read_key, crate::specs::Reading::read_as))]
fn key_at(bytes: &[u8]) -> Option<(u8, &[u8])>
    ensures { Gives (λ x. (x.0, x.1.now)) result (read_key bytes.now) }
{
    let (key, rest) = u8_at(bytes)?;
    if (key as usize) < MAX_KEYS {
        Some((key, rest))
    } else {
        None
    }
}

fn push_target(out: &mut Bytes, key: u8, target: u64) -> Result<(), AllocError>
    ensures { OnOk result (out.new ≡ out.old ++ (number 1 key ++ number 5 target)) }
{
    push_u8(out, key)?;
    push_u40(out, target)
}

fn push_lsn_target(out: &mut Bytes, prev: Lsn, key: u8, target: u64) -> Result<(), AllocError>
    ensures { OnOk result (out.new ≡ out.old ++ (lsn_bytes prev ++ (number 1 key ++ number 5 target))) }
{
    push_lsn(out, prev)?;
    push_target(out, key, target)
}

pub(crate) fn push_key_head(
    out: &mut Bytes,
    table: &Name,
    prev: Lsn,
    key: u8,
    target: u64,
) -> Result<(), AllocError>
    ensures { OnOk result (out.new ≡ out.old ++ key_head table.now prev key target) }
{
    push_name(out, table)?;
    push_lsn_target(out, prev, key, target)
}

// The table, the undo record before this one, the key and the target of an entry of a key.
#[tactic(auto, unfolding(crate::specs::Reading::read_key_head, crate::specs::Reading::read_both))]
pub(crate) fn key_head_at(bytes: &[u8]) -> Option<((Name, Lsn, u8, u64), &[u8])>
    ensures { Gives (λ x. ((x.0.0, (x.0.1, (x.0.2, x.0.3))), x.1.now)) result (read_key_head bytes.now) }
{
    match name_at(bytes) {
        None => None,
        Some((table, rest)) => {
            let (prev, rest) = lsn_at(rest)?;
            let (key, rest) = key_at(rest)?;
            let (target, rest) = u40_at(rest)?;
            Some(((table, prev, key, target), rest))
        }
    }
}

pub(crate) fn table_number(plain: bool, format: u8) -> u8
    requires { (format ≡ 1) ⊎ (format ≡ 2) }
    ensures { result ≡ table_number plain format }
{
    match (plain, format) {
        (false, 1) => 0,
        (true, 1) => 1,
        (false, _) => 2,
        (true, _) => 3,
    }
}

fn table_of(number: u8) -> Option<(bool, u8)>
    ensures { result ≡ table_of number }
{
    match number {
        0 => Some((false, 1)),
        1 => Some((true, 1)),
        2 => Some((false, 2)),
        3 => Some((true, 2)),
        _ => None,
    }
}

// Whether a table is plain, and its format.
#[tactic(auto, unfolding(crate::specs::Reading::read_table, crate::specs::Reading::read_as))]
pub(crate) fn table_at(bytes: &[u8]) -> Option<((bool, u8), &[u8])>
    ensures { Gives (λ x. (x.0, x.1.now)) result (read_table bytes.now) }
{
    let (number, rest) = u8_at(bytes)?;
    let table = table_of(number)?;
    Some((table, rest))
}
