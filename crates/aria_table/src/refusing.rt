//! Whether a row may be put beside those of a table.

ghost use Rattle.std.specs.Prelude.{◌≡◌, ◌<◌, ℕ, Bool, List, Some, None, IsTrue, IfOk, nat_le, ◌^◌};
ghost use Rattle.aria_model.specs.declared.refusal.Refusal.TheVariants.{TableFull, Duplicate, RowsFull};
ghost use Rattle.aria_model.specs.Step.{refused_where, first_key_name};
ghost use Rattle.aria_value.specs.Defined.{IsDefinition};
ghost use Rattle.aria_value.specs.Rows.{is_row};
ghost use Rattle.aria_value.specs.Entry.{entry_bytes};
ghost use Rattle.aria_cache.specs.Calls.{fault_of, Answers, Loads};
ghost use Rattle.aria_cache.specs.Causes.{HasPagesCause};
ghost use Rattle.aria_block.specs.Causes.{rows_file};
ghost use Rattle.aria_key.specs.Reading.{keys_file, OfTree};
ghost use Rattle.aria_key.specs.Ahead.{HasKey};
ghost use Rattle.aria_key.specs.WayUp.{IsPresent};
ghost use Rattle.aria_table.specs.Content.{Content};
ghost use Rattle.aria_table.specs.Step.{HoldsContent};
ghost use Rattle.aria_table.specs.Refusing.{has_entry, unplaced, full, insert_refusal};

use crate::counting::rows_of;
use crate::row_check::unfit;
use aria_cache::Pages;
use aria_host::{Fault, FileName};
use aria_key::first_with_prefix;
use aria_model::Refusal;
use aria_page::Part;
use aria_value::{Definition, Row};
use std::alloc::Global;

// From so many pages on a file takes no row more.
const FULL_PAGES: u32 = 1 << 30;

/// Whether an entry of a key begins with a prefix.
pub(crate) fn has_entry<P: Pages>(
    alloc: Global,
    pages: &mut P,
    slot: u32,
    key: u8,
    prefix: &[u8],
) -> Result<bool, Fault>
    requires stands { P.stands pages.old }
    requires open { IsTrue ((P.state pages.old).is_open slot) }
    ensures stands { P.stands pages.new }
    ensures moves { P.stays pages.old pages.new }
    ensures loads { Loads P.tells 80 (P.state pages.old) (P.state pages.new) }
    ensures has { IsTrue P.tells → (is_row : List ℕ → Bool) (keys : ℕ) (c : Content) → HoldsContent is_row keys slot (P.state pages.old) c → key < keys → IfOk result (λ found. found ≡ has_entry prefix.now (c.walks key)) }
    ensures answers { Answers (P.state pages.old) (P.state pages.new) (fault_of result) }
    ensures cause { HasPagesCause (OfTree P.tells P.logged (HasKey (P.state pages.old) (keys_file (P.state pages.old) slot) key) (keys_file (P.state pages.old) slot) (P.state pages.old) (P.state pages.new)) (P.state pages.old) (P.state pages.new) (fault_of result) }
{
    let _file = FileName::Control;
    let found = first_with_prefix(alloc, pages, slot, key, prefix)?;
    Ok(found.is_some())
}

/// The number of rows of a table.
pub(crate) fn row_count<P: Pages>(alloc: Global, pages: &mut P, slot: u32) -> Result<u32, Fault>
    requires stands { P.stands pages.old }
    requires open { IsTrue ((P.state pages.old).is_open slot) }
    ensures stands { P.stands pages.new }
    ensures moves { P.stays pages.old pages.new }
    ensures loads { Loads P.tells 1 (P.state pages.old) (P.state pages.new) }
    ensures count { IsTrue P.tells → (is_row : List ℕ → Bool) (keys : ℕ) (c : Content) → HoldsContent is_row keys slot (P.state pages.old) c → IfOk result (λ n. n ≡ c.rows) }
    ensures answers { Answers (P.state pages.old) (P.state pages.new) (fault_of result) }
    ensures cause { HasPagesCause (OfTree P.tells P.logged (IsPresent (P.state pages.old) (keys_file (P.state pages.old) slot) 0) (keys_file (P.state pages.old) slot) (P.state pages.old) (P.state pages.new)) (P.state pages.old) (P.state pages.new) (fault_of result) }
{
    let _file = FileName::Control;
    let rows = rows_of(alloc, pages, slot)?;
    Ok(rows)
}

// Full, where a file has so many pages.
fn full_at(count: u32) -> Option<Refusal>
    ensures { result ≡ refused_where (nat_le (2 ^ 30) count) (TableFull count) }
{
    if count >= FULL_PAGES {
        return Some(Refusal::TableFull { pages: count });
    }
    None
}

// The refusal where one of the two files has all the pages that it may have.
fn full<P: Pages>(pages: &P, slot: u32) -> Option<Refusal>
    requires stands { P.stands pages.now }
    requires open { IsTrue ((P.state pages.now).is_open slot) }
    ensures { result ≡ full ((P.state pages.now).counts (keys_file (P.state pages.now) slot)) ((P.state pages.now).counts (rows_file (P.state pages.now) slot)) }
{
    match full_at(pages.count(slot, Part::Keys)) {
        Some(why) => Some(why),
        None => full_at(pages.count(slot, Part::Rows)),
    }
}

// The refusal of a row whose values another row has in the first key.
fn duplicate(definition: &Definition) -> Refusal
    requires { IsDefinition definition.now }
    ensures { result ≡ Duplicate (first_key_name definition.now.keys) }
{
    Refusal::Duplicate {
        key: definition.keys.as_slice()[0].name,
    }
}

// Full, where a table has so many rows.
fn rows_full(definition: &Definition, rows: u32) -> Option<Refusal>
    ensures { result ≡ refused_where (nat_le definition.now.max_rows rows) RowsFull }
{
    if rows >= definition.max_rows {
        return Some(Refusal::RowsFull);
    }
    None
}

// The refusal of a row with this entry in the first key beside the rows of the table, which are so many.
fn unplaced<P: Pages>(
    alloc: Global,
    pages: &mut P,
    slot: u32,
    definition: &Definition,
    entry: &[u8],
    rows: u32,
) -> Result<Option<Refusal>, Fault>
    requires stands { P.stands pages.old }
    requires open { IsTrue ((P.state pages.old).is_open slot) }
    requires defined { IsDefinition definition.now }
    ensures stands { P.stands pages.new }
    ensures moves { P.stays pages.old pages.new }
    ensures loads { Loads P.tells 80 (P.state pages.old) (P.state pages.new) }
    ensures refusal { IsTrue P.tells → (is_row : List ℕ → Bool) (keys : ℕ) (c : Content) → HoldsContent is_row keys slot (P.state pages.old) c → 0 < keys → rows ≡ c.rows → IfOk result (λ r. r ≡ unplaced definition.now c entry.now) }
    ensures answers { Answers (P.state pages.old) (P.state pages.new) (fault_of result) }
    ensures cause { HasPagesCause (OfTree P.tells P.logged (HasKey (P.state pages.old) (keys_file (P.state pages.old) slot) 0) (keys_file (P.state pages.old) slot) (P.state pages.old) (P.state pages.new)) (P.state pages.old) (P.state pages.new) (fault_of result) }
{
    let _file = FileName::Control;
    if has_entry(alloc, pages, slot, 0, entry)? {
        return Ok(Some(duplicate(definition)));
    }
    Ok(rows_full(definition, rows))
}

/// The refusal of a row that is to be put into a table, if there is one. `entry` is that of the row in the first key.
/// Nothing is changed.
pub(crate) fn refuse_insert<P: Pages>(
    alloc: Global,
    pages: &mut P,
    slot: u32,
    definition: &Definition,
    row: &Row,
    entry: &[u8],
) -> Result<Option<Refusal>, Fault>
    requires stands { P.stands pages.old }
    requires open { IsTrue ((P.state pages.old).is_open slot) }
    requires defined { IsDefinition definition.now }
    ensures stands { P.stands pages.new }
    ensures moves { P.stays pages.old pages.new }
    ensures loads { Loads P.tells 81 (P.state pages.old) (P.state pages.new) }
    ensures refusal { IsTrue P.tells → (is_row : List ℕ → Bool) (keys : ℕ) (c : Content) → HoldsContent is_row keys slot (P.state pages.old) c → 0 < keys → entry.now ≡ entry_bytes definition.now 0 row.now
        → IfOk result (λ r. r ≡ insert_refusal definition.now c ((P.state pages.old).counts (keys_file (P.state pages.old) slot)) ((P.state pages.old).counts (rows_file (P.state pages.old) slot)) row.now) }
    ensures fits { IfOk result (λ r. r ≡ None → IsTrue (is_row definition.now row.now)) }
    ensures answers { Answers (P.state pages.old) (P.state pages.new) (fault_of result) }
    ensures cause { HasPagesCause (OfTree P.tells P.logged (HasKey (P.state pages.old) (keys_file (P.state pages.old) slot) 0) (keys_file (P.state pages.old) slot) (P.state pages.old) (P.state pages.new)) (P.state pages.old) (P.state pages.new) (fault_of result) }
{
    let _file = FileName::Control;
    // A page is read in any case, so that a fault that is kept is answered before any refusal.
    let rows = row_count(alloc, pages, slot)?;
    let alone = unfit(definition, row);
    if alone.is_some() {
        return Ok(alone);
    }
    let beside = unplaced(alloc, pages, slot, definition, entry, rows)?;
    if beside.is_some() {
        return Ok(beside);
    }
    Ok(full(pages, slot))
}
