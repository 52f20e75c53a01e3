//! Rows changed where they stand, all or none.

ghost use Rattle.std.specs.Prelude.{◌≡◌, ◌<◌, [], ◌∷◌, ◌&&◌, not, length, IfOk, OnOk, OnErr, IsTrue, map};
ghost use Rattle.std.specs.Option.{is_some, option_map};
ghost use Rattle.std.specs.Ordering.{is_eq};
ghost use Rattle.std.specs.BTreeMap.{values, insert_entry, is_at, get, get_by, get_key_by, IsOrdered};
ghost use Rattle.std.specs.List.Sorted.{IsStrictlySortedBy};
ghost use Rattle.std.specs.Map.{remove_entry, keys_of, values_of};
ghost use Rattle.aria_value.specs.Defined.{is_definition};
ghost use Rattle.aria_value.specs.Order.{key_columns};
ghost use Rattle.aria_model.specs.Step.{first_of, bad_value, unknown_column, bad_sought, bad_setting, set_refusal};
ghost use Rattle.aria_memory.specs.Keyed.{values_cmp, values_in, are_keyed};
ghost use Rattle.aria_memory.specs.Stopping.{refusal_of, EndsBy};
ghost use Rattle.aria_memory.specs.Updated.{change_of, IsSet, IsUpdated, put_back, taken_back};

use crate::check::duplicate;
use crate::find::bad_sought;
use crate::limits::holds_values;
use crate::row_key::RowKey;
use crate::settings::{bad_setting, has_columns, last_set, set_row};
use aria_model::{Refusal, Setting, Stopped};
use aria_value::{Definition, Row, Value, is_too_long};
use std::alloc::{AllocError, Global};
use std::collections::BTreeMap;

/// A row to change: its key, and what becomes of it.
#[derive(Drop)]
pub struct Change {
    pub(crate) key: RowKey,
    pub(crate) row: Row,
}

/// A change that was made: the key of the changed row, and the entry that was taken out for it.
#[derive(Drop)]
pub struct Done {
    pub(crate) key: RowKey,
    pub(crate) was: Option<(RowKey, Row)>,
}

/// Refused where a column that is set isn't there, a value may not be sought by the key, or a column may not hold what
/// it is set to.
pub(crate) fn check_update(
    definition: &Definition,
    number: usize,
    sought: &[Value],
    settings: &[Setting],
) -> Result<(), Refusal>
    requires defined { IsTrue (is_definition definition.now) }
    requires number { number < length definition.now.keys }
    ensures { refusal_of result ≡ first_of (unknown_column definition.now.columns settings.now ∷ bad_value (bad_sought definition.now.columns [] (key_columns definition.now.keys number) sought.now) ∷ bad_value (bad_setting definition.now settings.now) ∷ []) }
{
    let columns = definition.columns.as_slice();
    has_columns(columns, settings)?;
    holds_values(bad_sought(columns, definition.key_columns(number), sought))?;
    holds_values(bad_setting(definition, settings))
}

/// The changes that the settings make of these rows.
pub(crate) fn changes_of(
    alloc: Global,
    definition: &Definition,
    settings: &[Setting],
    found: &[&Row],
) -> Result<Vec<Change>, AllocError>
    ensures { IfOk result (λ changes. changes.items ≡ map (change_of definition.now settings.now) (map (λ r. r.now) found.now)) }
{
    let sets = last_set(alloc, definition.columns.as_slice(), settings)?;
    let mut changes = Vec::with_capacity(alloc, found.len())?;
    for row in found {
        let change = Change {
            key: RowKey::from_row(alloc, definition.first_key_columns(), row.as_slice())?,
            row: set_row(alloc, sets.as_slice(), row.as_slice())?,
        };
        changes.push(change)?;
    }
    Ok(changes)
}

// Whether a key other than the old one is among those of the rows.
fn is_taken(rows: &BTreeMap<RowKey, Row>, old: &RowKey, key: &RowKey) -> bool
    ensures { result ≡ (not (is_eq (values_cmp key.now old.now)) && is_some (get values_cmp rows.now key.now)) }
{
    *key != *old && rows.contains_key(key)
}

// Refused where a change that gives its row this key may not be made beside the other rows.
fn check_change(
    definition: &Definition,
    rows: &BTreeMap<RowKey, Row>,
    key: &RowKey,
    change: &Change,
) -> Result<(), Refusal>
    requires defined { IsTrue (is_definition definition.now) }
    requires keyed { IsTrue (are_keyed definition.now rows.now.entries) }
    requires ordered { IsOrdered values_cmp rows.now }
    requires key { key.now ≡ values_in (key_columns definition.now.keys 0) change.now.row }
    ensures { refusal_of result ≡ set_refusal definition.now None 1 (values_of (remove_entry (is_at (values_cmp change.now.key)) rows.now.entries)) change.now.row }
{
    if is_too_long(change.row.as_slice()) {
        return Err(Refusal::RowTooLong);
    }
    if is_taken(rows, &change.key, key) {
        return Err(duplicate(definition));
    }
    Ok(())
}

// Puts a changed row in the place of the row of the old key, which is handed back with its key.
fn replace(
    rows: &mut BTreeMap<RowKey, Row>,
    key: RowKey,
    change: Change,
) -> Result<Option<(RowKey, Row)>, AllocError>
    ensures entries { OnOk result (rows.new.entries ≡ insert_entry values_cmp (remove_entry (is_at (values_cmp change.key)) rows.old.entries) key change.row) }
    ensures old_key { IfOk result (λ was. option_map (λ p. p.0) was ≡ get_key_by (values_cmp change.key) rows.old) }
    ensures old_row { IfOk result (λ was. option_map (λ p. p.1) was ≡ get_by (values_cmp change.key) rows.old) }
    ensures err { OnErr result (rows.new.entries ≡ remove_entry (is_at (values_cmp change.key)) rows.old.entries) }
    ensures without { IsStrictlySortedBy values_cmp (keys_of (remove_entry (is_at (values_cmp change.key)) rows.old.entries)) }
    ensures ordered { IsOrdered values_cmp rows.new }
{
    let was = rows.remove_entry(&change.key);
    rows.insert(key, change.row)?;
    Ok(was)
}

// Changes rows one after another, up to the first that is refused, and notes each change that it makes.
fn set_rows(
    alloc: Global,
    definition: &Definition,
    rows: &mut BTreeMap<RowKey, Row>,
    changes: Vec<Change>,
    done: &mut Vec<Done>,
) -> Result<(), Stopped>
    requires defined { IsTrue (is_definition definition.now) }
    requires keyed { IsTrue (are_keyed definition.now rows.old.entries) }
    requires ordered { IsOrdered values_cmp rows.old }
    requires none { done.old.items ≡ [] }
    ensures sets { EndsBy result (λ refusal. IsSet definition.now changes.items (values rows.old) (values rows.new) refusal) }
    ensures keyed_still { IsTrue (are_keyed definition.now rows.new.entries) }
    ensures undo { EndsBy result (λ _. taken_back done.new.items rows.new.entries ≡ rows.old.entries) }
{
    for change in changes {
        let key = RowKey::from_row(alloc, definition.first_key_columns(), change.row.as_slice())?;
        check_change(definition, rows, &key, &change)?;
        let put = key.copy(alloc)?;
        let was = replace(rows, key, change)?;
        done.push(Done { key: put, was })?;
    }
    Ok(())
}

// Takes one change back. Without memory the old row is lost.
fn take_back_one(rows: &mut BTreeMap<RowKey, Row>, change: Done) -> Result<(), AllocError>
    ensures { OnOk result (rows.new.entries ≡ put_back change.was (remove_entry (is_at (values_cmp change.key)) rows.old.entries)) }
{
    let Done { key, was } = change;
    rows.remove(&key);
    match was {
        Some((key, row)) => {
            rows.insert(key, row)?;
        }
        None => {}
    }
    Ok(())
}

// Takes changes back, the last first.
fn take_back(rows: &mut BTreeMap<RowKey, Row>, mut done: Vec<Done>) -> Result<(), AllocError>
    ensures { OnOk result (rows.new.entries ≡ taken_back done.items rows.old.entries) }
{
    while let Some(change) = done.pop() {
        take_back_one(rows, change)?;
    }
    Ok(())
}

// Takes changes back. Without memory for that no row is left.
fn undo(rows: &mut BTreeMap<RowKey, Row>, done: Vec<Done>) -> Result<(), AllocError>
    ensures ok { OnOk result (rows.new.entries ≡ taken_back done.items rows.old.entries) }
    ensures err { OnErr result (rows.new.entries ≡ []) }
{
    let back = take_back(rows, done);
    if back.is_err() {
        rows.clear();
    }
    back
}

/// Makes the changes, or none of them: then it answers the first refusal. After want of memory the rows may be any, and
/// no more may be asked of them.
pub(crate) fn update_all(
    alloc: Global,
    definition: &Definition,
    rows: &mut BTreeMap<RowKey, Row>,
    changes: Vec<Change>,
) -> Result<(), Stopped>
    requires defined { IsTrue (is_definition definition.now) }
    requires keyed { IsTrue (are_keyed definition.now rows.old.entries) }
    requires ordered { IsOrdered values_cmp rows.old }
    ensures updates { EndsBy result (λ refusal. IsUpdated definition.now changes.items (values rows.old) (values rows.new) refusal) }
    ensures keyed_still { IsTrue (are_keyed definition.now rows.new.entries) }
{
    let mut done = Vec::with_capacity(alloc, changes.len())?;
    let set = set_rows(alloc, definition, rows, changes, &mut done);
    if matches!(set, Err(Stopped::Refused(_))) {
        undo(rows, done)?;
    }
    set
}
