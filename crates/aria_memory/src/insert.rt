//! Rows put into a table, all or none.

ghost use Rattle.std.specs.Prelude.{◌≡◌, [], OnOk, OnErr, IsTrue};
ghost use Rattle.std.specs.BTreeMap.{values};
ghost use Rattle.aria_value.specs.Defined.{is_definition};
ghost use Rattle.aria_model.specs.Step.{put_all};
ghost use Rattle.aria_memory.specs.Keyed.{values_cmp, are_keyed};
ghost use Rattle.aria_memory.specs.Stopping.{EndsBy};
ghost use Rattle.aria_memory.specs.Undone.{undone};

use crate::check::check_row;
use crate::row_key::RowKey;
use aria_model::Stopped;
use aria_value::{Definition, Row};
use std::alloc::Global;
use std::collections::BTreeMap;

// Puts rows one after another, up to the first that is refused, and notes the key of each that it puts.
fn put_all(
    alloc: Global,
    definition: &Definition,
    rows: &mut BTreeMap<RowKey, Row>,
    more: Vec<Row>,
    put: &mut Vec<RowKey>,
) -> Result<(), Stopped>
    requires defined { IsTrue (is_definition definition.now) }
    requires keyed { IsTrue (are_keyed definition.now rows.old.entries) }
    requires none { put.old.items ≡ [] }
    ensures rows { EndsBy result (λ _. values rows.new ≡ (put_all definition.now None 1 (values rows.old) more.items).rows) }
    ensures refusal { EndsBy result (λ refusal. refusal ≡ (put_all definition.now None 1 (values rows.old) more.items).refusal) }
    ensures keyed_still { IsTrue (are_keyed definition.now rows.new.entries) }
    ensures undo { undone values_cmp put.new.items rows.new.entries ≡ rows.old.entries }
{
    for row in more {
        let key = RowKey::from_row(alloc, definition.first_key_columns(), row.as_slice())?;
        check_row(definition, rows, &key, &row)?;
        put.push(key.copy(alloc)?)?;
        rows.insert(key, row)?;
    }
    Ok(())
}

// Takes rows out by their keys, the last first.
fn take_back(rows: &mut BTreeMap<RowKey, Row>, mut put: Vec<RowKey>)
    ensures { rows.new.entries ≡ undone values_cmp put.items rows.old.entries }
{
    while let Some(key) = put.pop() {
        rows.remove(&key);
    }
}

/// Puts the rows, or none of them: then it answers the first refusal, or want of memory.
pub(crate) fn insert_all(
    alloc: Global,
    definition: &Definition,
    rows: &mut BTreeMap<RowKey, Row>,
    more: Vec<Row>,
) -> Result<(), Stopped>
    requires defined { IsTrue (is_definition definition.now) }
    requires keyed { IsTrue (are_keyed definition.now rows.old.entries) }
    ensures refusal { EndsBy result (λ refusal. refusal ≡ (put_all definition.now None 1 (values rows.old) more.items).refusal) }
    ensures rows { OnOk result (values rows.new ≡ (put_all definition.now None 1 (values rows.old) more.items).rows) }
    ensures err { OnErr result (rows.new.entries ≡ rows.old.entries) }
    ensures keyed_still { IsTrue (are_keyed definition.now rows.new.entries) }
{
    let mut put = Vec::with_capacity(alloc, more.len())?;
    let done = put_all(alloc, definition, rows, more, &mut put);
    if done.is_err() {
        take_back(rows, put);
    }
    done
}
