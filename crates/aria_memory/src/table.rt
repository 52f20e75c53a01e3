ghost use Rattle.std.specs.Prelude.{◌≡◌, ◌++◌, map, IfOk, OnOk, OnErr, IsTrue};
ghost use Rattle.std.specs.BTreeMap.{IsOrdered};
ghost use Rattle.std.specs.List.{flat_map};
ghost use Rattle.aria_model.specs.Text.{row_text};
ghost use Rattle.aria_value.specs.Defined.{is_definition};
ghost use Rattle.aria_memory.specs.Keyed.{are_keyed, values_cmp};
ghost use Rattle.aria_memory.specs.Without.{without};

use crate::find::{find, keys_of, named_key, seek};
use crate::insert::insert_all;
use crate::limits::{few_enough, has_room};
use crate::row_key::RowKey;
use crate::update::{changes_of, check_update, update_all};
use aria_model::{Reply, Setting, Stopped, push_row_text};
use aria_page::{Bytes, List, Name};
use aria_value::{Definition, Row, Value};
use std::alloc::{AllocError, Global};
use std::collections::BTreeMap;

// Adds the lines of the rows. After an `Err` what `text` holds is not to be told.
fn push_rows(rows: &[&Row], text: &mut Bytes) -> Result<(), AllocError>
    ensures { OnOk result (text.new ≡ text.old ++ flat_map row_text (map (λ r. r.now) rows.now)) }
{
    for row in rows {
        push_row_text(text, row)?;
    }
    Ok(())
}

// Takes out the rows of these keys.
fn delete_all(rows: &mut BTreeMap<RowKey, Row>, keys: Vec<RowKey>)
    requires { IsOrdered values_cmp rows.old }
    ensures { rows.new.entries ≡ without values_cmp keys.items rows.old.entries }
{
    for key in keys {
        rows.remove(&key);
    }
}

/// A table: its rows by their values in the columns of the first key.
#[derive(Drop)]
pub struct Table {
    definition: Definition,
    rows: BTreeMap<RowKey, Row>,
    ghost defined: { IsTrue (is_definition definition) },
    ghost keyed: { IsTrue (are_keyed definition rows.entries) },
}

impl Table {
    ghost use Rattle.std.specs.Prelude.{[], false, IfErr};
    ghost use Rattle.std.specs.Option.{option_map};
    ghost use Rattle.std.specs.BTreeMap.{values};
    ghost use Rattle.aria_value.specs.Defined.{IsDefinition};
    ghost use Rattle.aria_model.specs.declared.refusal.Exception.TheVariants.{Spent};
    ghost use Rattle.aria_model.specs.World.{Sound};
    ghost use Rattle.aria_model.specs.Step.{refused, insert, delete, update};
    ghost use Rattle.aria_memory.specs.Worlds.{table_of};
    ghost use Rattle.aria_memory.specs.Stopping.{Replies, IfRefused};
    ghost use Rattle.aria_memory.specs.Performs.{ActsOn};
    ghost use Rattle.aria_memory.specs.Seeking.{ResultsIn, SelectsFrom, TakesOut};

    /// A table without rows.
    pub(crate) fn new(alloc: Global, definition: Definition) -> Table
        requires { IsDefinition definition }
        ensures { table_of result ≡ record { definition = definition; plain = false; content = Sound [] } }
    {
        Table {
            definition,
            rows: BTreeMap::new(alloc),
        }
    }

    /// Puts the rows, or none of them.
    pub(crate) fn insert(
        &mut self,
        alloc: Global,
        rows: List<Row>,
        spent: Option<u32>,
    ) -> Result<Reply, Stopped>
        ensures inserts { Replies result (λ reply. ActsOn (λ world name. insert world name rows (option_map Spent spent)) (table_of self.old) (table_of self.new) reply) }
        ensures err { OnErr result (table_of self.new ≡ table_of self.old) }
    {
        let count = rows.len();
        few_enough(count)?;
        has_room(spent)?;
        insert_all(alloc, &self.definition, &mut self.rows, rows.into_vec())?;
        Ok(Reply::Count(count as u64))
    }

    /// Adds the lines of the rows that have the values to the text.
    pub(crate) fn select(
        &self,
        alloc: Global,
        key: Name,
        sought: &[Value],
        text: &mut Bytes,
    ) -> Result<Reply, Stopped>
        ensures { Replies result (λ reply. SelectsFrom (table_of self.now) key sought.now text.old text.new reply) }
    {
        let number = seek(&self.definition, key, sought)?;
        let found = find(alloc, &self.definition, &self.rows, number, sought)?;
        push_rows(found.as_slice(), text)?;
        Ok(Reply::Count(found.len() as u64))
    }

    // The keys of the rows that a delete takes out.
    fn keys_to_delete(
        &self,
        alloc: Global,
        key: Name,
        sought: &[Value],
        spent: Option<u32>,
    ) -> Result<Vec<RowKey>, Stopped>
        ensures refused { IfErr result (λ stopped. IfRefused stopped (λ why. ResultsIn (λ world name. delete world name key sought.now (option_map Spent spent)) (table_of self.now) (λ world name. refused world why))) }
        ensures found { IfOk result (λ keys. TakesOut (λ world name. delete world name key sought.now (option_map Spent spent)) (table_of self.now) sought.now (values self.now.rows) keys.items) }
        ensures ordered { IfOk result (λ _. IsOrdered values_cmp self.now.rows) }
    {
        let number = seek(&self.definition, key, sought)?;
        let found = find(alloc, &self.definition, &self.rows, number, sought)?;
        few_enough(found.len())?;
        has_room(spent)?;
        Ok(keys_of(alloc, &self.definition, found.as_slice())?)
    }

    /// Takes out the rows that have the values.
    pub(crate) fn delete(
        &mut self,
        alloc: Global,
        key: Name,
        sought: &[Value],
        spent: Option<u32>,
    ) -> Result<Reply, Stopped>
        ensures deletes { Replies result (λ reply. ActsOn (λ world name. delete world name key sought.now (option_map Spent spent)) (table_of self.old) (table_of self.new) reply) }
        ensures err { OnErr result (table_of self.new ≡ table_of self.old) }
    {
        let keys = self.keys_to_delete(alloc, key, sought, spent)?;
        let count = keys.len();
        delete_all(&mut self.rows, keys);
        Ok(Reply::Count(count as u64))
    }

    /// Sets the rows that have the values. After want of memory the rows may be any.
    pub(crate) fn update(
        &mut self,
        alloc: Global,
        key: Name,
        sought: &[Value],
        settings: &[Setting],
        spent: Option<u32>,
    ) -> Result<Reply, Stopped>
        ensures { Replies result (λ reply. ActsOn (λ world name. update world name key sought.now settings.now (option_map Spent spent)) (table_of self.old) (table_of self.new) reply) }
    {
        let number = named_key(&self.definition, key)?;
        check_update(&self.definition, number, sought, settings)?;
        let found = find(alloc, &self.definition, &self.rows, number, sought)?;
        let count = found.as_slice().len();
        few_enough(count)?;
        has_room(spent)?;
        let changes = changes_of(alloc, &self.definition, settings, found.as_slice())?;
        drop(found);
        update_all(alloc, &self.definition, &mut self.rows, changes)?;
        Ok(Reply::Count(count as u64))
    }
}
