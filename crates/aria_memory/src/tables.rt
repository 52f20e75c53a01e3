ghost use Rattle.std.specs.Prelude.{◌≡◌, IfOk, OnErr};
ghost use Rattle.aria_value.specs.Defined.{IsDefinition};
ghost use Rattle.aria_model.specs.Grammar.{IsSpelled};
ghost use Rattle.aria_model.specs.World.{empty_world};
ghost use Rattle.aria_memory.specs.Stopping.{replied};

use crate::limits::has_room;
use crate::table::Table;
use aria_model::{Refusal, Reply, Setting, Statement, Stopped};
use aria_page::{Bytes, List, Name};
use aria_value::{Definition, Row, Value};
use std::alloc::{AllocError, Global};
use std::collections::BTreeMap;

// The reply to a statement, where a refusal is one too.
fn reply_of(answer: Result<Reply, Stopped>) -> Result<Reply, AllocError>
    ensures { result ≡ replied answer }
{
    match answer {
        Ok(reply) => Ok(reply),
        Err(Stopped::Refused(why)) => Ok(Reply::No(why)),
        Err(Stopped::Memory) => Err(AllocError),
    }
}

/// The tables of a world, by name.
#[derive(Drop)]
pub struct Tables {
    by_name: BTreeMap<Name, Table>,
}

impl Tables {
    ghost use Rattle.std.specs.Prelude.{Option, false};
    ghost use Rattle.std.specs.Option.{option_map};
    ghost use Rattle.aria_model.specs.declared.refusal.Exception.{Exception};
    ghost use Rattle.aria_model.specs.declared.refusal.Exception.TheVariants.{Spent};
    ghost use Rattle.aria_model.specs.declared.statement.Statement.TheVariants as statements;
    ghost use Rattle.aria_model.specs.Step.{create, insert, delete, update, drop, flush, checkpoint};
    ghost use Rattle.aria_model.specs.Journal.{changes};
    ghost use Rattle.aria_memory.specs.Worlds.{world_of};
    ghost use Rattle.aria_memory.specs.Performs.{Leaves, Performs, is_update};
    ghost use Rattle.aria_memory.specs.Stopping.{Replies};

    /// No tables.
    pub fn new(alloc: Global) -> Tables
        ensures { world_of result ≡ empty_world }
    {
        Tables {
            by_name: BTreeMap::new(alloc),
        }
    }

    fn create(
        &mut self,
        alloc: Global,
        name: Name,
        plain: bool,
        definition: Definition,
        spent: Option<u32>,
    ) -> Result<Reply, Stopped>
        requires { IsDefinition definition }
        ensures creates { Replies result (λ reply. Leaves (create (world_of self.old) name plain definition (option_map Spent spent)) (world_of self.new) reply) }
        ensures err { OnErr result (world_of self.new ≡ world_of self.old) }
    {
        if self.by_name.contains_key(&name) {
            return Err(Refusal::TableExists { name }.into());
        }
        if plain {
            return Err(Refusal::NotBuilt.into());
        }
        has_room(spent)?;
        self.by_name.insert(name, Table::new(alloc, definition))?;
        Ok(Reply::Done)
    }

    fn insert(
        &mut self,
        alloc: Global,
        name: Name,
        rows: List<Row>,
        spent: Option<u32>,
    ) -> Result<Reply, Stopped>
        ensures inserts { Replies result (λ reply. Leaves (insert (world_of self.old) name rows (option_map Spent spent)) (world_of self.new) reply) }
        ensures err { OnErr result (world_of self.new ≡ world_of self.old) }
    {
        match self.by_name.get_mut(&name) {
            None => Err(Refusal::NoTable { name }.into()),
            Some(table) => table.insert(alloc, rows, spent),
        }
    }

    fn delete(
        &mut self,
        alloc: Global,
        name: Name,
        key: Name,
        sought: &[Value],
        spent: Option<u32>,
    ) -> Result<Reply, Stopped>
        ensures deletes { Replies result (λ reply. Leaves (delete (world_of self.old) name key sought.now (option_map Spent spent)) (world_of self.new) reply) }
        ensures err { OnErr result (world_of self.new ≡ world_of self.old) }
    {
        match self.by_name.get_mut(&name) {
            None => Err(Refusal::NoTable { name }.into()),
            Some(table) => table.delete(alloc, key, sought, spent),
        }
    }

    fn update(
        &mut self,
        alloc: Global,
        name: Name,
        key: Name,
        sought: &[Value],
        settings: &[Setting],
        spent: Option<u32>,
    ) -> Result<Reply, Stopped>
        ensures { Replies result (λ reply. Leaves (update (world_of self.old) name key sought.now settings.now (option_map Spent spent)) (world_of self.new) reply) }
    {
        match self.by_name.get_mut(&name) {
            None => Err(Refusal::NoTable { name }.into()),
            Some(table) => table.update(alloc, key, sought, settings, spent),
        }
    }

    fn select(
        &self,
        alloc: Global,
        name: Name,
        key: Name,
        sought: &[Value],
        text: &mut Bytes,
    ) -> Result<Reply, Stopped>
        ensures { Replies result (λ reply. (exception : Option Exception) → Performs (world_of self.now) (statements.Select name key sought.now) exception (world_of self.now) text.old text.new reply) }
    {
        match self.by_name.get(&name) {
            None => Err(Refusal::NoTable { name }.into()),
            Some(table) => table.select(alloc, key, sought, text),
        }
    }

    fn drop_table(&mut self, name: Name, spent: Option<u32>) -> Result<Reply, Stopped>
        ensures drops { Replies result (λ reply. Leaves (drop (world_of self.old) name (option_map Spent spent)) (world_of self.new) reply) }
        ensures err { OnErr result (world_of self.new ≡ world_of self.old) }
    {
        if !self.by_name.contains_key(&name) {
            return Err(Refusal::NoTable { name }.into());
        }
        has_room(spent)?;
        self.by_name.remove(&name);
        Ok(Reply::Done)
    }

    // Each table is a transactional one, and has nothing to bring to the disk.
    fn flush(&self, name: Name) -> Result<Reply, Stopped>
        ensures { Replies result (λ reply. Leaves (flush (world_of self.now) name) (world_of self.now) reply) }
    {
        if !self.by_name.contains_key(&name) {
            return Err(Refusal::NoTable { name }.into());
        }
        Ok(Reply::Done)
    }

    fn checkpoint(&self, spent: Option<u32>) -> Result<Reply, Stopped>
        ensures { Replies result (λ reply. Leaves (checkpoint (world_of self.now) (option_map Spent spent)) (world_of self.now) reply) }
    {
        has_room(spent)?;
        Ok(Reply::Done)
    }

    fn perform(
        &mut self,
        alloc: Global,
        statement: Statement,
        spent: Option<u32>,
        text: &mut Bytes,
    ) -> Result<Reply, Stopped>
        requires { IsSpelled statement }
        ensures performs { Replies result (λ reply. Performs (world_of self.old) statement (option_map Spent spent) (world_of self.new) text.old text.new reply) }
        ensures kept { Replies result (λ reply. changes statement reply ≡ false → world_of self.new ≡ world_of self.old) }
        ensures err { OnErr result (is_update statement ≡ false → world_of self.new ≡ world_of self.old) }
    {
        match statement {
            Statement::Create {
                name,
                plain,
                definition,
            } => self.create(alloc, name, plain, definition, spent),
            Statement::Insert { name, rows } => self.insert(alloc, name, rows, spent),
            Statement::Delete { name, key, values } => {
                self.delete(alloc, name, key, values.as_slice(), spent)
            }
            Statement::Update {
                name,
                key,
                values,
                set,
            } => self.update(alloc, name, key, values.as_slice(), set.as_slice(), spent),
            Statement::Select { name, key, values } => {
                self.select(alloc, name, key, values.as_slice(), text)
            }
            Statement::Drop { name } => self.drop_table(name, spent),
            Statement::Flush { name } => self.flush(name),
            Statement::Checkpoint => self.checkpoint(spent),
        }
    }

    /// Executes a statement, and adds the lines of the rows that it tells to `text`. Where the log has no
    /// room, `spent` is the number of its last file: then a statement that would be logged is refused, in its
    /// place in the order. Without memory what `text` holds is not to be told, and the tables stay as they
    /// were, but after an update no more may be asked of them.
    pub fn execute(
        &mut self,
        alloc: Global,
        statement: Statement,
        spent: Option<u32>,
        text: &mut Bytes,
    ) -> Result<Reply, AllocError>
        requires { IsSpelled statement }
        ensures performs { IfOk result (λ reply. Performs (world_of self.old) statement (option_map Spent spent) (world_of self.new) text.old text.new reply) }
        ensures kept { IfOk result (λ reply. changes statement reply ≡ false → world_of self.new ≡ world_of self.old) }
        ensures err { OnErr result (is_update statement ≡ false → world_of self.new ≡ world_of self.old) }
    {
        reply_of(self.perform(alloc, statement, spent, text))
    }
}
