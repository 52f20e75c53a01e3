//! What is written of a new table, and its files.

ghost use Rattle.std.specs.Prelude.{◌≡◌, ◌∷◌, [], ℕ, List as Seq, IsTrue, None, Some, false, is_ok, IfOk, OnOk};
ghost use Rattle.aria_page.specs.Lsn.{IsLsn};
ghost use Rattle.aria_page.specs.declared.place.Part.{Part as AnyPart};
ghost use Rattle.aria_page.specs.declared.place.Part.TheVariants.{Keys, Rows};
ghost use Rattle.aria_value.specs.Defined.{IsDefinition};
ghost use Rattle.aria_value.specs.declared.definition.Definition.{Definition as AnyDefinition};
ghost use Rattle.aria_host.specs.Calls.{HasDiskCause};
ghost use Rattle.aria_host.specs.declared.file_name.FileName.{FileName as AnyFile};
ghost use Rattle.aria_host.specs.Folder.{Folder, same_file};
ghost use Rattle.aria_record.specs.Logged.{Logged};
ghost use Rattle.aria_recovery.specs.Tables.{Maker, made_page, file};
ghost use Rattle.aria_pager.specs.Filing.{maker_in, IsNewTable, IsMaking, FileSteps};

use crate::close::sync_table;
use crate::page_store::PageStore;
use crate::slot::file_of;
use aria_host::{Fault, Host};
use aria_page::{Bytes, Lsn, Name, Page, Part};
use aria_value::{Definition, encode_definition, first_pages};
use std::alloc::{AllocError, Global};

/// The format of the tables that are made.
pub(crate) const FORMAT: u8 = 1;

/// What is written of a new table.
#[derive(Drop)]
pub(crate) struct NewTable {
    /// The log entry that makes it.
    pub(crate) created: Lsn,
    /// Its definition, as it is stored.
    pub(crate) stored: Bytes,
    /// The first page of its index file, and that of its data file.
    pub(crate) keys: Page,
    pub(crate) rows: Page,
}

/// Puts together what is written of a table that is made at this place of the log.
pub(crate) fn spell(
    alloc: Global,
    definition: &Definition,
    created: Lsn,
) -> Result<NewTable, AllocError>
    requires definition { IsDefinition definition.now }
    requires created { IsLsn created }
    ensures table { IfOk result (λ table. IsNewTable definition.now table) }
    ensures created { IfOk result (λ table. table.created ≡ created) }
{
    let stored = encode_definition(alloc, definition)?;
    let (keys, rows) = first_pages(alloc, definition, false, created, FORMAT)?;
    let _ = (keys.body().len(), rows.body().len());
    Ok(NewTable {
        created,
        stored,
        keys,
        rows,
    })
}

impl PageStore {
    // Makes the empty files of a table that isn't there yet.
    fn make_empty<H: Host>(&self, host: &mut H, name: &Name) -> Result<(), Fault>
        requires absent { IsTrue H.tells → (part : AnyPart) → (H.state host.old).folder (file name.now part) ≡ None }
        ensures steps { IsTrue H.tells → (base : ℕ) (start : Folder) (groups : Seq Logged) (maker : Maker) → IsMaking self.now (H.state host.old) base start groups name.now maker
            → FileSteps self.now (H.state host.old) (H.state host.new) base start groups (is_ok result) }
        ensures empty { IsTrue H.tells → OnOk result ((part : AnyPart) (c : Folder) → (H.state host.new).may_leave c → c (file name.now part) ≡ Some []) }
        ensures others { IsTrue H.tells → (f : AnyFile) → same_file (file name.now Keys) f ≡ false → same_file (file name.now Rows) f ≡ false → (H.state host.new).folder f ≡ (H.state host.old).folder f }
        ensures cause { HasDiskCause (H.state host.old) (H.state host.new) result }
    {
        let keys = file_of(name, Part::Keys);
        let rows = file_of(name, Part::Rows);
        host.create(&keys)?;
        host.create(&rows)
    }

    // Writes the first pages of a table whose files are empty.
    fn write_first<H: Host>(&self, host: &mut H, name: &Name, table: &NewTable) -> Result<(), Fault>
        requires table { (d : AnyDefinition) × IsNewTable d table.now }
        requires empty { IsTrue H.tells → (part : AnyPart) (c : Folder) → (H.state host.old).may_leave c → c (file name.now part) ≡ Some [] }
        ensures steps { IsTrue H.tells → (base : ℕ) (start : Folder) (groups : Seq Logged) → IsMaking self.now (H.state host.old) base start groups name.now (maker_in table.now)
            → FileSteps self.now (H.state host.old) (H.state host.new) base start groups (is_ok result) }
        ensures made { IsTrue H.tells → OnOk result ((part : AnyPart) → (H.state host.new).folder (file name.now part) ≡ Some (made_page (maker_in table.now) part ∷ [])) }
        ensures others { IsTrue H.tells → (f : AnyFile) → same_file (file name.now Keys) f ≡ false → same_file (file name.now Rows) f ≡ false → (H.state host.new).folder f ≡ (H.state host.old).folder f }
        ensures cause { HasDiskCause (H.state host.old) (H.state host.new) result }
    {
        let keys = file_of(name, Part::Keys);
        let rows = file_of(name, Part::Rows);
        host.write_page(&keys, 0, &table.keys)?;
        host.write_page(&rows, 0, &table.rows)
    }

    /// Makes the files of a table behind its group, and brings them to the disk, the index file first.
    pub(crate) fn make_files<H: Host>(
        &self,
        host: &mut H,
        name: &Name,
        table: &NewTable,
    ) -> Result<(), Fault>
        requires table { (d : AnyDefinition) × IsNewTable d table.now }
        requires absent { IsTrue H.tells → (part : AnyPart) → (H.state host.old).folder (file name.now part) ≡ None }
        requires making { IsTrue H.tells → (base : ℕ) × (start : Folder) × (groups : Seq Logged) × IsMaking self.now (H.state host.old) base start groups name.now (maker_in table.now) }
        ensures steps { IsTrue H.tells → (base : ℕ) (start : Folder) (groups : Seq Logged) → IsMaking self.now (H.state host.old) base start groups name.now (maker_in table.now)
            → FileSteps self.now (H.state host.old) (H.state host.new) base start groups (is_ok result) }
        ensures made { IsTrue H.tells → OnOk result ((part : AnyPart) → (H.state host.new).folder (file name.now part) ≡ Some (made_page (maker_in table.now) part ∷ [])) }
        ensures durable { IsTrue H.tells → OnOk result ((c : Folder) → (H.state host.new).may_leave c → (part : AnyPart) → c (file name.now part) ≡ (H.state host.new).folder (file name.now part)) }
        ensures others { IsTrue H.tells → (f : AnyFile) → same_file (file name.now Keys) f ≡ false → same_file (file name.now Rows) f ≡ false → (H.state host.new).folder f ≡ (H.state host.old).folder f }
        ensures cause { HasDiskCause (H.state host.old) (H.state host.new) result }
    {
        self.make_empty(host, name)?;
        self.write_first(host, name, table)?;
        sync_table(host, name)
    }
}
