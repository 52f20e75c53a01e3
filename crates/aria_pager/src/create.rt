//! Tables are made.

ghost use Rattle.std.specs.Prelude.{◌≡◌, ◌∷◌, [], ◌+◌, ◌-◌, ◌^◌, ◌<◌, ◌≤◌, ℕ, List as Seq, length, slice_get, if◌then◌else◌, IsTrue, IsSome, IfSome, None, Some, is_some, true, false, is_ok, IfOk, OnOk};
ghost use Rattle.aria_page.specs.Page.{page_body};
ghost use Rattle.aria_page.specs.declared.place.Part.{Part as AnyPart};
ghost use Rattle.aria_value.specs.Defined.{IsDefinition};
ghost use Rattle.aria_value.specs.Named.{same_name};
ghost use Rattle.aria_value.specs.Reading.{read_definition};
ghost use Rattle.aria_value.specs.Stored.{definition_bytes};
ghost use Rattle.aria_host.specs.declared.file_name.FileName.{FileName as AnyFile};
ghost use Rattle.aria_host.specs.Folder.{Folder, is_log};
ghost use Rattle.aria_record.specs.declared.record.Record.TheVariants.{CreateTable};
ghost use Rattle.aria_record.specs.Logged.{Logged, lsn_at_place};
ghost use Rattle.aria_record.specs.Spelled.{group_bytes};
ghost use Rattle.aria_record.specs.Writing.{Writes, records_of};
ghost use Rattle.aria_log.specs.Log.{place};
ghost use Rattle.aria_cache.specs.Calls.{fault_of};
ghost use Rattle.aria_cache.specs.Frames.{held};
ghost use Rattle.aria_cache.specs.Key.{key_of};
ghost use Rattle.aria_cache.specs.PageState.{table_file};
ghost use Rattle.aria_recovery.specs.Tables.{file};
ghost use Rattle.aria_pager.specs.PageStore.{name_at};
ghost use Rattle.aria_pager.specs.Pager.{IsPager, IsRunning, Standing, known};
ghost use Rattle.aria_pager.specs.Steps.{Steps};
ghost use Rattle.aria_pager.specs.Goes.{Stands};
ghost use Rattle.aria_pager.specs.Turns.{alone, new_file};
ghost use Rattle.aria_pager.specs.View.{IsTidy, page_bodies};
ghost use Rattle.aria_pager.specs.Filing.{Reserves, AreTidy, IsNewTable, IsWhole, Enters, first_page, with_ready, with_filed, Logs, TurnsAll, TurnedAll, SameUse, HasFileCause, HasReadyCause, HasCreateCause};

use crate::new_table::{FORMAT, NewTable, spell};
use crate::page_store::PageStore;
use aria_host::{Fault, FileName, Host};
use aria_page::Name;
use aria_value::Definition;
use std::alloc::Global;

/// The fault that was answered.
pub(crate) fn fault_with(answer: &Result<u32, Fault>) -> Option<Fault>
    ensures { result ≡ fault_of answer.now }
{
    match answer {
        Ok(_) => None,
        Err(fault) => Some(*fault),
    }
}

impl PageStore {
    // Makes ready what a new table needs: the log, what is written of it, and a slot. Nothing is left of files of its name.
    fn make_ready<H: Host>(
        &mut self,
        alloc: Global,
        host: &mut H,
        name: &Name,
        definition: &Definition,
    ) -> Result<(NewTable, u32), Fault>
        requires pager { IsTrue H.tells → IsRunning self.old (H.state host.old) }
        requires unknown { known self.old name.now ≡ None }
        requires definition { IsDefinition definition.now }
        ensures steps { IsTrue H.tells → (base : ℕ) (start : Folder) (groups : Seq Logged) (forced : ℕ) → IsPager self.old (H.state host.old) base start groups forced
            → Steps self.old self.new (H.state host.old) (H.state host.new) base start groups forced (is_ok result) }
        ensures table { IfOk result (λ ready. IsNewTable definition.now ready.0) }
        ensures created { IfOk result (λ ready. ready.0.created ≡ lsn_at_place (place self.old.log)) }
        ensures free { IfOk result (λ ready. name_at self.old ready.1 ≡ None) }
        ensures low { IfOk result (λ ready. ready.1 < 2 ^ 32 - 1) }
        ensures there { IfOk result (λ ready. IsTrue (is_some (slice_get self.new.slots ready.1))) }
        ensures reserves { Reserves self.old self.new }
        ensures absent { IsTrue H.tells → OnOk result ((part : AnyPart) → (H.state host.new).folder (file name.now part) ≡ None) }
        ensures new_absent { IsTrue H.tells → OnOk result ((part : AnyPart) → (H.state host.new).folder (new_file name.now part) ≡ None) }
        ensures started { OnOk result (self.new.started ≡ true) }
        ensures place { place self.new.log ≡ place self.old.log }
        ensures rest { self.new ≡ with_ready self.old self.new.started self.new.log self.new.slots }
        ensures cause { HasReadyCause self.old (H.state host.old) (H.state host.new) result }
    {
        let _file = FileName::Control;
        self.start(host)?;
        let table = spell(alloc, definition, self.log.end())?;
        let n = self.reserve(name)?;
        self.clear_name(host, name)?;
        Ok((table, n))
    }

    // Lets the table be known by the slot, and brings the group that makes it to the disk.
    fn log_create<H: Host>(
        &mut self,
        host: &mut H,
        name: &Name,
        n: u32,
        stored: &[u8],
    ) -> Result<(), Fault>
        requires pager { IsTrue H.tells → IsRunning self.old (H.state host.old) }
        requires started { self.old.started ≡ true }
        requires absent { IsTrue H.tells → (part : AnyPart) → (H.state host.old).folder (file name.now part) ≡ None }
        requires unknown { known self.old name.now ≡ None }
        requires spelled { IsTrue (is_some (read_definition stored.now)) }
        requires small { length stored.now ≤ 4814 }
        ensures logs { IsTrue H.tells → (base : ℕ) (start : Folder) (groups : Seq Logged) (forced : ℕ) → IsPager self.old (H.state host.old) base start groups forced
            → Logs self.old self.new (H.state host.old) (H.state host.new) base start groups forced (alone self.old (CreateTable name.now false stored.now 1)) (is_ok result) }
        ensures others { IsTrue H.tells → (f : AnyFile) → is_log f ≡ false → (H.state host.new).folder f ≡ (H.state host.old).folder f }
        ensures knows { OnOk result ((q : Seq ℕ) → known self.new q ≡ (if same_name name.now q then Some (Some n) else known self.old q)) }
        ensures tidy { AreTidy self.old → AreTidy self.new }
        ensures empty { OnOk result (Writes self.new.writer []) }
        ensures later { OnOk result (place self.old.log < place self.new.log) }
        ensures rest { self.new ≡ with_filed self.old self.new.log self.new.writer self.old.frames self.old.slots self.new.tables }
        ensures cause { HasFileCause (place self.old.log + length (group_bytes (CreateTable name.now false stored.now 1 ∷ []))) (H.state host.old) (H.state host.new) result }
    {
        let _file = FileName::Control;
        self.writer.clear();
        self.writer.push_create(name, false, stored, FORMAT)?;
        self.tables.insert(*name, Some(n))?;
        self.append_alone(host)
    }

    // Makes a table, where no group is open.
    fn create_unknown<H: Host>(
        &mut self,
        alloc: Global,
        host: &mut H,
        name: &Name,
        definition: &Definition,
    ) -> Result<u32, Fault>
        requires pager { IsTrue H.tells → IsRunning self.old (H.state host.old) }
        requires idle { IsTrue H.tells → records_of self.old.writer ≡ [] }
        requires unknown { known self.old name.now ≡ None }
        requires definition { IsDefinition definition.now }
        ensures turns { IsTrue H.tells → (base : ℕ) (start : Folder) (groups : Seq Logged) (forced : ℕ) → IsPager self.old (H.state host.old) base start groups forced
            → TurnsAll self.old self.new (H.state host.old) (H.state host.new) base start groups forced (alone self.old (CreateTable name.now false (definition_bytes definition.now) 1)) (is_ok result) }
        ensures enters { IfOk result (λ n. Enters name.now n self.old self.new) }
        ensures made { IsTrue H.tells → OnOk result ((part : AnyPart) → (H.state host.new).folder (file name.now part) ≡ Some (first_page definition.now (lsn_at_place (place self.old.log)) part ∷ [])) }
        ensures new_absent { IsTrue H.tells → OnOk result ((part : AnyPart) → (H.state host.new).folder (new_file name.now part) ≡ None) }
        ensures whole { OnOk result ((part : AnyPart) → IsWhole (first_page definition.now (lsn_at_place (place self.old.log)) part)) }
        ensures unheld { IsTrue H.tells → IfOk result (λ n. (part : AnyPart) → held self.new.frames (key_of (record { slot = n; part = part; page = 0 })) ≡ None) }
        ensures tidy { AreTidy self.old → AreTidy self.new }
        ensures empty { OnOk result (Writes self.new.writer []) }
        ensures frames { self.new.frames ≡ self.old.frames }
        ensures same { SameUse self.old self.new }
        ensures cause { HasCreateCause self.old (place self.old.log + length (group_bytes (CreateTable name.now false (definition_bytes definition.now) 1 ∷ []))) (H.state host.old) (H.state host.new) result }
    {
        let _file = FileName::Control;
        let (table, n) = self.make_ready(alloc, host, name, definition)?;
        self.log_create(host, name, n, table.stored.as_slice())?;
        self.make_files(host, name, &table)?;
        self.enter(name, n);
        Ok(n)
    }

    /// Makes a table, where no group is open, and gives the slot that stands for it. What may be left of files of its name is
    /// removed, the group that makes it is brought to the disk, and then its files are made with their first pages and brought
    /// to the disk, the index file first.
    pub fn create_table<H: Host>(
        &mut self,
        alloc: Global,
        host: &mut H,
        name: &Name,
        definition: &Definition,
    ) -> Result<u32, Fault>
        requires tidy { IsTidy self.old }
        requires stands { IsTrue H.tells → Stands self.old (H.state host.old) }
        requires idle { self.old.in_group ≡ false }
        requires unknown { known self.old name.now ≡ None }
        requires definition { IsDefinition definition.now }
        ensures tidy { IsTidy self.new }
        ensures moves { IsTrue H.tells → (base : ℕ) (start : Folder) (groups : Seq Logged) (forced : ℕ) → Standing self.old (H.state host.old) base start groups forced
            → TurnedAll self.old self.new (H.state host.old) (H.state host.new) base start groups forced (alone self.old (CreateTable name.now false (definition_bytes definition.now) 1)) (is_ok result) }
        ensures enters { IfOk result (λ n. Enters name.now n self.old self.new) }
        ensures made { IsTrue H.tells → OnOk result ((part : AnyPart) → (H.state host.new).folder (file name.now part) ≡ Some (first_page definition.now (lsn_at_place (place self.old.log)) part ∷ [])) }
        ensures cleared { IsTrue H.tells → OnOk result ((part : AnyPart) → (H.state host.new).folder (new_file name.now part) ≡ None) }
        ensures bodies { IsTrue H.tells → OnOk result ((part : AnyPart) → page_bodies self.new (H.state host.new).folder (table_file name.now part) 0 ≡ Some (page_body (first_page definition.now (lsn_at_place (place self.old.log)) part))) }
        ensures same { SameUse self.old self.new }
        ensures keeps { self.new.kept ≡ fault_of result }
        ensures again { IfSome self.old.kept (λ kept. fault_of result ≡ Some kept) }
        ensures still { IsSome self.old.kept → (self.new ≡ self.old) × (host.new ≡ host.old) }
        ensures cause { self.old.kept ≡ None
            → HasCreateCause self.old (place self.old.log + length (group_bytes (CreateTable name.now false (definition_bytes definition.now) 1 ∷ []))) (H.state host.old) (H.state host.new) result }
    {
        let _file = FileName::Control;
        if let Some(fault) = self.kept {
            return Err(fault);
        }
        let answer = self.create_unknown(alloc, host, name, definition);
        self.kept = fault_with(&answer);
        answer
    }
}
