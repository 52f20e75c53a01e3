//! Tables are dropped.

ghost use Rattle.std.specs.Prelude.{◌≡◌, ◌≤◌, ◌+◌, ◌++◌, ◌∷◌, [], if◌then◌else◌, true, false, ℕ, List as Seq, length, IsTrue, IsSome, IfSome, None, Some, is_some, is_ok, OnOk};
ghost use Rattle.aria_page.specs.declared.place.Part.{Part as AnyPart};
ghost use Rattle.aria_value.specs.Named.{same_name};
ghost use Rattle.aria_host.specs.declared.file_name.FileName.{FileName as AnyFile};
ghost use Rattle.aria_host.specs.Calls.{HasDiskCause};
ghost use Rattle.aria_host.specs.Folder.{Folder, same_file};
ghost use Rattle.aria_record.specs.declared.record.Record.TheVariants.{DropTable};
ghost use Rattle.aria_record.specs.Logged.{Logged};
ghost use Rattle.aria_record.specs.Spelled.{group_bytes};
ghost use Rattle.aria_record.specs.Writing.{Writes, records_of};
ghost use Rattle.aria_log.specs.Log.{place};
ghost use Rattle.aria_cache.specs.Calls.{fault_of};
ghost use Rattle.aria_recovery.specs.Tables.{life_of, file};
ghost use Rattle.aria_pager.specs.PageStore.{name_at, sizes_at, opened};
ghost use Rattle.aria_pager.specs.Pager.{IsPager, IsRunning, Standing, known};
ghost use Rattle.aria_pager.specs.Goes.{Stands};
ghost use Rattle.aria_pager.specs.Turns.{alone};
ghost use Rattle.aria_pager.specs.View.{IsTidy};
ghost use Rattle.aria_pager.specs.Filing.{unused, without_name, LeavesSlot, Forgets, FewerSlots, AreTidy, SameUse, with_tables, with_filed, IsLogged, Logs, FileSteps, TurnsAll, TurnedAll, HasFileCause};

use crate::page_store::PageStore;
use crate::pager::fault_in;
use crate::slot::{Slot, file_of};
use aria_host::{Fault, FileName, Host};
use aria_page::{Name, Part};

// The slot, unused.
fn unused(slot: &Slot) -> Slot
    ensures { result ≡ unused slot.now }
{
    Slot {
        name: slot.name,
        used: false,
        keys: slot.keys,
        rows: slot.rows,
    }
}

impl PageStore {
    // The slot stands for no table any more, and its pages leave memory.
    fn leave_slot(&mut self, n: u32)
        ensures leaves { LeavesSlot n self.old self.new }
        ensures rest { self.new ≡ with_tables self.old self.new.frames self.new.slots self.old.tables }
    {
        self.frames.remove_slot(n);
        if let Some(slot) = self.slot(n) {
            self.slots.overwrite(n as usize, &[unused(&slot)]);
        }
    }

    // The table is known no more.
    fn forget(&mut self, name: &Name)
        ensures forgets { Forgets name.now self.old self.new }
        ensures rest { self.new ≡ with_tables self.old self.new.frames self.new.slots self.new.tables }
    {
        match self.tables.remove(name) {
            Some(Some(n)) => self.leave_slot(n),
            Some(None) => {}
            None => {}
        }
    }

    // Forgets the table, and brings the group that drops it to the disk.
    fn log_drop<H: Host>(&mut self, host: &mut H, name: &Name) -> Result<(), Fault>
        requires pager { IsTrue H.tells → IsRunning self.old (H.state host.old) }
        requires started { self.old.started ≡ true }
        ensures logs { IsTrue H.tells → (base : ℕ) (start : Folder) (groups : Seq Logged) (forced : ℕ) → IsPager self.old (H.state host.old) base start groups forced
            → Logs self.old self.new (H.state host.old) (H.state host.new) base start groups forced (alone self.old (DropTable name.now)) (is_ok result) }
        ensures forgets { OnOk result (Forgets name.now self.old self.new) }
        ensures fewer { FewerSlots self.old self.new }
        ensures tidy { AreTidy self.old → AreTidy self.new }
        ensures empty { OnOk result (Writes self.new.writer []) }
        ensures later { OnOk result (place self.old.log ≤ place self.new.log) }
        ensures rest { self.new ≡ with_filed self.old self.new.log self.new.writer self.new.frames self.new.slots self.new.tables }
        ensures cause { HasFileCause (place self.old.log + length (group_bytes (DropTable name.now ∷ []))) (H.state host.old) (H.state host.new) result }
    {
        let _file = FileName::Control;
        self.writer.clear();
        self.writer.push_drop(name)?;
        self.forget(name);
        self.append_alone(host)
    }

    // Removes a file of a table that was dropped, if it is there.
    fn remove_dropped<H: Host>(&self, host: &mut H, name: &Name, part: Part) -> Result<(), Fault>
        ensures steps { IsTrue H.tells → (base : ℕ) (start : Folder) (groups : Seq Logged) → IsLogged self.now (H.state host.old) base start groups → (life_of name.now groups).last ≡ Some None → opened self.now name.now ≡ false
            → FileSteps self.now (H.state host.old) (H.state host.new) base start groups (is_ok result) }
        ensures gone { IsTrue H.tells → OnOk result ((H.state host.new).folder (file name.now part) ≡ None) }
        ensures others { IsTrue H.tells → (f : AnyFile) → same_file (file name.now part) f ≡ false → (H.state host.new).folder f ≡ (H.state host.old).folder f }
        ensures cause { HasDiskCause (H.state host.old) (H.state host.new) result }
    {
        let file = file_of(name, part);
        let found = host.look(&file)?;
        if found.is_none() {
            return Ok(());
        }
        host.remove(&file)
    }

    // Removes the files of a table that was dropped.
    fn remove_files<H: Host>(&self, host: &mut H, name: &Name) -> Result<(), Fault>
        ensures steps { IsTrue H.tells → (base : ℕ) (start : Folder) (groups : Seq Logged) → IsLogged self.now (H.state host.old) base start groups → (life_of name.now groups).last ≡ Some None → opened self.now name.now ≡ false
            → FileSteps self.now (H.state host.old) (H.state host.new) base start groups (is_ok result) }
        ensures gone { IsTrue H.tells → OnOk result ((part : AnyPart) → (H.state host.new).folder (file name.now part) ≡ None) }
        ensures others { IsTrue H.tells → (other : Seq ℕ) (part : AnyPart) → same_name name.now other ≡ false → (H.state host.new).folder (file other part) ≡ (H.state host.old).folder (file other part) }
        ensures cause { HasDiskCause (H.state host.old) (H.state host.new) result }
    {
        self.remove_dropped(host, name, Part::Keys)?;
        self.remove_dropped(host, name, Part::Rows)
    }

    // Drops a table, where no group is open.
    fn drop_known<H: Host>(&mut self, host: &mut H, name: &Name) -> Result<(), Fault>
        requires pager { IsTrue H.tells → IsRunning self.old (H.state host.old) }
        requires idle { IsTrue H.tells → records_of self.old.writer ≡ [] }
        ensures turns { IsTrue H.tells → (base : ℕ) (start : Folder) (groups : Seq Logged) (forced : ℕ) → IsPager self.old (H.state host.old) base start groups forced
            → TurnsAll self.old self.new (H.state host.old) (H.state host.new) base start groups forced (alone self.old (DropTable name.now)) (is_ok result) }
        ensures knows { OnOk result ((q : Seq ℕ) → known self.new q ≡ (if same_name name.now q then None else known self.old q)) }
        ensures gone { IsTrue H.tells → OnOk result ((part : AnyPart) → (H.state host.new).folder (file name.now part) ≡ None) }
        ensures slots { IsTrue H.tells → OnOk result ((m : ℕ) → name_at self.new m ≡ without_name name.now (name_at self.old) m) }
        ensures fewer { FewerSlots self.old self.new }
        ensures tidy { AreTidy self.old → AreTidy self.new }
        ensures empty { OnOk result (Writes self.new.writer []) }
        ensures same { SameUse self.old self.new }
        ensures cause { HasFileCause (place self.old.log + length (group_bytes (DropTable name.now ∷ []))) (H.state host.old) (H.state host.new) result }
    {
        let _file = FileName::Control;
        self.start(host)?;
        self.log_drop(host, name)?;
        self.remove_files(host, name)
    }

    /// Drops a table, where no group is open. Its pages leave memory, the group that drops it is brought to the disk, and then
    /// its files are removed, the index file first.
    pub fn drop_table<H: Host>(&mut self, host: &mut H, name: &Name) -> Result<(), Fault>
        requires tidy { IsTidy self.old }
        requires stands { IsTrue H.tells → Stands self.old (H.state host.old) }
        requires idle { self.old.in_group ≡ false }
        requires known { IsTrue (is_some (known self.old name.now)) }
        ensures tidy { IsTidy self.new }
        ensures moves { IsTrue H.tells → (base : ℕ) (start : Folder) (groups : Seq Logged) (forced : ℕ) → Standing self.old (H.state host.old) base start groups forced
            → TurnedAll self.old self.new (H.state host.old) (H.state host.new) base start groups forced (alone self.old (DropTable name.now)) (is_ok result) }
        ensures knows { OnOk result ((q : Seq ℕ) → known self.new q ≡ (if same_name name.now q then None else known self.old q)) }
        ensures gone { IsTrue H.tells → OnOk result ((part : AnyPart) → (H.state host.new).folder (file name.now part) ≡ None) }
        ensures slots { IsTrue H.tells → OnOk result ((m : ℕ) → name_at self.new m ≡ without_name name.now (name_at self.old) m) }
        ensures sizes { sizes_at self.new ≡ sizes_at self.old }
        ensures same { SameUse self.old self.new }
        ensures keeps { self.new.kept ≡ fault_of result }
        ensures again { IfSome self.old.kept (λ kept. fault_of result ≡ Some kept) }
        ensures still { IsSome self.old.kept → (self.new ≡ self.old) × (host.new ≡ host.old) }
        ensures cause { self.old.kept ≡ None → HasFileCause (place self.old.log + length (group_bytes (DropTable name.now ∷ []))) (H.state host.old) (H.state host.new) result }
    {
        let _file = FileName::Control;
        if let Some(fault) = self.kept {
            return Err(fault);
        }
        let answer = self.drop_known(host, name);
        self.kept = fault_in(&answer);
        answer
    }
}
