//! What may be left of files of a name that has no table is removed.

ghost use Rattle.std.specs.Prelude.{◌≡◌, ℕ, List as Seq, IsTrue, None, false, is_ok, OnOk};
ghost use Rattle.aria_page.specs.declared.place.Part.{Part as AnyPart};
ghost use Rattle.aria_host.specs.declared.file_name.FileName.{FileName as AnyFile};
ghost use Rattle.aria_host.specs.Calls.{HasDiskCause};
ghost use Rattle.aria_host.specs.Folder.{Folder, same_file};
ghost use Rattle.aria_record.specs.Logged.{Logged};
ghost use Rattle.aria_recovery.specs.Tables.{file};
ghost use Rattle.aria_pager.specs.Pager.{IsPager, IsRunning, known};
ghost use Rattle.aria_pager.specs.Steps.{Steps};
ghost use Rattle.aria_pager.specs.Turns.{new_file};

use crate::page_store::PageStore;
use crate::slot::file_of;
use aria_host::{Fault, FileName, Host};
use aria_page::{Name, Part};

// The file that a repair writes beside a part of a table.
fn new_file_of(name: &Name, part: Part) -> FileName
    ensures { result ≡ new_file name.now part }
{
    match part {
        Part::Keys => FileName::NewKeys(*name),
        Part::Rows => FileName::NewRows(*name),
    }
}

impl PageStore {
    // Removes a file that a repair has left, if it is there.
    fn remove_new<H: Host>(&self, host: &mut H, name: &Name, part: Part) -> Result<(), Fault>
        requires pager { IsTrue H.tells → IsRunning self.now (H.state host.old) }
        ensures steps { IsTrue H.tells → (base : ℕ) (start : Folder) (groups : Seq Logged) (forced : ℕ) → IsPager self.now (H.state host.old) base start groups forced
            → Steps self.now self.now (H.state host.old) (H.state host.new) base start groups forced (is_ok result) }
        ensures gone { IsTrue H.tells → OnOk result ((H.state host.new).folder (new_file name.now part) ≡ None) }
        ensures others { IsTrue H.tells → (f : AnyFile) → same_file (new_file name.now part) f ≡ false → (H.state host.new).folder f ≡ (H.state host.old).folder f }
        ensures cause { HasDiskCause (H.state host.old) (H.state host.new) result }
    {
        let file = new_file_of(name, part);
        let found = host.look(&file)?;
        if found.is_none() {
            return Ok(());
        }
        host.remove(&file)
    }

    // Removes a file of a name that has no table, if it is there.
    fn remove_left<H: Host>(&self, host: &mut H, name: &Name, part: Part) -> Result<(), Fault>
        requires pager { IsTrue H.tells → IsRunning self.now (H.state host.old) }
        requires unknown { known self.now name.now ≡ None }
        ensures steps { IsTrue H.tells → (base : ℕ) (start : Folder) (groups : Seq Logged) (forced : ℕ) → IsPager self.now (H.state host.old) base start groups forced
            → Steps self.now self.now (H.state host.old) (H.state host.new) base start groups forced (is_ok result) }
        ensures gone { IsTrue H.tells → OnOk result ((H.state host.new).folder (file name.now part) ≡ None) }
        ensures others { IsTrue H.tells → (f : AnyFile) → same_file (file name.now part) f ≡ false → (H.state host.new).folder f ≡ (H.state host.old).folder f }
        ensures cause { HasDiskCause (H.state host.old) (H.state host.new) result }
    {
        let file = file_of(name, part);
        let found = host.look(&file)?;
        if found.is_none() {
            return Ok(());
        }
        host.remove(&file)
    }

    // Removes the files of a name that has no table.
    fn remove_left_overs<H: Host>(&self, host: &mut H, name: &Name) -> Result<(), Fault>
        requires pager { IsTrue H.tells → IsRunning self.now (H.state host.old) }
        requires unknown { known self.now name.now ≡ None }
        ensures steps { IsTrue H.tells → (base : ℕ) (start : Folder) (groups : Seq Logged) (forced : ℕ) → IsPager self.now (H.state host.old) base start groups forced
            → Steps self.now self.now (H.state host.old) (H.state host.new) base start groups forced (is_ok result) }
        ensures gone { IsTrue H.tells → OnOk result ((part : AnyPart) → (H.state host.new).folder (file name.now part) ≡ None) }
        ensures cause { HasDiskCause (H.state host.old) (H.state host.new) result }
    {
        self.remove_left(host, name, Part::Keys)?;
        self.remove_left(host, name, Part::Rows)
    }

    /// Removes what may be left of files of a name that has no table.
    pub(crate) fn clear_name<H: Host>(&self, host: &mut H, name: &Name) -> Result<(), Fault>
        requires pager { IsTrue H.tells → IsRunning self.now (H.state host.old) }
        requires unknown { known self.now name.now ≡ None }
        ensures steps { IsTrue H.tells → (base : ℕ) (start : Folder) (groups : Seq Logged) (forced : ℕ) → IsPager self.now (H.state host.old) base start groups forced
            → Steps self.now self.now (H.state host.old) (H.state host.new) base start groups forced (is_ok result) }
        ensures gone { IsTrue H.tells → OnOk result ((part : AnyPart) → (H.state host.new).folder (file name.now part) ≡ None) }
        ensures new_gone { IsTrue H.tells → OnOk result ((part : AnyPart) → (H.state host.new).folder (new_file name.now part) ≡ None) }
        ensures cause { HasDiskCause (H.state host.old) (H.state host.new) result }
    {
        self.remove_left_overs(host, name)?;
        self.remove_new(host, name, Part::Keys)?;
        self.remove_new(host, name, Part::Rows)
    }
}
