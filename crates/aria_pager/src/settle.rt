//! A file of a table is removed, or made anew with its first page, before groups are made again.

ghost use Rattle.std.specs.Prelude.{◌≡◌, ◌∷◌, [], ℕ, List as Seq, IsTrue, None, Some, true, false, IfOk, OnOk};
ghost use Rattle.aria_page.specs.declared.lsn.Lsn.{Lsn as Number};
ghost use Rattle.aria_host.specs.declared.file_name.FileName.{FileName as AnyFile};
ghost use Rattle.aria_host.specs.Calls.{HasDiskCause, Unchanged};
ghost use Rattle.aria_host.specs.Folder.{Folder, IsFileName, same_file};
ghost use Rattle.aria_record.specs.Logged.{Logged};
ghost use Rattle.aria_log.specs.declared.log.Log.{Log as LogValue};
ghost use Rattle.aria_recovery.specs.Redo.{number_at};
ghost use Rattle.aria_page.specs.Lsn.{lsn_number};
ghost use Rattle.aria_log.specs.Log.{place};
ghost use Rattle.aria_recovery.specs.Tables.{Maker, life_of, is_from, file};
ghost use Rattle.aria_pager.specs.Prepared.{HasTables, HasFiles, Prepares, IsFree, IsFirst};

use crate::redo::is_before;
use crate::slot::file_of;
use aria_host::{Fault, FileName, Host};
use aria_page::{Lsn, Name, Page, Part};

/// Whether the file is there with a first page that isn't older than this place of the log.
pub(crate) fn is_from<H: Host>(host: &mut H, file: &FileName, at: Lsn) -> Result<bool, Fault>
    requires name { IsFileName file.now }
    ensures is { IsTrue H.tells → IfOk result (λ from. from ≡ is_from at ((H.state host.old).folder file.now)) }
    ensures same { IsTrue H.tells → Unchanged (H.state host.old) (H.state host.new) }
    ensures cause { HasDiskCause (H.state host.old) (H.state host.new) result }
{
    let Some(extent) = host.look(file)? else {
        return Ok(false);
    };
    if extent.pages == 0 {
        return Ok(false);
    }
    let mut page = Page::zero();
    host.read_page(file, 0, &mut page)?;
    Ok(!is_before(page.lsn(), at))
}

/// Removes the file, if it is there.
pub(crate) fn remove_there<H: Host>(host: &mut H, file: &FileName) -> Result<(), Fault>
    requires name { IsFileName file.now }
    ensures prepares { IsTrue H.tells → (log : LogValue) (base : ℕ) (start : Folder) (groups : Seq Logged) → IsFree file.now (H.state host.old) groups → HasTables log (H.state host.old) base start groups
        → Prepares log (H.state host.old) (H.state host.new) base start groups }
    ensures files { IsTrue H.tells → HasFiles (H.state host.old) → OnOk result (HasFiles (H.state host.new)) }
    ensures gone { IsTrue H.tells → OnOk result ((H.state host.new).folder file.now ≡ None) }
    ensures others { IsTrue H.tells → (f : AnyFile) → same_file file.now f ≡ false → (H.state host.new).folder f ≡ (H.state host.old).folder f }
    ensures cause { HasDiskCause (H.state host.old) (H.state host.new) result }
{
    let found = host.look(file)?;
    if found.is_none() {
        return Ok(());
    }
    host.remove(file)
}

// Makes a file of a table that isn't there, with its first page alone, and brings it to the disk.
fn make_first<H: Host>(host: &mut H, name: &Name, part: Part, page: &Page) -> Result<(), Fault>
    requires absent { IsTrue H.tells → (H.state host.old).folder (file name.now part) ≡ None }
    ensures prepares { IsTrue H.tells → (log : LogValue) (base : ℕ) (start : Folder) (groups : Seq Logged) (maker : Maker) → IsFirst name.now part groups maker page.now (number_at (place log)) → HasFiles (H.state host.old) → HasTables log (H.state host.old) base start groups
        → Prepares log (H.state host.old) (H.state host.new) base start groups }
    ensures files { IsTrue H.tells → HasFiles (H.state host.old) → OnOk result (HasFiles (H.state host.new)) }
    ensures made { IsTrue H.tells → OnOk result ((H.state host.new).folder (file name.now part) ≡ Some (page.now ∷ [])) }
    ensures others { IsTrue H.tells → (f : AnyFile) → same_file (file name.now part) f ≡ false → (H.state host.new).folder f ≡ (H.state host.old).folder f }
    ensures cause { HasDiskCause (H.state host.old) (H.state host.new) result }
{
    let file = file_of(name, part);
    host.create(&file)?;
    host.write_page(&file, 0, page)?;
    host.sync(&file)
}

/// Removes a file of a table that the groups dropped last, if it is there.
pub(crate) fn settle_dropped<H: Host>(host: &mut H, name: &Name, part: Part) -> Result<(), Fault>
    ensures prepares { IsTrue H.tells → (log : LogValue) (base : ℕ) (start : Folder) (groups : Seq Logged) → (life_of name.now groups).last ≡ Some None → HasTables log (H.state host.old) base start groups → Prepares log (H.state host.old) (H.state host.new) base start groups }
    ensures files { IsTrue H.tells → HasFiles (H.state host.old) → OnOk result (HasFiles (H.state host.new)) }
    ensures gone { IsTrue H.tells → OnOk result ((H.state host.new).folder (file name.now part) ≡ None) }
    ensures others { IsTrue H.tells → (f : AnyFile) → same_file (file name.now part) f ≡ false → (H.state host.new).folder f ≡ (H.state host.old).folder f }
    ensures cause { HasDiskCause (H.state host.old) (H.state host.new) result }
{
    let file = file_of(name, part);
    remove_there(host, &file)
}

/// Makes a file anew of a table that the group at this place of the log made last, with this first page, where the file is
/// older than the table or isn't there.
pub(crate) fn settle_made<H: Host>(
    host: &mut H,
    name: &Name,
    part: Part,
    at: Lsn,
    page: &Page,
) -> Result<(), Fault>
    ensures prepares { IsTrue H.tells → (log : LogValue) (base : ℕ) (start : Folder) (groups : Seq Logged) (maker : Maker) → IsFirst name.now part groups maker page.now (number_at (place log)) → maker.at ≡ at → HasFiles (H.state host.old) → HasTables log (H.state host.old) base start groups
        → Prepares log (H.state host.old) (H.state host.new) base start groups }
    ensures files { IsTrue H.tells → HasFiles (H.state host.old) → OnOk result (HasFiles (H.state host.new)) }
    ensures settled { IsTrue H.tells → (groups : Seq Logged) (maker : Maker) (bound : ℕ) → IsFirst name.now part groups maker page.now bound → maker.at ≡ at → OnOk result (is_from maker.at ((H.state host.new).folder (file name.now part)) ≡ true) }
    ensures others { IsTrue H.tells → (f : AnyFile) → same_file (file name.now part) f ≡ false → (H.state host.new).folder f ≡ (H.state host.old).folder f }
    ensures cause { HasDiskCause (H.state host.old) (H.state host.new) result }
{
    let file = file_of(name, part);
    if is_from(host, &file, at)? {
        return Ok(());
    }
    remove_there(host, &file)?;
    make_first(host, name, part, page)
}
