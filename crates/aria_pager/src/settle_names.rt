//! The files of tables are settled name by name, and what a repair has left is removed.

ghost use Rattle.std.specs.Prelude.{◌≡◌, ◌&&◌, true, false, None, Some, ℕ, List as Seq, IsTrue, OnOk, length};
ghost use Rattle.std.specs.List.{list_any};
ghost use Rattle.aria_page.specs.declared.lsn.Lsn.{Lsn as Number};
ghost use Rattle.aria_page.specs.declared.place.Part.{Part as AnyPart};
ghost use Rattle.aria_page.specs.declared.place.Part.TheVariants.{Keys, Rows};
ghost use Rattle.aria_value.specs.Named.{same_name};
ghost use Rattle.aria_host.specs.Calls.{HasDiskCause};
ghost use Rattle.aria_host.specs.declared.file_name.FileName.{FileName as AnyFile};
ghost use Rattle.aria_host.specs.Folder.{Folder, same_file};
ghost use Rattle.aria_record.specs.Logged.{Logged};
ghost use Rattle.aria_log.specs.declared.log.Log.{Log as LogValue};
ghost use Rattle.aria_log.specs.Log.{IsLog, place};
ghost use Rattle.aria_recovery.specs.Analysed.{Has};
ghost use Rattle.aria_recovery.specs.Noted.{told_of};
ghost use Rattle.aria_recovery.specs.Redo.{number_at};
ghost use Rattle.aria_recovery.specs.Tables.{Maker, life_of, is_from, file};
ghost use Rattle.aria_pager.specs.Found.{HasCause, IsWalkFault, is_part};
ghost use Rattle.aria_pager.specs.Grouped.{HasGroupCause};
ghost use Rattle.aria_pager.specs.Prepared.{HasTables, HasFiles, Prepares, AreFirst, IsSettledName};
ghost use Rattle.aria_pager.specs.Turns.{is_aside, KeepsAside};

use crate::maker::made_pages;
use crate::settle::{remove_there, settle_dropped, settle_made};
use aria_host::{Fault, FileName, Host};
use aria_log::Log;
use aria_page::{Lsn, Name, Page, Part};
use aria_recovery::{Analysis, Told};
use std::alloc::Global;

// Removes both files of a table that the groups dropped last, the index file first.
fn remove_both<H: Host>(host: &mut H, name: &Name) -> Result<(), Fault>
    ensures prepares { IsTrue H.tells → (log : LogValue) (base : ℕ) (start : Folder) (groups : Seq Logged) → (life_of name.now groups).last ≡ Some None → HasTables log (H.state host.old) base start groups → Prepares log (H.state host.old) (H.state host.new) base start groups }
    ensures files { IsTrue H.tells → HasFiles (H.state host.old) → OnOk result (HasFiles (H.state host.new)) }
    ensures gone { IsTrue H.tells → OnOk result ((part : AnyPart) → (H.state host.new).folder (file name.now part) ≡ None) }
    ensures others { IsTrue H.tells → (f : AnyFile) → same_file (file name.now Keys) f ≡ false → same_file (file name.now Rows) f ≡ false → (H.state host.new).folder f ≡ (H.state host.old).folder f }
    ensures cause { HasDiskCause (H.state host.old) (H.state host.new) result }
{
    let _file = FileName::Control;
    settle_dropped(host, name, Part::Keys)?;
    settle_dropped(host, name, Part::Rows)
}

// Makes each file anew of a table that the group at this place of the log made last, where it is older than the table or
// isn't there, the index file first.
fn make_both<H: Host>(
    host: &mut H,
    name: &Name,
    at: Lsn,
    keys: &Page,
    rows: &Page,
) -> Result<(), Fault>
    ensures prepares { IsTrue H.tells → (log : LogValue) (base : ℕ) (start : Folder) (groups : Seq Logged) (maker : Maker) → AreFirst name.now groups maker (number_at (place log)) keys.now rows.now → maker.at ≡ at → HasFiles (H.state host.old) → HasTables log (H.state host.old) base start groups
        → Prepares log (H.state host.old) (H.state host.new) base start groups }
    ensures files { IsTrue H.tells → HasFiles (H.state host.old) → OnOk result (HasFiles (H.state host.new)) }
    ensures settled { IsTrue H.tells → (groups : Seq Logged) (maker : Maker) (bound : ℕ) → AreFirst name.now groups maker bound keys.now rows.now → maker.at ≡ at → OnOk result ((part : AnyPart) → is_from maker.at ((H.state host.new).folder (file name.now part)) ≡ true) }
    ensures others { IsTrue H.tells → (f : AnyFile) → same_file (file name.now Keys) f ≡ false → same_file (file name.now Rows) f ≡ false → (H.state host.new).folder f ≡ (H.state host.old).folder f }
    ensures cause { HasDiskCause (H.state host.old) (H.state host.new) result }
{
    let _file = FileName::Control;
    settle_made(host, name, Part::Keys, at, keys)?;
    settle_made(host, name, Part::Rows, at, rows)
}

// Settles both files of a table that the group at this place of the log made last.
fn make_table<H: Host>(
    alloc: Global,
    host: &mut H,
    log: &Log,
    name: &Name,
    at: Lsn,
) -> Result<(), Fault>
    requires there { IsTrue H.tells → (base : ℕ) × (groups : Seq Logged) × (maker : Maker) × IsLog log.now (H.state host.old) base groups (length groups) × ((life_of name.now groups).last ≡ Some (Some maker)) × (maker.at ≡ at) }
    ensures prepares { IsTrue H.tells → (base : ℕ) (start : Folder) (groups : Seq Logged) (maker : Maker) → (life_of name.now groups).last ≡ Some (Some maker) → maker.at ≡ at → HasTables log.now (H.state host.old) base start groups → HasFiles (H.state host.old)
        → Prepares log.now (H.state host.old) (H.state host.new) base start groups }
    ensures files { IsTrue H.tells → HasFiles (H.state host.old) → OnOk result (HasFiles (H.state host.new)) }
    ensures settled { IsTrue H.tells → (base : ℕ) (groups : Seq Logged) (maker : Maker) → (life_of name.now groups).last ≡ Some (Some maker) → maker.at ≡ at → IsLog log.now (H.state host.old) base groups (length groups)
        → OnOk result ((part : AnyPart) → is_from maker.at ((H.state host.new).folder (file name.now part)) ≡ true) }
    ensures others { IsTrue H.tells → (f : AnyFile) → same_file (file name.now Keys) f ≡ false → same_file (file name.now Rows) f ≡ false → (H.state host.new).folder f ≡ (H.state host.old).folder f }
    ensures cause { HasGroupCause H.tells (H.state host.old) (H.state host.new) result }
{
    let _file = FileName::Control;
    let (keys, rows) = made_pages(alloc, host, log, name, at)?;
    make_both(host, name, at, &keys, &rows)
}

// Settles the files of a name, of which the groups told this last.
fn settle_name<H: Host>(
    alloc: Global,
    host: &mut H,
    log: &Log,
    name: &Name,
    told: Told,
) -> Result<(), Fault>
    requires tables { IsTrue H.tells → (base : ℕ) × (start : Folder) × (groups : Seq Logged) × (told ≡ told_of (life_of name.now groups).last) × HasTables log.now (H.state host.old) base start groups }
    ensures prepares { IsTrue H.tells → (base : ℕ) (start : Folder) (groups : Seq Logged) → told ≡ told_of (life_of name.now groups).last → HasTables log.now (H.state host.old) base start groups → HasFiles (H.state host.old)
        → Prepares log.now (H.state host.old) (H.state host.new) base start groups }
    ensures files { IsTrue H.tells → HasFiles (H.state host.old) → OnOk result (HasFiles (H.state host.new)) }
    ensures settled { IsTrue H.tells → (base : ℕ) (start : Folder) (groups : Seq Logged) → told ≡ told_of (life_of name.now groups).last → HasTables log.now (H.state host.old) base start groups → OnOk result (IsSettledName name.now groups (H.state host.new).folder) }
    ensures others { IsTrue H.tells → (f : AnyFile) → same_file (file name.now Keys) f ≡ false → same_file (file name.now Rows) f ≡ false → (H.state host.new).folder f ≡ (H.state host.old).folder f }
    ensures cause { HasCause (IsWalkFault H.tells) (H.state host.old) (H.state host.new) result }
{
    let _file = FileName::Control;
    match told {
        Told::Nothing => Ok(()),
        Told::Dropped => remove_both(host, name),
        Told::Made(at) => make_table(alloc, host, log, name, at),
    }
}

/// Settles the files of these names: those of a table that the groups dropped last are removed, and each of one that they
/// made last is made anew where it is older than the table or isn't there.
pub(crate) fn settle_names<H: Host>(
    alloc: Global,
    host: &mut H,
    log: &Log,
    analysis: &Analysis,
    names: &[Name],
) -> Result<(), Fault>
    requires tables { IsTrue H.tells → (checkpoint : Number) × (base : ℕ) × (start : Folder) × (groups : Seq Logged) × Has checkpoint analysis.now groups × HasTables log.now (H.state host.old) base start groups × HasFiles (H.state host.old) }
    ensures prepares { IsTrue H.tells → (checkpoint : Number) (base : ℕ) (start : Folder) (groups : Seq Logged) → Has checkpoint analysis.now groups → HasTables log.now (H.state host.old) base start groups → HasFiles (H.state host.old)
        → Prepares log.now (H.state host.old) (H.state host.new) base start groups }
    ensures files { IsTrue H.tells → HasFiles (H.state host.old) → OnOk result (HasFiles (H.state host.new)) }
    ensures settled { IsTrue H.tells → (checkpoint : Number) (base : ℕ) (start : Folder) (groups : Seq Logged) → Has checkpoint analysis.now groups → HasTables log.now (H.state host.old) base start groups → HasFiles (H.state host.old)
        → OnOk result ((name : Seq ℕ) → list_any (same_name name) names.now ≡ true → IsSettledName name groups (H.state host.new).folder) }
    ensures others { IsTrue H.tells → (f : AnyFile) → is_part f ≡ false → (H.state host.new).folder f ≡ (H.state host.old).folder f }
    ensures kept { IsTrue H.tells → (name : Seq ℕ) → list_any (same_name name) names.now ≡ false → (part : AnyPart) → (H.state host.new).folder (file name part) ≡ (H.state host.old).folder (file name part) }
    ensures aside { IsTrue H.tells → KeepsAside (H.state host.old).folder (H.state host.new).folder }
    ensures cause { HasCause (IsWalkFault H.tells) (H.state host.old) (H.state host.new) result }
{
    let _file = FileName::Control;
    for name in names {
        settle_name(alloc, host, log, name, analysis.told(name))?;
    }
    Ok(())
}

// Whether it is a file that a repair writes beside a table's.
fn is_aside(file: &FileName) -> bool
    ensures { result ≡ is_aside file.now }
{
    match file {
        FileName::NewKeys(_) => true,
        FileName::NewRows(_) => true,
        _ => false,
    }
}

// Removes the file, if it is there and a repair has left it.
fn remove_new_file<H: Host>(host: &mut H, file: &FileName) -> Result<(), Fault>
    ensures prepares { IsTrue H.tells → (log : LogValue) (base : ℕ) (start : Folder) (groups : Seq Logged) → HasTables log (H.state host.old) base start groups → Prepares log (H.state host.old) (H.state host.new) base start groups }
    ensures files { IsTrue H.tells → HasFiles (H.state host.old) → OnOk result (HasFiles (H.state host.new)) }
    ensures gone { IsTrue H.tells → is_aside file.now ≡ true → OnOk result ((H.state host.new).folder file.now ≡ None) }
    ensures others { IsTrue H.tells → (f : AnyFile) → (is_aside f && same_file file.now f) ≡ false → (H.state host.new).folder f ≡ (H.state host.old).folder f }
    ensures cause { HasDiskCause (H.state host.old) (H.state host.new) result }
{
    if !is_aside(file) {
        return Ok(());
    }
    remove_there(host, file)
}

/// Removes those of these files that a repair has left.
pub(crate) fn remove_new_files<H: Host>(host: &mut H, files: &[FileName]) -> Result<(), Fault>
    ensures prepares { IsTrue H.tells → (log : LogValue) (base : ℕ) (start : Folder) (groups : Seq Logged) → HasTables log (H.state host.old) base start groups → Prepares log (H.state host.old) (H.state host.new) base start groups }
    ensures files { IsTrue H.tells → HasFiles (H.state host.old) → OnOk result (HasFiles (H.state host.new)) }
    ensures gone { IsTrue H.tells → OnOk result ((f : AnyFile) → is_aside f ≡ true → list_any (same_file f) files.now ≡ true → (H.state host.new).folder f ≡ None) }
    ensures others { IsTrue H.tells → (f : AnyFile) → (is_aside f && list_any (same_file f) files.now) ≡ false → (H.state host.new).folder f ≡ (H.state host.old).folder f }
    ensures cause { HasDiskCause (H.state host.old) (H.state host.new) result }
{
    for file in files {
        remove_new_file(host, file)?;
    }
    Ok(())
}
