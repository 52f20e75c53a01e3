//! The first pages of a table's files, as the group that made the table says.

ghost use Rattle.std.specs.Prelude.{◌≡◌, ℕ, List as Seq, IsTrue, Some, IfOk, length};
ghost use Rattle.aria_host.specs.Calls.{Unchanged};
ghost use Rattle.aria_record.specs.Groups.{RecordFits, IsGroup};
ghost use Rattle.aria_record.specs.Logged.{Logged};
ghost use Rattle.aria_log.specs.Log.{IsLog, place};
ghost use Rattle.aria_recovery.specs.Redo.{number_at};
ghost use Rattle.aria_recovery.specs.Tables.{Maker, says, says_group, life_of};
ghost use Rattle.aria_pager.specs.Grouped.{HasGroupCause};
ghost use Rattle.aria_pager.specs.Prepared.{AreMade, AreFirst};

use crate::load::log_damaged;
use crate::reading::group_in;
use aria_host::{Fault, FileName, Host};
use aria_log::Log;
use aria_page::{Lsn, Name, Page};
use aria_record::{Group, Record};
use aria_value::{decode_definition, first_pages};
use std::alloc::{AllocError, Global};

// The first pages of the files of a table that an entry of a group makes; or none, where it doesn't make it.
fn pages_of(
    alloc: Global,
    entry: &Record,
    name: &Name,
    at: Lsn,
) -> Result<Option<(Page, Page)>, AllocError>
    requires { RecordFits entry.now }
    ensures { (maker : Maker) → says at name.now entry.now ≡ Some (Some maker) → IfOk result (AreMade maker) }
{
    let Record::CreateTable {
        table,
        plain,
        definition,
        format,
    } = entry
    else {
        return Ok(None);
    };
    if *name != *table {
        return Ok(None);
    }
    let Some(d) = decode_definition(alloc, definition.as_slice())? else {
        return Ok(None);
    };
    let pages = first_pages(alloc, &d, *plain, at, *format)?;
    Ok(Some(pages))
}

// The same of a group, whose first entry alone may make it.
fn pages_in(
    alloc: Global,
    group: &Group,
    name: &Name,
    at: Lsn,
) -> Result<Option<(Page, Page)>, AllocError>
    requires { IsGroup group.now }
    ensures { (maker : Maker) → says_group name.now at group.now ≡ Some (Some maker) → IfOk result (AreMade maker) }
{
    match group.as_slice().first() {
        Some(entry) => pages_of(alloc, entry, name, at),
        None => Ok(None),
    }
}

/// The first pages of the files of a table that the group at this place of the log made.
pub(crate) fn made_pages<H: Host>(
    alloc: Global,
    host: &mut H,
    log: &Log,
    name: &Name,
    at: Lsn,
) -> Result<(Page, Page), Fault>
    requires there { IsTrue H.tells → (base : ℕ) × (groups : Seq Logged) × (maker : Maker) × IsLog log.now (H.state host.old) base groups (length groups) × ((life_of name.now groups).last ≡ Some (Some maker)) × (maker.at ≡ at) }
    ensures pages { IsTrue H.tells → (base : ℕ) (groups : Seq Logged) (maker : Maker) → IsLog log.now (H.state host.old) base groups (length groups) → (life_of name.now groups).last ≡ Some (Some maker) → maker.at ≡ at
        → IfOk result (λ pages. AreFirst name.now groups maker (number_at (place log.now)) pages.0 pages.1) }
    ensures same { IsTrue H.tells → Unchanged (H.state host.old) (H.state host.new) }
    ensures cause { HasGroupCause H.tells (H.state host.old) (H.state host.new) result }
{
    let _file = FileName::Control;
    let group = group_in(alloc, host, log, at)?;
    match pages_in(alloc, &group, name, at)? {
        None => Err(log_damaged(at)),
        Some(pages) => Ok(pages),
    }
}
