//! Whether a folder needs recovery. Its files are looked at, and nothing is changed.

ghost use Rattle.std.specs.Prelude.{◌≡◌, ◌↔◌, not, ℕ, Bool, List as Seq, All, IsTrue, IfOk, IfSome, IfErr, None, true, false, is_some};
ghost use Rattle.std.specs.List.{list_all};
ghost use Rattle.std.specs.BTreeMap.{get, IsOrdered};
ghost use Rattle.std.specs.Ordering.{nat_cmp};
ghost use Rattle.aria_page.specs.declared.lsn.Lsn.{Lsn as Number};
ghost use Rattle.aria_host.specs.Calls.{HasDiskCause, Unchanged};
ghost use Rattle.aria_host.specs.Folder.{page_count};
ghost use Rattle.aria_record.specs.Logged.{Logged};
ghost use Rattle.aria_recovery.specs.Redo.{Rises};
ghost use Rattle.aria_recovery.specs.Tables.{file};
ghost use Rattle.aria_recovery.specs.Frames.{Spot};
ghost use Rattle.aria_recovery.specs.Analysed.{Has};
ghost use Rattle.aria_pager.specs.Settled.{IsFound};
ghost use Rattle.aria_pager.specs.View.{IsTidy};
ghost use Rattle.aria_pager.specs.Entered.{AreLow, AreListed, LacksOne, AreMany};
ghost use Rattle.aria_pager.specs.Resting.{AreRedone, IsRedone, Looks, is_settled, has_settled, is_past, is_edited, OfPage, HasPageCause, OfEditedPage, HasLookCause};

use crate::enter::{enter_tables, needs_slot};
use crate::evict::bounded;
use crate::load::{log_damaged, read_or_zero};
use crate::page_store::PageStore;
use crate::redo::is_before;
use crate::settle::is_from;
use crate::slot::file_of;
use aria_host::{Fault, FileName, Host};
use aria_log::Log;
use aria_page::{Lsn, Name, Part};
use aria_recovery::{Analysis, Told};
use std::alloc::Global;
use std::collections::BTreeMap;

// Whether a file of a table isn't there.
fn is_gone<H: Host>(host: &mut H, name: &Name, part: Part) -> Result<bool, Fault>
    ensures gone { IsTrue H.tells → IfOk result (λ b. b ≡ not (is_some ((H.state host.old).folder (file name.now part)))) }
    ensures same { IsTrue H.tells → Unchanged (H.state host.old) (H.state host.new) }
    ensures cause { HasDiskCause (H.state host.old) (H.state host.new) result }
{
    let file = file_of(name, part);
    let found = host.look(&file)?;
    Ok(found.is_none())
}

// Whether a file of a table is as the groups made or left it last.
fn is_settled<H: Host>(host: &mut H, told: Told, name: &Name, part: Part) -> Result<bool, Fault>
    ensures settled { IsTrue H.tells → IfOk result (λ b. b ≡ is_settled told ((H.state host.old).folder (file name.now part))) }
    ensures same { IsTrue H.tells → Unchanged (H.state host.old) (H.state host.new) }
    ensures cause { HasDiskCause (H.state host.old) (H.state host.new) result }
{
    let _file = FileName::Control;
    match told {
        Told::Nothing => Ok(true),
        Told::Dropped => is_gone(host, name, part),
        Told::Made(at) => is_from(host, &file_of(name, part), at),
    }
}

// Whether both files of a table are.
fn has_settled<H: Host>(host: &mut H, analysis: &Analysis, name: &Name) -> Result<bool, Fault>
    ensures settled { IsTrue H.tells → (checkpoint : Number) (groups : Seq Logged) → Has checkpoint analysis.now groups → IfOk result (λ b. b ≡ has_settled (H.state host.old).folder groups name.now) }
    ensures same { IsTrue H.tells → Unchanged (H.state host.old) (H.state host.new) }
    ensures cause { HasDiskCause (H.state host.old) (H.state host.new) result }
{
    let _file = FileName::Control;
    let told = analysis.told(name);
    if !is_settled(host, told, name, Part::Keys)? {
        return Ok(false);
    }
    is_settled(host, told, name, Part::Rows)
}

// Whether the files of each of these tables are.
fn have_settled<H: Host>(host: &mut H, analysis: &Analysis, names: &[Name]) -> Result<bool, Fault>
    ensures settled { IsTrue H.tells → (checkpoint : Number) (groups : Seq Logged) → Has checkpoint analysis.now groups → IfOk result (λ b. b ≡ list_all (has_settled (H.state host.old).folder groups) names.now) }
    ensures same { IsTrue H.tells → Unchanged (H.state host.old) (H.state host.new) }
    ensures cause { HasDiskCause (H.state host.old) (H.state host.new) result }
{
    let _file = FileName::Control;
    for name in names {
        if !has_settled(host, analysis, name)? {
            return Ok(false);
        }
    }
    Ok(true)
}

// How many pages a file of a table has; none where it isn't there.
fn count_pages<H: Host>(host: &mut H, name: &Name, part: Part) -> Result<u32, Fault>
    ensures count { IsTrue H.tells → IfOk result (λ pages. page_count (file name.now part) (H.state host.new).folder ≡ pages) }
    ensures same { IsTrue H.tells → Unchanged (H.state host.old) (H.state host.new) }
    ensures cause { HasDiskCause (H.state host.old) (H.state host.new) result }
{
    let file = file_of(name, part);
    match host.look(&file)? {
        None => Ok(0),
        Some(extent) => Ok(extent.pages),
    }
}

// Whether a page of a file that has so many doesn't stand before its last edit. It must be sound, and not ahead of a log that
// ends here.
fn is_past<H: Host>(
    host: &mut H,
    end: Lsn,
    name: &Name,
    part: Part,
    written: u32,
    page: u32,
    edit: Lsn,
) -> Result<bool, Fault>
    requires written { IsTrue H.tells → page_count (file name.now part) (H.state host.old).folder ≡ written }
    ensures past { IsTrue H.tells → IfOk result (λ b. b ≡ is_past (H.state host.old).folder name.now part (page, edit)) }
    ensures same { IsTrue H.tells → Unchanged (H.state host.old) (H.state host.new) }
    ensures cause { (among : Spot → Bool) → among (record { name = name.now; part = part; page = page }) ≡ true → HasPageCause H.tells end among (H.state host.old) (H.state host.new) result }
{
    let file = file_of(name, part);
    let found = read_or_zero(host, &file, written, page)?;
    if !found.is_sound() {
        return Err(Fault::PageDamaged { file, page });
    }
    let lsn = found.lsn();
    if !lsn.is_before(end) {
        return Err(log_damaged(bounded(end)));
    }
    Ok(!is_before(lsn, edit))
}

// Whether none of these pages of a file stands before its last edit.
fn are_past<H: Host>(
    host: &mut H,
    end: Lsn,
    name: &Name,
    part: Part,
    pages: &BTreeMap<u32, Lsn>,
) -> Result<bool, Fault>
    ensures past { IsTrue H.tells → IfOk result (λ b. b ≡ list_all (is_past (H.state host.old).folder name.now part) pages.now.entries) }
    ensures ordered { IfOk result (λ b. IsOrdered nat_cmp pages.now) }
    ensures same { IsTrue H.tells → Unchanged (H.state host.old) (H.state host.new) }
    ensures cause { (among : Spot → Bool) → ((n : ℕ) → IsTrue (is_some (get nat_cmp pages.now n)) → among (record { name = name.now; part = part; page = n }) ≡ true) → HasPageCause H.tells end among (H.state host.old) (H.state host.new) result }
{
    let _file = FileName::Control;
    let written = count_pages(host, name, part)?;
    for (page, edit) in pages.iter() {
        if !is_past(host, end, name, part, written, *page, *edit)? {
            return Ok(false);
        }
    }
    Ok(true)
}

// Whether redo leaves each page of a file of a table as it is.
fn is_redone<H: Host>(
    host: &mut H,
    analysis: &Analysis,
    end: Lsn,
    name: &Name,
    part: Part,
) -> Result<bool, Fault>
    ensures redone { IsTrue H.tells → (checkpoint : Number) (groups : Seq Logged) → Has checkpoint analysis.now groups → Rises 0 groups → IfOk result (λ b. IsTrue b ↔ AreRedone (H.state host.old).folder groups name.now part) }
    ensures same { IsTrue H.tells → Unchanged (H.state host.old) (H.state host.new) }
    ensures edited { (checkpoint : Number) (groups : Seq Logged) → Has checkpoint analysis.now groups → IfErr result (OfPage H.tells end (H.state host.old).folder (is_edited groups)) }
    ensures cause { HasPageCause H.tells end (λ s. true) (H.state host.old) (H.state host.new) result }
{
    let _file = FileName::Control;
    match analysis.pages(name, part) {
        Some(pages) => are_past(host, end, name, part, pages),
        None => Ok(true),
    }
}

// Whether redo leaves each page of both files as it is, of a table that the groups tell of.
fn has_redone<H: Host>(
    host: &mut H,
    analysis: &Analysis,
    end: Lsn,
    name: &Name,
) -> Result<bool, Fault>
    ensures redone { IsTrue H.tells → (checkpoint : Number) (groups : Seq Logged) → Has checkpoint analysis.now groups → Rises 0 groups → IfOk result (λ b. IsTrue b ↔ IsRedone (H.state host.old).folder groups name.now) }
    ensures same { IsTrue H.tells → Unchanged (H.state host.old) (H.state host.new) }
    ensures edited { (checkpoint : Number) (groups : Seq Logged) → Has checkpoint analysis.now groups → IfErr result (OfPage H.tells end (H.state host.old).folder (is_edited groups)) }
    ensures cause { HasPageCause H.tells end (λ s. true) (H.state host.old) (H.state host.new) result }
{
    let _file = FileName::Control;
    if !needs_slot(analysis, name) {
        return Ok(true);
    }
    if !is_redone(host, analysis, end, name, Part::Keys)? {
        return Ok(false);
    }
    is_redone(host, analysis, end, name, Part::Rows)
}

// The same of each of these tables.
fn have_redone<H: Host>(
    host: &mut H,
    analysis: &Analysis,
    end: Lsn,
    names: &[Name],
) -> Result<bool, Fault>
    ensures redone { IsTrue H.tells → (checkpoint : Number) (groups : Seq Logged) → Has checkpoint analysis.now groups → Rises 0 groups → IfOk result (λ b. IsTrue b ↔ All (IsRedone (H.state host.old).folder groups) names.now) }
    ensures same { IsTrue H.tells → Unchanged (H.state host.old) (H.state host.new) }
    ensures edited { (checkpoint : Number) (groups : Seq Logged) → Has checkpoint analysis.now groups → IfErr result (OfPage H.tells end (H.state host.old).folder (is_edited groups)) }
    ensures cause { HasPageCause H.tells end (λ s. true) (H.state host.old) (H.state host.new) result }
{
    let _file = FileName::Control;
    for name in names {
        if !has_redone(host, analysis, end, name)? {
            return Ok(false);
        }
    }
    Ok(true)
}

/// A pager over a folder whose log was found, where redo changes nothing and nothing is to be undone. Its tables are entered,
/// and nothing may be appended yet. `None`: the folder needs recovery.
pub(crate) fn look_found<H: Host>(
    alloc: Global,
    host: &mut H,
    log: Log,
    files: &[FileName],
    analysis: &Analysis,
    cache: u32,
) -> Result<Option<PageStore>, Fault>
    ensures settled { IsTrue H.tells → (checkpoint : Number) (base : ℕ) (groups : Seq Logged) → IsFound log (H.state host.old) base groups → Has checkpoint analysis.now groups → AreLow groups → AreListed files.now (H.state host.old).folder groups
        → IfOk result (λ found. Looks found (H.state host.new) base (H.state host.old).folder groups) }
    ensures tidy { IfOk result (λ found. IfSome found IsTidy) }
    ensures kept { IfOk result (λ found. IfSome found (λ store. store.kept ≡ None)) }
    ensures in_group { IfOk result (λ found. IfSome found (λ store. store.in_group ≡ false)) }
    ensures log { IfOk result (λ found. IfSome found (λ store. store.log ≡ log)) }
    ensures same { IsTrue H.tells → Unchanged (H.state host.old) (H.state host.new) }
    ensures missing { IsTrue H.tells → (checkpoint : Number) (groups : Seq Logged) → Has checkpoint analysis.now groups → IfErr result (LacksOne groups (H.state host.old).folder) }
    ensures many { (checkpoint : Number) (groups : Seq Logged) → Has checkpoint analysis.now groups → IfErr result (AreMany groups) }
    ensures edited { (checkpoint : Number) (groups : Seq Logged) → Has checkpoint analysis.now groups → IfErr result (OfEditedPage H.tells log groups (H.state host.old).folder) }
    ensures cause { HasLookCause H.tells log (H.state host.old) (H.state host.new) result }
{
    let _file = FileName::Control;
    if !analysis.pending().is_empty() {
        return Ok(None);
    }
    let names = analysis.names()?;
    if !have_settled(host, analysis, names.as_slice())? {
        return Ok(None);
    }
    let end = log.end();
    let store = enter_tables(alloc, host, log, false, files, analysis, cache)?;
    if !have_redone(host, analysis, end, names.as_slice())? {
        return Ok(None);
    }
    Ok(Some(store))
}
