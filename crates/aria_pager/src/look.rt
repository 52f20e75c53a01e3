//! A folder is opened without a change, if it needs no recovery.

ghost use Rattle.std.specs.Prelude.{◌≡◌, ℕ, List as Seq, IsTrue, IfOk, IfErr};
ghost use Rattle.aria_page.specs.declared.lsn.Lsn.{Lsn as Number};
ghost use Rattle.aria_host.specs.Calls.{Narrows, Unchanged};
ghost use Rattle.aria_record.specs.Logged.{Logged};
ghost use Rattle.aria_pager.specs.Found.{HasCause};
ghost use Rattle.aria_pager.specs.Opening.{Finds, IsFolderFault, IsLateFault, OfFolder, OfGroups};
ghost use Rattle.aria_pager.specs.Inspected.{IsIdle, IsLookedAt, LooksAt};

use crate::at_rest::look_found;
use crate::find::{Found, find};
use crate::page_store::PageStore;
use aria_control::read;
use aria_host::{Fault, FileName, Host};
use aria_page::Lsn;
use std::alloc::Global;

/// What a look at a folder finds.
#[derive(Drop)]
pub enum Looked {
    /// Nothing was ever stored there.
    Fresh,
    /// It needs no recovery. Nothing is changed in it until a call is to append a group.
    Settled(PageStore),
    /// It needs recovery: files would be changed, made or removed, or undo records are pending. Its log ends here.
    Needs { end: Lsn },
}

// Looks at a folder whose log was found.
fn look_at<H: Host>(alloc: Global, host: &mut H, found: Found, cache: u32) -> Result<Looked, Fault>
    ensures idle { IfOk result IsIdle }
    ensures looked { IsTrue H.tells → (checkpoint : Number) (base : ℕ) (groups : Seq Logged) → Finds found (H.state host.old) checkpoint base groups → IfOk result (LooksAt (H.state host.old).folder (H.state host.new) base groups) }
    ensures same { IsTrue H.tells → Unchanged (H.state host.old) (H.state host.new) }
    ensures why { IsTrue H.tells → (checkpoint : Number) (base : ℕ) (groups : Seq Logged) → Finds found (H.state host.old) checkpoint base groups → IfErr result (OfGroups base groups (H.state host.old).folder (H.state host.new).folder) }
    ensures cause { HasCause (IsLateFault H.tells) (H.state host.old) (H.state host.new) result }
{
    let _file = FileName::Control;
    let Found {
        log,
        files,
        analysis,
        from: _,
    } = found;
    let end = log.end();
    match look_found(alloc, host, log, files.as_slice(), &analysis, cache)? {
        None => Ok(Looked::Needs { end }),
        Some(store) => Ok(Looked::Settled(store)),
    }
}

impl PageStore {
    /// Opens the folder without a change, if it needs no recovery. There is room for so many pages in memory, but for 64 at
    /// least.
    pub fn look<H: Host>(alloc: Global, host: &mut H, cache: u32) -> Result<Looked, Fault>
        ensures idle { IfOk result IsIdle }
        ensures looked { IsTrue H.tells → IfOk result (IsLookedAt (H.state host.old) (H.state host.new)) }
        ensures same { IsTrue H.tells → Narrows (H.state host.old) (H.state host.new) }
        ensures why { IsTrue H.tells → IfErr result (OfFolder (H.state host.old).folder (H.state host.new).folder) }
        ensures cause { HasCause (IsFolderFault H.tells) (H.state host.old) (H.state host.new) result }
    {
        let _file = FileName::Control;
        match read(alloc, host)? {
            aria_control::Found::Fresh => Ok(Looked::Fresh),
            aria_control::Found::Kept(_) => {
                let found = find(alloc, host)?;
                look_at(alloc, host, found, cache)
            }
        }
    }
}
