//! A folder is opened.

ghost use Rattle.std.specs.Prelude.{◌≡◌, ℕ, List as Seq, None, false, IsTrue, IfOk, IfErr, OnOk};
ghost use Rattle.aria_page.specs.declared.lsn.Lsn.{Lsn as Number};
ghost use Rattle.aria_host.specs.State.{LeavesOnly};
ghost use Rattle.aria_record.specs.Logged.{Logged};
ghost use Rattle.aria_log.specs.Log.{place};
ghost use Rattle.aria_pager.specs.Opening.{IsCleared, Finds, AtGroups, IsReopened, IsOpenedPager, LeavesOpened, OfGroups, IsLateFault, OfReopened, IsReopenFault, OfOpen, IsOpenFault};
ghost use Rattle.aria_pager.specs.Headers.{HaveHeaders, AreToldOf};
ghost use Rattle.aria_pager.specs.Found.{HasCause};
ghost use Rattle.aria_pager.specs.View.{IsTidy};

use crate::enter::enter;
use crate::find::{Found, find};
use crate::page_store::PageStore;
use crate::prepare::prepare;
use aria_host::{Fault, FileName, Host};
use std::alloc::Global;

// Opens a folder whose log was found.
fn open_found<H: Host>(
    alloc: Global,
    host: &mut H,
    found: Found,
    cache: u32,
) -> Result<PageStore, Fault>
    requires found { IsTrue H.tells → (checkpoint : Number) × (base : ℕ) × (groups : Seq Logged) × Finds found (H.state host.old) checkpoint base groups }
    ensures tidy { IfOk result IsTidy }
    ensures kept { IfOk result (λ store. store.kept ≡ None) }
    ensures in_group { IfOk result (λ store. store.in_group ≡ false) }
    ensures pager { IsTrue H.tells → (checkpoint : Number) (base : ℕ) (groups : Seq Logged) → Finds found (H.state host.old) checkpoint base groups → IfOk result (IsReopened (H.state host.old) (H.state host.new) base groups) }
    ensures log { IsTrue H.tells → (checkpoint : Number) (base : ℕ) (groups : Seq Logged) → Finds found (H.state host.old) checkpoint base groups → IfOk result (λ store. place store.log ≡ place found.log) }
    ensures told { IsTrue H.tells → (checkpoint : Number) (base : ℕ) (groups : Seq Logged) → Finds found (H.state host.old) checkpoint base groups → IfOk result (λ store. AreToldOf store groups) }
    ensures keeps { IsTrue H.tells → (checkpoint : Number) (base : ℕ) (groups : Seq Logged) → Finds found (H.state host.old) checkpoint base groups → LeavesOnly (H.state host.old) (H.state host.new) (AtGroups (H.state host.old) base groups) }
    ensures cleared { IsTrue H.tells → (checkpoint : Number) (base : ℕ) (groups : Seq Logged) → Finds found (H.state host.old) checkpoint base groups → OnOk result (IsCleared (H.state host.new).folder) }
    ensures why { IsTrue H.tells → (checkpoint : Number) (base : ℕ) (groups : Seq Logged) → Finds found (H.state host.old) checkpoint base groups → IfErr result (OfGroups base groups (H.state host.old).folder (H.state host.new).folder) }
    ensures cause { HasCause (IsLateFault H.tells) (H.state host.old) (H.state host.new) result }
{
    let _file = FileName::Control;
    let Found {
        log,
        files,
        analysis,
        from,
    } = found;
    let log = prepare(alloc, host, log, files.as_slice(), &analysis)?;
    let mut store = enter(alloc, host, log, files.as_slice(), &analysis, cache)?;
    store.redo(alloc, host, &analysis, from)?;
    Ok(store)
}

// The same, where each table that the groups tell of begins with a header then.
fn open_checked<H: Host>(
    alloc: Global,
    host: &mut H,
    found: Found,
    cache: u32,
) -> Result<PageStore, Fault>
    requires found { IsTrue H.tells → (checkpoint : Number) × (base : ℕ) × (groups : Seq Logged) × Finds found (H.state host.old) checkpoint base groups }
    ensures tidy { IfOk result IsTidy }
    ensures kept { IfOk result (λ store. store.kept ≡ None) }
    ensures in_group { IfOk result (λ store. store.in_group ≡ false) }
    ensures pager { IsTrue H.tells → (checkpoint : Number) (base : ℕ) (groups : Seq Logged) → Finds found (H.state host.old) checkpoint base groups → IfOk result (IsReopened (H.state host.old) (H.state host.new) base groups) }
    ensures headers { IsTrue H.tells → IfOk result (λ store. HaveHeaders store (H.state host.new).folder) }
    ensures keeps { IsTrue H.tells → (checkpoint : Number) (base : ℕ) (groups : Seq Logged) → Finds found (H.state host.old) checkpoint base groups → LeavesOnly (H.state host.old) (H.state host.new) (AtGroups (H.state host.old) base groups) }
    ensures cleared { IsTrue H.tells → (checkpoint : Number) (base : ℕ) (groups : Seq Logged) → Finds found (H.state host.old) checkpoint base groups → OnOk result (IsCleared (H.state host.new).folder) }
    ensures why { IsTrue H.tells → (checkpoint : Number) (base : ℕ) (groups : Seq Logged) → Finds found (H.state host.old) checkpoint base groups → IfErr result (OfReopened base groups (H.state host.old).folder (H.state host.new).folder) }
    ensures cause { HasCause (IsReopenFault H.tells) (H.state host.old) (H.state host.new) result }
{
    let _file = FileName::Control;
    let store = open_found(alloc, host, found, cache)?;
    store.check_tables(host)?;
    Ok(store)
}

impl PageStore {
    /// Opens the folder. There is room for so many pages in memory, but for 64 at least.
    pub fn open<H: Host>(alloc: Global, host: &mut H, cache: u32) -> Result<PageStore, Fault>
        ensures tidy { IfOk result IsTidy }
        ensures kept { IfOk result (λ store. store.kept ≡ None) }
        ensures in_group { IfOk result (λ store. store.in_group ≡ false) }
        ensures pager { IsTrue H.tells → IfOk result (IsOpenedPager (H.state host.old) (H.state host.new)) }
        ensures headers { IsTrue H.tells → IfOk result (λ store. HaveHeaders store (H.state host.new).folder) }
        ensures moments { IsTrue H.tells → LeavesOpened (H.state host.old) (H.state host.new) }
        ensures cleared { IsTrue H.tells → OnOk result (IsCleared (H.state host.new).folder) }
        ensures why { IsTrue H.tells → IfErr result (OfOpen (H.state host.old).folder (H.state host.new).folder) }
        ensures cause { HasCause (IsOpenFault H.tells) (H.state host.old) (H.state host.new) result }
    {
        let _file = FileName::Control;
        let found = find(alloc, host)?;
        open_checked(alloc, host, found, cache)
    }
}
