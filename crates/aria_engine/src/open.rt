//! Opens a store.

ghost use Rattle.std.specs.Prelude.{◌≡◌, ◌≤◌, map, length, IfOk, IfErr, OnOk, IsTrue, None, is_ok};
ghost use Rattle.aria_host.specs.Folder.{page_count};
ghost use Rattle.aria_host.specs.State.{LeavesOnly};
ghost use Rattle.aria_host.specs.Calls.{HasDiskCause, HaveNames, Unchanged};
ghost use Rattle.aria_journal.specs.declared.opened.Frame.{Frame};
ghost use Rattle.aria_journal.specs.Front.{end_of};
ghost use Rattle.aria_journal.specs.Log.{log_file, log_pages, IsLogAtRest};
ghost use Rattle.aria_model.specs.World.{World};
ghost use Rattle.aria_engine.specs.Holds.{Holds, EachHolds, AreLogAlone};
ghost use Rattle.aria_engine.specs.Opening.{ChangesLogAlone, HasLogCause, HasReplayCause, HoldsLog, Keeps, Opens, Recovered, Replays, SameLog};
ghost use Rattle.aria_engine.specs.Store.{tables_of, pages_of, IsFresh, IsRunning, IsSilent, StillHolds, SameFaults, NoFewerFaults, HasOpenCause};

use crate::others::find_other;
use crate::replay::replay;
use crate::store::{FILE, Store};
use crate::tally::Tally;
use aria_host::{Fault, FileName, Host};
use aria_journal::{Frame, Log, Opened};
use aria_memory::Tables;
use aria_page::Bytes;
use std::alloc::Global;

// Makes the log's file where it isn't there, and else brings it to the disk as it reads. The names of the folder's files
// are on the disk already: a sync says nothing of them.
fn settle<H: Host>(host: &mut H) -> Result<(), Fault>
    requires { IsTrue H.tells → HaveNames (H.state host.old) }
    ensures keeps { IsTrue H.tells → Keeps (H.state host.old) (H.state host.new) }
    ensures opens { IsTrue H.tells → Opens (H.state host.old) (H.state host.new) (is_ok result) }
    ensures rest { IsTrue H.tells → OnOk result (IsLogAtRest (H.state host.new)) }
    ensures same { IsTrue H.tells → OnOk result (SameLog (H.state host.old) (H.state host.new)) }
    ensures cause { HasDiskCause (H.state host.old) (H.state host.new) result }
{
    match host.look(&FileName::Log(FILE))? {
        None => host.create(&FileName::Log(FILE)),
        Some(_) => host.sync(&FileName::Log(FILE)),
    }
}

// The store of a log that was opened: its lines are executed anew.
fn rebuild(alloc: Global, log: Log, frames: &[Frame]) -> Result<Store, Fault>
    ensures fresh { IfOk result (λ store. IsFresh store) }
    ensures log { IfOk result (λ store. store.log ≡ log) }
    ensures replays { IfOk result (λ store. Replays (map (λ (f : Frame). f.bytes) frames.now) (tables_of store)) }
    ensures cause { IfErr result (λ fault. HasReplayCause fault (map (λ (f : Frame). f.bytes) frames.now) (map (λ (f : Frame). f.page) frames.now)) }
{
    let mut tables = Tables::new(alloc);
    match replay(alloc, &mut tables, frames) {
        Err(error) => Err(Fault::Memory(error)),
        Ok(Some(page)) => Err(Fault::LogDamaged { file: FILE, page }),
        Ok(None) => Ok(Store {
            tables,
            log,
            text: Bytes::new(alloc),
            tally: Tally::new(alloc),
            kept: None,
        }),
    }
}

// The store of the folder's log, which isn't started yet.
fn recover<H: Host>(alloc: Global, host: &mut H) -> Result<Store, Fault>
    ensures fresh { IfOk result (λ store. IsFresh store) }
    ensures recovered { IsTrue H.tells → IfOk result (λ store. Recovered store (H.state host.old).folder) }
    ensures same { IsTrue H.tells → Unchanged (H.state host.old) (H.state host.new) }
    ensures cause { IfErr result (λ fault. HasLogCause H.tells fault (H.state host.old) (H.state host.new)) }
    ensures calm { OnOk result (SameFaults (H.state host.old) (H.state host.new)) }
    ensures later { NoFewerFaults (H.state host.old) (H.state host.new) }
{
    match aria_journal::open(alloc, host) {
        Err(fault) => Err(fault),
        Ok(Opened::Damaged { page }) => Err(Fault::LogDamaged { file: FILE, page }),
        Ok(Opened::Sound(log, frames)) => rebuild(alloc, log, frames.as_slice()),
    }
}

// The store of the folder's log.
fn resume<H: Host>(alloc: Global, host: &mut H) -> Result<Store, Fault>
    requires { IsTrue H.tells → HaveNames (H.state host.old) }
    ensures fresh { IfOk result (λ store. IsFresh store) }
    ensures holds { IsTrue H.tells → IfOk result (λ store. HoldsLog (H.state host.old).folder (tables_of store)) }
    ensures running { IsTrue H.tells → IfOk result (λ store. IsRunning store (H.state host.new)) }
    ensures ends { IsTrue H.tells → IfOk result (λ store. pages_of store ≡ end_of (log_pages (H.state host.old).folder)) }
    ensures pages { IsTrue H.tells → IfOk result (λ store. pages_of store ≤ page_count log_file (H.state host.old).folder) }
    ensures keeps { IsTrue H.tells → Keeps (H.state host.old) (H.state host.new) }
    ensures opens { IsTrue H.tells → Opens (H.state host.old) (H.state host.new) (is_ok result) }
    ensures cause { IfErr result (λ fault. HasLogCause H.tells fault (H.state host.old) (H.state host.new)) }
    ensures calm { OnOk result (SameFaults (H.state host.old) (H.state host.new)) }
    ensures later { NoFewerFaults (H.state host.old) (H.state host.new) }
{
    settle(host)?;
    match recover(alloc, host) {
        Err(fault) => Err(fault),
        Ok(mut store) => match store.start(host) {
            Err(fault) => Err(fault),
            Ok(()) => Ok(store),
        },
    }
}

impl Store {
    // Starts the log of a store that was recovered.
    fn start<H: Host>(&mut self, host: &mut H) -> Result<(), Fault>
        requires recovered { IsTrue H.tells → Recovered self.old (H.state host.old).folder }
        requires rest { IsTrue H.tells → IsLogAtRest (H.state host.old) }
        ensures running { IsTrue H.tells → OnOk result (IsRunning self.new (H.state host.new)) }
        ensures ends { IsTrue H.tells → pages_of self.new ≡ end_of (log_pages (H.state host.old).folder) }
        ensures pages { IsTrue H.tells → pages_of self.new ≤ length (log_pages (H.state host.old).folder) }
        ensures keeps { IsTrue H.tells → Keeps (H.state host.old) (H.state host.new) }
        ensures tables { tables_of self.new ≡ tables_of self.old }
        ensures fresh { IsFresh self.old → IsFresh self.new }
        ensures cause { HasDiskCause (H.state host.old) (H.state host.new) result }
    {
        self.log.start(host)
    }

    /// Opens the store of the folder: reads the tables from its log, and leaves the log ready for more. A folder without
    /// a log has no tables. Where the folder is damaged it is left as it is. Files other than the log's are left as they
    /// are, whatever is answered.
    pub fn open<H: Host>(alloc: Global, host: &mut H) -> Result<Store, Fault>
        ensures fresh { IfOk result (λ store. IsFresh store) }
        ensures holds { IsTrue H.tells → IfOk result (λ store. Holds (H.state host.old).folder (tables_of store)) }
        ensures running { IsTrue H.tells → IfOk result (λ store. IsRunning store (H.state host.new)) }
        ensures ends { IsTrue H.tells → IfOk result (λ store. pages_of store ≡ end_of (log_pages (H.state host.old).folder)) }
        ensures pages { IsTrue H.tells → IfOk result (λ store. pages_of store ≤ page_count log_file (H.state host.old).folder) }
        ensures moments { IsTrue H.tells → (world : World) → EachHolds (H.state host.old) world
            → LeavesOnly (H.state host.old) (H.state host.new) (StillHolds world (H.state host.old).out) }
        ensures opens { IsTrue H.tells → Opens (H.state host.old) (H.state host.new) (is_ok result) }
        ensures silent { IsTrue H.tells → IsSilent (H.state host.old) (H.state host.new) }
        ensures each { IsTrue H.tells → (world : World) → EachHolds (H.state host.old) world → EachHolds (H.state host.new) world }
        ensures others { IsTrue H.tells → ChangesLogAlone (H.state host.old) (H.state host.new) }
        ensures alone { IsTrue H.tells → OnOk result (AreLogAlone (H.state host.new)) }
        ensures cause { IfErr result (λ fault. HasOpenCause H.tells fault (H.state host.old) (H.state host.new)) }
        ensures calm { OnOk result (SameFaults (H.state host.old) (H.state host.new)) }
        ensures later { NoFewerFaults (H.state host.old) (H.state host.new) }
    {
        match find_other(alloc, host) {
            Err(fault) => Err(fault),
            Ok(Some(file)) => Err(Fault::NotOurs { file }),
            Ok(None) => resume(alloc, host),
        }
    }
}
