ghost use Rattle.std.specs.Prelude.{◌≡◌, ◌<◌, ◌≤◌, ◌^◌, length, Some, IfOk};
ghost use Rattle.aria_host.specs.MemHost.{mem_state};
ghost use Rattle.aria_value.specs.Defined.{IsDefinition};
ghost use Rattle.aria_pager.specs.PageStore.{name_at};
ghost use Rattle.aria_pager.specs.Usable.{IsUsable};

mod crashes;
mod evictions;
mod faults;
mod frames;
mod headers;
mod looking;
mod reopened;
mod tables;

use crate::PageStore;
use aria_cache::PageId;
use aria_host::{Fate, Fault, FileName, MemHost};
use aria_page::{Change, Last, List, Lsn, Name, Page, Part, Place, Places, RedoKind};
use aria_value::{Definition, decode_definition};
use std::alloc::{AllocError, Global};

// The column a of numbers with the key k on it, and one row at most: 17 bytes.
const STORED: &[u8] = b"\x01\x01a\0\0\0\0\0\x01\x01k\x01\0\0\0\0\x01";

/// Room for as few pages in memory as there may be.
const FEW: u32 = 64;

/// What ends a group that puts a row on one page, without tail and blobs.
const ROW: Last = Last::RowInsert {
    places: Places {
        head: Place { page: 1, slot: 0 },
        tail: None,
        blob: 0,
        blobs: 0,
    },
};

fn definition(alloc: Global) -> Result<Definition, AllocError>
    ensures { IfOk result IsDefinition }
{
    match decode_definition(alloc, STORED)? {
        Some(definition) => Ok(definition),
        None => Err(AllocError),
    }
}

fn table_name() -> Result<Name, AllocError> {
    Name::read(b"t").ok_or(AllocError)
}

// Opens the folder, with room for 64 pages.
fn open(alloc: Global, host: &mut MemHost) -> Result<PageStore, Fault>
    ensures { IfOk result (λ store. IsUsable store (mem_state host.new)) }
{
    let _file = FileName::Control;
    let store = PageStore::open(alloc, host, FEW)?;
    Ok(store)
}

// Makes the table; a fault of input stands for one that is there.
fn create(
    alloc: Global,
    store: &mut PageStore,
    host: &mut MemHost,
    name: &Name,
) -> Result<(), Fault>
    requires { IsUsable store.old (mem_state host.old) }
    ensures { IsUsable store.new (mem_state host.new) }
{
    let _file = FileName::Control;
    let definition = definition(alloc)?;
    if store.has_table(name) {
        return Err(Fault::Input);
    }
    let answer = store.create_table(alloc, host, name, &definition);
    match answer {
        Ok(_) => Ok(()),
        Err(fault) => Err(fault),
    }
}

// Drops the table; a fault of input stands for one that isn't there.
fn drop_table(store: &mut PageStore, host: &mut MemHost, name: &Name) -> Result<(), Fault>
    requires { IsUsable store.old (mem_state host.old) }
    ensures { IsUsable store.new (mem_state host.new) }
{
    let _file = FileName::Control;
    if !store.has_table(name) {
        return Err(Fault::Input);
    }
    store.drop_table(host, name)
}

// The slot of the table; a fault of input stands for one that isn't there.
fn slot_of(store: &mut PageStore, host: &mut MemHost, name: &Name) -> Result<u32, Fault>
    requires { IsUsable store.old (mem_state host.old) }
    ensures rests { IsUsable store.new (mem_state host.new) }
    ensures named { IfOk result (λ n. name_at store.new n ≡ Some name.now) }
{
    let _file = FileName::Control;
    if !store.has_table(name) {
        return Err(Fault::Input);
    }
    store.table(host, name)
}

// Puts bytes at the front of a page of the data file, as a group that puts a row.
fn put(
    alloc: Global,
    store: &mut PageStore,
    host: &mut MemHost,
    name: &Name,
    page: u32,
    bytes: &[u8],
) -> Result<Lsn, Fault>
    requires rests { IsUsable store.old (mem_state host.old) }
    requires page { page < 2 ^ 31 }
    requires within { length bytes.now ≤ 8181 }
    ensures { IsUsable store.new (mem_state host.new) }
{
    let _file = FileName::Control;
    let slot = slot_of(store, host, name)?;
    let at = PageId {
        slot,
        part: Part::Rows,
        page,
    };
    let edit = Change::Set { at: 0, bytes };
    store.begin();
    match store.edit_kept(alloc, host, at, RedoKind::InsertRowHead, &[edit]) {
        Ok(()) => store.end_kept(host, slot, &ROW),
        Err(fault) => {
            store.leave();
            Err(fault)
        }
    }
}

fn lent_lsn(store: &PageStore) -> Lsn {
    match store.frames.front() {
        Some(frame) => frame.lsn,
        None => Lsn { file: 0, offset: 0 },
    }
}

// Whether a page of the data file begins with these bytes, and its log sequence number; `None` where there is no such page.
fn look(
    alloc: Global,
    store: &mut PageStore,
    host: &mut MemHost,
    name: &Name,
    page: u32,
    bytes: &[u8],
) -> Result<Option<(bool, Lsn)>, Fault>
    requires { IsUsable store.old (mem_state host.old) }
    ensures { IsUsable store.new (mem_state host.new) }
{
    let _file = FileName::Control;
    let slot = slot_of(store, host, name)?;
    if page >= store.count(slot, Part::Rows) {
        return Ok(None);
    }
    let at = PageId {
        slot,
        part: Part::Rows,
        page,
    };
    store.load(alloc, host, at)?;
    let begins = store.loaded().body().starts_with(bytes);
    Ok(Some((begins, lent_lsn(store))))
}

// Brings all groups to the disk.
fn force(store: &mut PageStore, host: &mut MemHost) -> Result<(), Fault>
    requires { IsUsable store.old (mem_state host.old) }
    ensures { IsUsable store.new (mem_state host.new) }
{
    let _file = FileName::Control;
    store.force(host)
}

// Appends COMMIT.
fn commit(store: &mut PageStore, host: &mut MemHost) -> Result<(), Fault>
    requires { IsUsable store.old (mem_state host.old) }
    ensures { IsUsable store.new (mem_state host.new) }
{
    let _file = FileName::Control;
    store.commit(host)
}

// Brings all to the disk, and lets the pages go.
fn close(alloc: Global, store: PageStore, host: &mut MemHost) -> Result<(), Fault>
    requires { IsUsable store (mem_state host.old) }
{
    let _file = FileName::Control;
    store.close(alloc, host)
}

// The fate of an unsynced write: kept, torn or lost.
fn fate_of(letter: u8) -> Fate {
    let mut torn = Page::zero();
    torn.put(0, &[1]);
    match letter {
        b'k' => Fate::Kept,
        b't' => Fate::Torn(torn),
        _ => Fate::Lost,
    }
}

// A crash with these fates of the unsynced writes, in their order. The others are lost.
fn crash(alloc: Global, host: &mut MemHost, fates: &str) -> Result<(), AllocError> {
    let mut picked = List::new(alloc);
    for letter in fates.as_bytes() {
        picked.push(fate_of(*letter))?;
    }
    host.crash(&picked)
}

// A crash in which the unsynced writes have these fates, in their order, and again from the first one on.
fn crash_in_turn(alloc: Global, host: &mut MemHost, fates: &str) -> Result<(), AllocError> {
    let mut picked = List::new(alloc);
    for _nth in 0..200u32 {
        for letter in fates.as_bytes() {
            picked.push(fate_of(*letter))?;
        }
    }
    host.crash(&picked)
}

// A crash in which all unsynced writes have the same fate.
fn crash_all(alloc: Global, host: &mut MemHost, letter: u8) -> Result<(), AllocError> {
    let mut picked = List::new(alloc);
    for _nth in 0..2000u32 {
        picked.push(fate_of(letter))?;
    }
    host.crash(&picked)
}
