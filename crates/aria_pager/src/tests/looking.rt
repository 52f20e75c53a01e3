ghost use Rattle.aria_host.specs.MemHost.{mem_state};
ghost use Rattle.aria_pager.specs.Usable.{IsUsable};

use super::{FEW, close, commit, crash_all, create, force, open, put, table_name};
use crate::{Looked, PageStore};
use aria_host::{Fault, FileName, Host, MemHost};
use aria_page::{Lsn, Name};
use std::alloc::Global;
use std::test::Fail;

// What a look at the folder finds.
fn found(alloc: Global, host: &mut MemHost) -> Result<&'static str, Fault> {
    let _file = FileName::Control;
    match PageStore::look(alloc, host, FEW)? {
        Looked::Fresh => Ok("fresh"),
        Looked::Settled(_) => Ok("settled"),
        Looked::Needs {
            end: Lsn {
                file: 1,
                offset: 16400,
            },
        } => Ok("needs from page 2"),
        Looked::Needs { .. } => Ok("needs"),
    }
}

// Appends COMMIT where that is done.
fn commit_where(store: &mut PageStore, host: &mut MemHost, done: bool) -> Result<(), Fault>
    requires { IsUsable store.old (mem_state host.old) }
    ensures { IsUsable store.new (mem_state host.new) }
{
    let _file = FileName::Control;
    if !done {
        return Ok(());
    }
    commit(store, host)
}

// A folder with a table, and a group on page 1 that is done or not. A crash loses the page.
fn crashed(alloc: Global, name: &Name, done: bool) -> Result<MemHost, Fault> {
    let _file = FileName::Control;
    let mut host = MemHost::new(alloc);
    let mut store = open(alloc, &mut host)?;
    create(alloc, &mut store, &mut host, name)?;
    put(alloc, &mut store, &mut host, name, 1, b"a")?;
    commit_where(&mut store, &mut host, done)?;
    force(&mut store, &mut host)?;
    crash_all(alloc, &mut host, b'l')?;
    Ok(host)
}

// What is found after the crash, and after an opening and a close.
fn settles(alloc: Global, done: bool) -> Result<(&'static str, &'static str), Fault> {
    let _file = FileName::Control;
    let name = table_name()?;
    let mut host = crashed(alloc, &name, done)?;
    let before = found(alloc, &mut host)?;
    let store = open(alloc, &mut host)?;
    close(alloc, store, &mut host)?;
    Ok((before, found(alloc, &mut host)?))
}

#[test]
fn a_look_makes_no_file(rt: HostRuntime) -> Result<(), Fail> {
    let _file = FileName::Control;
    let alloc = rt.alloc();
    let mut host = MemHost::new(alloc);
    assert_eq!(rt; found(alloc, &mut host)?, "fresh");
    let names = host.names(alloc)?;
    assert_eq!(rt; names.as_slice().len(), 0);
    Ok(())
}

// The group that makes the table is on the log's page 0, those behind it on page 1, so the log ends with page 2. A group that
// isn't done stays to be undone.
#[test]
fn a_look_tells_whether_recovery_is_needed(rt: HostRuntime) -> Result<(), Fail> {
    let _file = FileName::Control;
    let alloc = rt.alloc();
    let (before, after) = settles(alloc, true)?;
    assert_eq!(rt; before, "needs from page 2");
    assert_eq!(rt; after, "settled");
    let (before, after) = settles(alloc, false)?;
    assert_eq!(rt; before, "needs from page 2");
    assert_eq!(rt; after, "needs from page 2");
    Ok(())
}
