use super::{crash_all, create, drop_table, force, look, open, put, slot_of, table_name};
use aria_host::{Fault, FileName, MemHost};
use aria_page::Name;
use std::alloc::Global;
use std::test::Fail;

// Makes the table with bytes on page 1, and brings this to the disk. Gives how many calls were made so far.
fn first_calls(alloc: Global, name: &Name) -> Result<u64, Fault> {
    let _file = FileName::Control;
    let mut host = MemHost::new(alloc);
    let mut store = open(alloc, &mut host)?;
    create(alloc, &mut store, &mut host, name)?;
    put(alloc, &mut store, &mut host, name, 1, b"first")?;
    force(&mut store, &mut host)?;
    Ok(host.calls())
}

// The same, and then drops the table and makes it again, as far as the calls don't fail.
fn make_twice(alloc: Global, host: &mut MemHost, name: &Name) -> Result<(), Fault> {
    let _file = FileName::Control;
    let mut store = open(alloc, host)?;
    create(alloc, &mut store, host, name)?;
    put(alloc, &mut store, host, name, 1, b"first")?;
    force(&mut store, host)?;
    drop_table(&mut store, host, name)?;
    create(alloc, &mut store, host, name)
}

// What an opening finds: 0 for the first table, 1 for none, and 2 for the second, which is empty.
fn found(alloc: Global, host: &mut MemHost, name: &Name) -> Result<u32, Fault> {
    let _file = FileName::Control;
    let mut store = open(alloc, host)?;
    if !store.has_table(name) {
        return Ok(1);
    }
    slot_of(&mut store, host, name)?;
    match look(alloc, &mut store, host, name, 1, b"first")? {
        Some((true, _)) => Ok(0),
        Some((false, _)) => Err(Fault::Input),
        None => Ok(2),
    }
}

// What is found where all calls fail from that one on, and a crash has this fate.
fn found_after(alloc: Global, stop: u64, letter: u8) -> Result<u32, Fault> {
    let _file = FileName::Control;
    let name = table_name()?;
    let mut host = MemHost::new(alloc);
    host.stop_at(stop);
    let _ = make_twice(alloc, &mut host, &name);
    crash_all(alloc, &mut host, letter)?;
    found(alloc, &mut host, &name)
}

// Whether the first table, none and the second are found in this order, where the calls fail later and later.
fn turns(alloc: Global, letter: u8) -> Result<bool, Fault> {
    let _file = FileName::Control;
    let name = table_name()?;
    let start = first_calls(alloc, &name)?;
    let mut last = 0;
    let mut gone = false;
    for nth in 0..50u64 {
        let now = found_after(alloc, start.wrapping_add(nth), letter)?;
        if now < last || nth == 0 && now != 0 {
            return Ok(false);
        }
        gone = gone || now == 1;
        last = now;
    }
    Ok(gone && last == 2)
}

#[test]
fn a_table_is_there_or_not(rt: HostRuntime) -> Result<(), Fail> {
    let _file = FileName::Control;
    let alloc = rt.alloc();
    assert!(rt; turns(alloc, b'l')?);
    assert!(rt; turns(alloc, b'k')?);
    assert!(rt; turns(alloc, b't')?);
    Ok(())
}
