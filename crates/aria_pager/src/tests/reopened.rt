use super::crashes::{fill, front};
use super::{crash_all, force, open, table_name};
use aria_host::{Fault, FileName, MemHost};
use aria_page::{List, Lsn, Name};
use std::alloc::Global;
use std::test::Fail;

// Fills a table with 200 groups that are forced, and lets a crash lose all other writes.
fn prepare(alloc: Global, host: &mut MemHost, name: &Name) -> Result<List<Lsn>, Fault> {
    let _file = FileName::Control;
    let mut store = open(alloc, host)?;
    let numbers = fill(alloc, &mut store, host, name, 200)?;
    force(&mut store, host)?;
    crash_all(alloc, host, b'l')?;
    Ok(numbers)
}

// How many calls the opening makes of the host then.
fn opening_calls(alloc: Global, name: &Name) -> Result<u64, Fault> {
    let _file = FileName::Control;
    let mut host = MemHost::new(alloc);
    prepare(alloc, &mut host, name)?;
    let before = host.calls();
    open(alloc, &mut host)?;
    Ok(host.calls().wrapping_sub(before))
}

// Opens the folder with all calls failing after so many, and lets a crash have this fate.
fn break_off(alloc: Global, host: &mut MemHost, after: u64, letter: u8) -> Result<(), Fault> {
    let _file = FileName::Control;
    let stop = host.calls().wrapping_add(after);
    host.stop_at(stop);
    let _ = open(alloc, host);
    crash_all(alloc, host, letter)?;
    Ok(())
}

// How many groups are found after three openings, where each broke off at so many eighths of its calls.
fn survive(alloc: Global, eighths: [u64; 3], letters: [u8; 3]) -> Result<Option<u32>, Fault> {
    let _file = FileName::Control;
    let name = table_name()?;
    let eighth = opening_calls(alloc, &name)? / 8;
    let mut host = MemHost::new(alloc);
    let numbers = prepare(alloc, &mut host, &name)?;
    let [first, second, third] = eighths;
    let [a, b, c] = letters;
    break_off(alloc, &mut host, eighth.wrapping_mul(first), a)?;
    break_off(alloc, &mut host, eighth.wrapping_mul(second), b)?;
    break_off(alloc, &mut host, eighth.wrapping_mul(third), c)?;
    let mut store = open(alloc, &mut host)?;
    front(alloc, &mut store, &mut host, &name, numbers.as_slice())
}

#[test]
fn an_opening_may_break_off_three_times(rt: HostRuntime) -> Result<(), Fail> {
    let _file = FileName::Control;
    let alloc = rt.alloc();
    assert_eq!(rt; survive(alloc, [0, 1, 2], *b"lkt")?, Some(200));
    assert_eq!(rt; survive(alloc, [5, 6, 7], *b"kkk")?, Some(200));
    assert_eq!(rt; survive(alloc, [7, 7, 7], *b"lll")?, Some(200));
    assert_eq!(rt; survive(alloc, [6, 7, 6], *b"ttt")?, Some(200));
    assert_eq!(rt; survive(alloc, [7, 5, 7], *b"klk")?, Some(200));
    Ok(())
}
