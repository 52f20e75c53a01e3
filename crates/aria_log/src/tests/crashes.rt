ghost use Rattle.std.specs.Prelude.{◌≡◌, ◌<◌, ◌^◌, ℕ, List as Seq, IfOk, IfSome};
ghost use Rattle.aria_host.specs.Calls.{Unchanged};
ghost use Rattle.aria_host.specs.MemHost.{mem_state};
ghost use Rattle.aria_log.specs.declared.log.Log.{Log as LogValue};
ghost use Rattle.aria_log.specs.Pieces.{LogFiles, log_files};
ghost use Rattle.aria_record.specs.Logged.{Logged, lsn_at_place};
ghost use Rattle.aria_log.specs.Log.{IsOpened, place};
ghost use Rattle.aria_log.specs.Reading.{Entry, StandsAt};
ghost use Rattle.aria_log.specs.Stepping.{IsStep};

use super::faults::forced;
use super::{begin_before, commit_all, failing_host, first_byte, force_all, room_for, start};
use crate::{Log, Reader, Step};
use aria_host::{Fate, Fault, FileName, MemHost};
use aria_page::{List, Lsn, Page};
use std::alloc::{AllocError, Global};
use std::test::Fail;

// The place behind a step, and how many groups it tells; `None` at the log's end.
fn behind(step: &Step) -> Option<(Lsn, u32)>
    ensures { IfSome result (λ x. (log : LogValue) (files : LogFiles) (at : ℕ) (before more : Seq Entry) → StandsAt log files at before more → IsStep (place log) more step.now
        → (next : ℕ) × (before : Seq Entry) × (more : Seq Entry) × StandsAt log files next before more × (x.0 ≡ lsn_at_place next)) }
{
    match step {
        Step::Group { after, .. } => Some((*after, 1)),
        Step::Rest { after, .. } => Some((*after, 0)),
        Step::End => None,
    }
}

// How many groups stand in the log from there on.
fn count_groups(alloc: Global, log: &Log, host: &mut MemHost, from: Lsn) -> Result<u32, Fault>
    requires { (at : ℕ) × (before : Seq Entry) × (more : Seq Entry) × StandsAt log.now (log_files (mem_state host.old).folder) at before more × (from ≡ lsn_at_place at) }
    ensures { Unchanged (mem_state host.old) (mem_state host.new) }
{
    let _file = FileName::Log(1);
    let mut reader = Reader::new();
    let mut at = from;
    let mut count: u32 = 0;
    for _nth in 0..100_000u32 {
        let step = log.next(alloc, host, &mut reader, at)?;
        let Some((after, groups)) = behind(&step) else {
            return Ok(count);
        };
        count = count.wrapping_add(groups);
        at = after;
    }
    Ok(count)
}

// Opens the log from the first byte of a page on, and counts its groups.
fn open(alloc: Global, host: &mut MemHost, file: u32, page: u32) -> Result<(Log, u32), Fault>
    requires file { file < 2 ^ 24 }
    requires page { page < 1024 }
    ensures { IfOk result (λ found. (base : ℕ) × (groups : Seq Logged) × IsOpened found.0 (mem_state host.new) base groups found.0.last) }
{
    let _file = FileName::Log(1);
    let from = first_byte(file, page);
    let log = Log::open(alloc, host, from)?;
    let count = count_groups(alloc, &log, host, from)?;
    Ok((log, count))
}

// The fate of an unsynced write: kept, torn or lost.
fn fate_of(letter: u8) -> Fate {
    let mut torn = Page::zero();
    torn.put(0, &[1]);
    match letter {
        b'k' => Fate::Kept,
        b't' => Fate::Torn(torn),
        _ => Fate::Lost,
    }
}

// A crash with these fates of the unsynced writes, in their order. The others are lost.
fn crash(alloc: Global, host: &mut MemHost, fates: &str) -> Result<(), AllocError> {
    let mut picked = List::new(alloc);
    for letter in fates.as_bytes() {
        picked.push(fate_of(*letter))?;
    }
    host.crash(&picked)
}

// How many groups are found after a crash, and after one more was forced and another crash. The log was begun before page
// 1020 of file 1, three groups were forced there, each in a run of its own, and then so many in one run, in which the host's
// call of this number failed.
fn survive(alloc: Global, commits: u32, fails: u64, fates: &str) -> Result<(u32, u32), Fault> {
    let _file = FileName::Log(1);
    let mut host = failing_host(alloc, fails)?;
    let mut log = begin_before(alloc, &mut host, 1, 1020)?;
    force_all(alloc, &mut log, &mut host, 3)?;
    let _done = commit_all(alloc, &mut log, &mut host, commits).is_ok();
    crash(alloc, &mut host, fates)?;
    let (mut log, found) = open(alloc, &mut host, 1, 1020)?;
    start(&mut log, &mut host)?;
    commit_all(alloc, &mut log, &mut host, 1)?;
    crash(alloc, &mut host, "")?;
    let (_log, more) = open(alloc, &mut host, 1, 1020)?;
    Ok((found, more))
}

// Whether so many groups survive, and with one more after it.
fn survives(alloc: Global, fails: u64, fates: &str, groups: u32) -> bool {
    match survive(alloc, 818, fails, fates) {
        Ok((found, more)) => found == groups && more == groups.wrapping_add(1),
        Err(_) => false,
    }
}

// A run of 818 groups crosses the end of file 1: 817 of them are whole on its last page. Its calls write page 1023, make
// file 2 and write the first page there, and five of zeros behind it, and then sync both files.
#[test]
fn a_crash_at_the_end_of_a_file_leaves_a_front(rt: HostRuntime) -> Result<(), Fail> {
    let _file = FileName::Log(1);
    let alloc = rt.alloc();
    let calls = forced(alloc, 818, u64::MAX)?;
    let made = calls.wrapping_add(1);
    assert!(rt; survives(alloc, calls, "", 3));
    assert!(rt; survives(alloc, made, "k", 820));
    assert!(rt; survives(alloc, made, "l", 3));
    assert!(rt; survives(alloc, made, "t", 3));
    let synced = calls.wrapping_add(8);
    assert!(rt; survives(alloc, synced, "kk", 821));
    assert!(rt; survives(alloc, synced, "kl", 820));
    assert!(rt; survives(alloc, synced, "kt", 820));
    assert!(rt; survives(alloc, synced, "lk", 3));
    assert!(rt; survives(alloc, synced, "tk", 3));
    assert!(rt; survives(alloc, synced, "ll", 3));
    let both = calls.wrapping_add(9);
    assert!(rt; survives(alloc, both, "k", 821));
    assert!(rt; survives(alloc, both, "l", 820));
    assert!(rt; survives(alloc, both, "t", 820));
    assert!(rt; survives(alloc, u64::MAX, "", 821));
    Ok(())
}

// Forces two groups at the end of file 1 and two at the beginning of file 2, and purges file 1, where the purge's call of
// this number fails. Gives how many groups are found after a crash in file 2, and from their first one on; none where file 1
// is missing.
fn purge(alloc: Global, fails: u64) -> Result<(u32, u32), Fault> {
    let _file = FileName::Log(1);
    let mut host = room_for(alloc)?;
    let mut log = begin_before(alloc, &mut host, 1, 1022)?;
    force_all(alloc, &mut log, &mut host, 4)?;
    host.plan_fault(host.calls().wrapping_add(fails))?;
    let _done = log.purge(alloc, &mut host, first_byte(2, 0)).is_ok();
    crash(alloc, &mut host, "")?;
    let (_log, found) = open(alloc, &mut host, 2, 0)?;
    match open(alloc, &mut host, 1, 1022) {
        Ok((_log, all)) => Ok((found, all)),
        Err(Fault::FileMissing { .. }) => Ok((found, 0)),
        Err(fault) => Err(fault),
    }
}

// A purge of one file lists the names, and removes it.
#[test]
fn a_purge_that_stops_leaves_the_log(rt: HostRuntime) -> Result<(), Fail> {
    let _file = FileName::Log(1);
    let alloc = rt.alloc();
    assert_eq!(rt; purge(alloc, 0)?, (2, 4));
    assert_eq!(rt; purge(alloc, 1)?, (2, 4));
    assert_eq!(rt; purge(alloc, 2)?, (2, 0));
    Ok(())
}
