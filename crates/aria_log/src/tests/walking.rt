//! The log is read from its first group to its end.

ghost use Rattle.std.specs.Prelude.{◌≡◌, ◌≤◌, ◌*◌, ℕ, List, length, IfOk, OnOk};
ghost use Rattle.aria_host.specs.MemHost.{mem_state};
ghost use Rattle.aria_log.specs.Pieces.{Piece, log_files};
ghost use Rattle.aria_record.specs.Logged.{Logged};
ghost use Rattle.aria_log.specs.Log.{HasNoLog, IsLog};
ghost use Rattle.aria_log.specs.Reading.{IsReadable};

use super::{commit, empty_folder};
use crate::{Log, Reader, Step};
use aria_host::{Fault, FileName, MemHost};
use aria_page::Lsn;
use std::alloc::Global;
use std::test::Fail;

/// The place of the first byte of a new log.
const START: Lsn = Lsn {
    file: 1,
    offset: 16,
};

// The log of a folder that has none, started.
fn begin(host: &mut MemHost) -> Result<Log, Fault>
    requires { HasNoLog (mem_state host.old) }
    ensures { IfOk result (λ log. (groups : List Logged) × (forced : ℕ) × IsLog log (mem_state host.new) (8176 * 1024) groups forced) }
{
    let _file = FileName::Log(1);
    let mut log = Log::fresh(host);
    log.start(host)?;
    Ok(log)
}

// Appends COMMIT so many times, each in a run of its own, and then so many times without a force.
fn append(
    alloc: Global,
    log: &mut Log,
    host: &mut MemHost,
    forced: u32,
    more: u32,
) -> Result<(), Fault>
    requires { (groups : List Logged) × (forced : ℕ) × IsLog log.old (mem_state host.old) (8176 * 1024) groups forced }
    ensures { OnOk result ((groups : List Logged) × (forced : ℕ) × IsLog log.new (mem_state host.new) (8176 * 1024) groups forced) }
{
    let _file = FileName::Log(1);
    let group = commit(alloc)?;
    for _nth in 0..forced {
        log.append(host, group.as_slice())?;
        log.force(host)?;
    }
    for _again in 0..more {
        log.append(host, group.as_slice())?;
    }
    Ok(())
}

/// Bytes that begin no group: fewer follow than their length says.
const NO_GROUP: [u8; 8] = [0, 0, 0, 9, 1, 15, 0, 0];

// Puts so many bytes that are no group at the log's end.
fn spoil(log: &mut Log, host: &mut MemHost, count: usize) -> Result<(), Fault>
    requires count { count ≤ 8 }
    requires log { (groups : List Logged) × (forced : ℕ) × IsLog log.old (mem_state host.old) (8176 * 1024) groups forced }
    ensures { OnOk result ((front : List Piece) × IsReadable log.new (log_files (mem_state host.new).folder) (8176 * 1024) front × (length front ≡ 0 → log.new.used ≡ 0)) }
{
    let _file = FileName::Log(1);
    if count == 0 || log.number >= 1 << 30 {
        return Ok(());
    }
    log.add(host, &NO_GROUP[..count])
}

// What a walk over a log finds: how many groups, how many void bytes, and where it ends.
#[derive(Drop)]
struct Walked {
    groups: u64,
    void: u64,
    end: Lsn,
}

fn walk(alloc: Global, log: &Log, host: &mut MemHost) -> Result<Walked, Fault>
    requires { (front : List Piece) × IsReadable log.now (log_files (mem_state host.old).folder) (8176 * 1024) front × (length front ≡ 0 → log.now.used ≡ 0) }
{
    let _file = FileName::Log(1);
    let mut reader = Reader::new();
    let mut found = Walked {
        groups: 0,
        void: 0,
        end: START,
    };
    for _nth in 0..u64::MAX {
        match log.next(alloc, host, &mut reader, found.end)? {
            Step::Group { after, .. } => {
                found.groups = found.groups.saturating_add(1);
                found.end = after;
            }
            Step::Rest { bytes, after, .. } => {
                found.void = found.void.saturating_add(bytes);
                found.end = after;
            }
            Step::End => return Ok(found),
        }
    }
    Ok(found)
}

// Whether a walk over a log of so many groups, each of the first ones in a run of its own, finds all of them and then as
// many void bytes as were put behind, and ends at this place.
fn finds_all(alloc: Global, forced: u32, more: u32, void: usize, end: Lsn) -> Result<bool, Fault>
    requires { void ≤ 8 }
{
    let _file = FileName::Log(1);
    let mut host = empty_folder(alloc)?;
    let mut log = begin(&mut host)?;
    append(alloc, &mut log, &mut host, forced, more)?;
    spoil(&mut log, &mut host, void)?;
    let found = walk(alloc, &log, &mut host)?;
    let groups = u64::from(forced) + u64::from(more);
    Ok(found.groups == groups && found.void == void as u64 && found.end == end)
}

// Each group has ten bytes, so 817 of them and 6 bytes of the next one fill a page.
#[test]
fn a_walk_finds_what_was_appended(rt: HostRuntime) -> Result<(), Fail> {
    let _file = FileName::Log(1);
    let alloc = rt.alloc();
    let place = |file, offset| Lsn { file, offset };
    assert!(rt; finds_all(alloc, 0, 0, 0, place(1, 0x10))?);
    // In the page that isn't written yet.
    assert!(rt; finds_all(alloc, 0, 1, 0, place(1, 0x1a))?);
    // In runs that were forced, and behind them.
    assert!(rt; finds_all(alloc, 3, 0, 0, place(1, 0x6010))?);
    assert!(rt; finds_all(alloc, 2, 1, 0, place(1, 0x401a))?);
    // Across two pages, and across two files.
    assert!(rt; finds_all(alloc, 0, 818, 0, place(1, 0x2014))?);
    assert!(rt; finds_all(alloc, 1023, 818, 0, place(2, 0x14))?);
    // Void bytes, in a page and across two.
    assert!(rt; finds_all(alloc, 0, 0, 7, place(1, 0x17))?);
    assert!(rt; finds_all(alloc, 1, 1, 7, place(1, 0x2021))?);
    assert!(rt; finds_all(alloc, 0, 817, 8, place(1, 0x2012))?);
    Ok(())
}
