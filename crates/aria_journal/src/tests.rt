ghost use Rattle.std.specs.Prelude.{◌<◌, IfOk, IfSome, OnOk};
ghost use Rattle.aria_host.specs.MemHost.{mem_state};
ghost use Rattle.aria_journal.specs.Log.{IsLogAtRest, IsRunning};

use crate::{Frame, Log, Opened, is_frame, open};
use aria_host::{Fate, Fault, FileName, MemHost};
use aria_page::{Bytes, List, Page};
use std::alloc::{AllocError, Global};
use std::test::Fail;

const FILE: FileName = FileName::Log(1);

// An empty folder.
fn empty_folder(alloc: Global) -> Result<MemHost, AllocError>
    ensures { IfOk result (λ host. IsLogAtRest (mem_state host)) }
{
    let mut host = MemHost::new(alloc);
    host.reserve(100, 0)?;
    Ok(host)
}

// A crash that keeps those of the unsynced writes, in their order, and loses the others.
fn crash(alloc: Global, host: &mut MemHost, kept: &[bool]) -> Result<(), AllocError>
    ensures { OnOk result (IsLogAtRest (mem_state host.new)) }
{
    let mut fates = List::new(alloc);
    for keep in kept {
        fates.push(if *keep { Fate::Kept } else { Fate::Lost })?;
    }
    host.crash(&fates)
}

// The frame of that number, which tells it from others of its length.
fn frame_of(alloc: Global, number: usize, length: usize) -> Result<Bytes, AllocError> {
    let mut bytes = Bytes::new(alloc);
    for _ in 0..length {
        bytes.push((number % 256) as u8)?;
    }
    Ok(bytes)
}

// Whether these are the frames of those lengths, numbered from 0 on.
fn are_frames(alloc: Global, frames: &[Frame], lengths: &[usize]) -> Result<bool, AllocError> {
    for (number, length) in lengths.iter().enumerate() {
        let wanted = frame_of(alloc, number, *length)?;
        match frames.get(number) {
            Some(frame) if frame.bytes.as_slice() == wanted.as_slice() => {}
            _ => return Ok(false),
        }
    }
    Ok(frames.len() == lengths.len())
}

// Opens the log and starts it, if it has frames of these lengths.
fn begin(alloc: Global, host: &mut MemHost, lengths: &[usize]) -> Result<Option<Log>, Fault>
    requires { IsLogAtRest (mem_state host.old) }
    ensures { IfOk result (λ begun. IfSome begun (λ log. IsRunning log (mem_state host.new))) }
{
    match open(alloc, host)? {
        Opened::Sound(log, frames) => {
            let mut log = log;
            if !are_frames(alloc, frames.as_slice(), lengths)? {
                return Ok(None);
            }
            log.start(host)?;
            Ok(Some(log))
        }
        Opened::Damaged { .. } => Ok(None),
    }
}

// Appends any bytes, and says whether the log takes them.
fn add(log: &mut Log, host: &mut MemHost, bytes: &[u8]) -> Result<bool, Fault>
    requires { IsRunning log.old (mem_state host.old) }
    ensures { OnOk result (IsRunning log.new (mem_state host.new)) }
{
    let _file = FILE;
    if !is_frame(bytes) || !log.has_room(bytes) {
        return Ok(false);
    }
    log.append(host, bytes)?;
    Ok(true)
}

// Appends frames of these lengths, numbered from there on, and says whether the log takes them all.
fn add_all(
    alloc: Global,
    log: &mut Log,
    host: &mut MemHost,
    from: usize,
    lengths: &[usize],
) -> Result<bool, Fault>
    requires { IsRunning log.old (mem_state host.old) }
    ensures { OnOk result (IsRunning log.new (mem_state host.new)) }
{
    let _file = FILE;
    let mut taken = true;
    for (number, length) in lengths.iter().enumerate() {
        let frame = frame_of(alloc, from.wrapping_add(number), *length)?;
        taken &= add(log, host, frame.as_slice())?;
    }
    Ok(taken)
}

// Begins a log with this frame, forced.
fn add_one(alloc: Global, host: &mut MemHost, bytes: &[u8]) -> Result<bool, Fault>
    requires { IsLogAtRest (mem_state host.old) }
{
    let _file = FILE;
    let mut log = match begin(alloc, host, &[])? {
        Some(log) => log,
        None => return Ok(false),
    };
    let taken = add(&mut log, host, bytes)?;
    log.force(host)?;
    Ok(taken)
}

// Appends frames and forces them, and appends frames behind them.
fn add_and_force(
    alloc: Global,
    host: &mut MemHost,
    forced: &[usize],
    behind: &[usize],
) -> Result<bool, Fault>
    requires { IsLogAtRest (mem_state host.old) }
{
    let _file = FILE;
    let mut log = match begin(alloc, host, &[])? {
        Some(log) => log,
        None => return Ok(false),
    };
    let mut taken = add_all(alloc, &mut log, host, 0, forced)?;
    log.force(host)?;
    taken &= add_all(alloc, &mut log, host, forced.len(), behind)?;
    Ok(taken)
}

// Opens the log again, which has frames of these lengths, and forces one of 7 bytes; how many pages it has then.
fn go_on(alloc: Global, host: &mut MemHost, found: &[usize]) -> Result<Option<u64>, Fault>
    requires { IsLogAtRest (mem_state host.old) }
{
    let _file = FILE;
    let mut log = match begin(alloc, host, found)? {
        Some(log) => log,
        None => return Ok(None),
    };
    if !add_all(alloc, &mut log, host, found.len(), &[7])? {
        return Ok(None);
    }
    log.force(host)?;
    Ok(Some(log.pages()))
}

// What the log of a folder is: its frames, where it isn't damaged.
fn frames_of(alloc: Global, host: &mut MemHost) -> Result<Result<List<Frame>, u32>, Fault> {
    match open(alloc, host)? {
        Opened::Sound(_, frames) => Ok(Ok(frames)),
        Opened::Damaged { page } => Ok(Err(page)),
    }
}

// Whether a crash leaves frames of the lengths found, and a frame of 7 bytes is kept behind them, on so many pages.
fn survives(
    alloc: Global,
    forced: &[usize],
    behind: &[usize],
    kept: &[bool],
    found: &[usize],
    pages: u64,
) -> Result<bool, Fault> {
    let mut host = empty_folder(alloc)?;
    if !add_and_force(alloc, &mut host, forced, behind)? {
        return Ok(false);
    }
    crash(alloc, &mut host, kept)?;
    if go_on(alloc, &mut host, found)? != Some(pages) {
        return Ok(false);
    }
    let mut all = List::from_slice(alloc, found)?;
    all.push(7)?;
    match frames_of(alloc, &mut host)? {
        Ok(frames) => Ok(are_frames(alloc, frames.as_slice(), all.as_slice())?),
        Err(_) => Ok(false),
    }
}

// A frame takes 4 bytes more than its own, and a page has 8176.
#[test]
fn a_crash_leaves_the_forced_frames(rt: HostRuntime) -> Result<(), Fail> {
    let _file = FILE;
    let alloc = rt.alloc();
    let some: &[usize] = &[1, 8172, 20000];
    let more: &[usize] = &[1, 8172, 20000, 100];
    // Nothing was appended: the log has no page.
    assert!(rt; survives(alloc, &[], &[], &[], &[], 1)?);
    // 5 + 8176 + 20004 bytes: 4 pages. Behind them 104 + 9004 bytes: a page that isn't synced, and a rest in memory.
    assert!(rt; survives(alloc, some, &[100, 9000], &[], some, 5)?);
    assert!(rt; survives(alloc, some, &[100, 9000], &[true], more, 6)?);
    // Two pages that aren't synced, of which the first is lost: both are cut off.
    assert!(rt; survives(alloc, some, &[20000], &[false, true], some, 5)?);
    // A page that is full is written once a further byte comes.
    assert!(rt; survives(alloc, &[8172], &[], &[], &[8172], 2)?);
    assert!(rt; survives(alloc, &[], &[8172], &[true], &[], 1)?);
    assert!(rt; survives(alloc, &[], &[8172, 1], &[true], &[8172], 2)?);
    Ok(())
}

// A frame of three bytes, forced in a log without pages (docs/FORMATS.md).
#[test]
fn a_frame_is_spelled_on_its_page(rt: HostRuntime) -> Result<(), Fail> {
    let alloc = rt.alloc();
    let mut host = empty_folder(alloc)?;
    assert!(rt; add_one(alloc, &mut host, b"abc")?);
    let page = host.page(&FILE, 0).ok_or("no page")?;
    let front = [
        0x03, 0x14, 0x4c, 0x5f, 0, 0, 1, 0, 0, 0, 0, 10, 1, 0, 0, 7, 0, 0, 0, 3, b'a', b'b', b'c',
    ];
    assert!(rt; page.bytes().starts_with(&front));
    assert!(rt; page.bytes()[23..].iter().all(|byte| *byte == 0));
    assert!(rt; host.page(&FILE, 1).is_none());
    Ok(())
}

// What is found once a page of a log of two runs, on pages 0 to 3 and on page 4, holds zeros: how many frames, or the
// page at which the log is damaged.
fn found_without(alloc: Global, page: u32) -> Result<Result<usize, u32>, Fault>
    requires { page < 5 }
{
    let mut host = empty_folder(alloc)?;
    let _ = add_and_force(alloc, &mut host, &[1, 8172, 20000], &[])?;
    crash(alloc, &mut host, &[])?;
    let _ = go_on(alloc, &mut host, &[1, 8172, 20000])?;
    host.set_page(&FILE, page, &Page::zero())?;
    match frames_of(alloc, &mut host)? {
        Ok(frames) => Ok(Ok(frames.len())),
        Err(page) => Ok(Err(page)),
    }
}

#[test]
fn a_page_lost_before_a_run_is_damage(rt: HostRuntime) -> Result<(), Fail> {
    let _file = FILE;
    let alloc = rt.alloc();
    assert!(rt; matches!(found_without(alloc, 0)?, Err(0)));
    assert!(rt; matches!(found_without(alloc, 1)?, Err(1)));
    assert!(rt; matches!(found_without(alloc, 3)?, Err(3)));
    assert!(rt; matches!(found_without(alloc, 4)?, Ok(3)));
    Ok(())
}
