use crate::Log;
use aria_host::{Fault, FileName, MemHost};
use aria_page::{List, Lsn, Page};
use std::alloc::{AllocError, Global};
use std::test::Fail;

// A folder with the control file and the log files 3, 4, 5 and 7.
fn folder(alloc: Global) -> Result<MemHost, AllocError> {
    let zeros = Page::zero();
    let mut host = MemHost::new(alloc);
    host.set_page(&FileName::Control, 0, &zeros)?;
    host.set_page(&FileName::Log(7), 0, &zeros)?;
    host.set_page(&FileName::Log(3), 0, &zeros)?;
    host.set_page(&FileName::Log(5), 0, &zeros)?;
    host.set_page(&FileName::Log(4), 0, &zeros)?;
    host.reserve(8, 0)?;
    Ok(host)
}

// The files that are there, as digits: 1 for the control file, and then the numbers of log files.
fn files(host: &MemHost) -> u32 {
    let mut digits = u32::from(host.page(&FileName::Control, 0).is_some());
    for number in 2..9 {
        if host.page(&FileName::Log(number), 0).is_some() {
            digits = digits.wrapping_mul(10).wrapping_add(number);
        }
    }
    digits
}

// The files that a purge leaves after a crash, and whether it answered Ok, where the call of this number fails.
fn purged(alloc: Global, below: u32, fails: u64) -> Result<(u32, bool), Fault> {
    let _file = FileName::Control;
    let mut host = folder(alloc)?;
    host.plan_fault(fails)?;
    let log = Log::fresh(&host);
    let place = Lsn {
        file: below,
        offset: 16,
    };
    let done = log.purge(alloc, &mut host, place).is_ok();
    host.crash(&List::new(alloc))?;
    Ok((files(&host), done))
}

// A purge below file 6 lists the names, and removes the files 3, 4 and 5.
#[test]
fn a_purge_that_stops_leaves_no_gap(rt: HostRuntime) -> Result<(), Fail> {
    let _file = FileName::Log(1);
    let alloc = rt.alloc();
    assert_eq!(rt; purged(alloc, 6, 0)?, (13457, false));
    assert_eq!(rt; purged(alloc, 6, 1)?, (13457, false));
    assert_eq!(rt; purged(alloc, 6, 2)?, (1457, false));
    assert_eq!(rt; purged(alloc, 6, 3)?, (157, false));
    assert_eq!(rt; purged(alloc, 6, 4)?, (17, true));
    Ok(())
}

#[test]
fn a_purge_keeps_all_other_files(rt: HostRuntime) -> Result<(), Fail> {
    let _file = FileName::Log(1);
    let alloc = rt.alloc();
    assert_eq!(rt; purged(alloc, 0, 99)?, (13457, true));
    assert_eq!(rt; purged(alloc, 3, 99)?, (13457, true));
    assert_eq!(rt; purged(alloc, 4, 99)?, (1457, true));
    assert_eq!(rt; purged(alloc, 7, 99)?, (17, true));
    assert_eq!(rt; purged(alloc, 8, 99)?, (1, true));
    assert_eq!(rt; purged(alloc, 1 << 30, 99)?, (1, true));
    Ok(())
}
