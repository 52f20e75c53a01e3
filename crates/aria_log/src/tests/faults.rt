use super::{begin_before, commit_all, failing_host, force_all};
use aria_host::{Fault, FileName};
use std::alloc::Global;
use std::test::Fail;

// Begins a log before page 1020 of file 1 and forces three groups there, each in a run of its own, and then so many in one
// run, where the host's call of this number fails. Gives how many calls there were before the last run.
pub(super) fn forced(alloc: Global, commits: u32, fails: u64) -> Result<u64, Fault> {
    let _file = FileName::Log(1);
    let mut host = failing_host(alloc, fails)?;
    let mut log = begin_before(alloc, &mut host, 1, 1020)?;
    force_all(alloc, &mut log, &mut host, 3)?;
    let calls = host.calls();
    commit_all(alloc, &mut log, &mut host, commits)?;
    Ok(calls)
}

fn is_disk(answer: Result<u64, Fault>) -> bool {
    matches!(answer, Err(Fault::Disk))
}

// Where a run crosses the end of a file, its page there is written, the second file made and its first page written; five
// pages of zeros follow, as many as were written so far, and then both files are synced.
#[test]
fn a_fault_at_each_call_is_answered(rt: HostRuntime) -> Result<(), Fail> {
    let _file = FileName::Log(1);
    let alloc = rt.alloc();
    let calls = forced(alloc, 818, u64::MAX)?;
    for call in 0..calls.wrapping_add(10) {
        assert!(rt; is_disk(forced(alloc, 818, call)));
    }
    assert!(rt; !is_disk(forced(alloc, 818, calls.wrapping_add(10))));
    Ok(())
}
