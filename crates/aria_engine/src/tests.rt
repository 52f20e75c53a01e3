use crate::Store;
use aria_host::{Fault, FileName, Host, MemHost, Stream};
use aria_page::{List, Page};
use std::alloc::Global;
use std::test::Fail;

// Opens the store of the folder and executes two lines, where nothing fails.
fn runs(alloc: Global, host: &mut MemHost, first: &[u8], second: &[u8]) -> bool {
    match Store::open(alloc, host) {
        Err(_) => false,
        Ok(mut store) => match store.execute(alloc, host, first) {
            Err(_) => false,
            Ok(_) => store.execute(alloc, host, second).is_ok(),
        },
    }
}

#[test]
fn tables_survive_crashes(rt: HostRuntime) -> Result<(), Fail> {
    let alloc = rt.alloc();
    let mut host = MemHost::new(alloc);
    host.reserve(200, 200)?;
    assert!(rt;
        runs(
            alloc,
            &mut host,
            b"create t trans a:int b:int keys k(a)",
            b"insert t (2,20)(1,10)",
        )
    );
    host.crash(&List::new(alloc))?;
    host.reserve(200, 200)?;
    assert!(rt; runs(alloc, &mut host, b"insert t (1,11)", b"  "));
    assert!(rt;
        runs(
            alloc,
            &mut host,
            b"delete t k (9)",
            b"update t k (9) set b=1",
        )
    );
    assert!(rt; runs(alloc, &mut host, b"insert t (3,30)", b"delete t k (1)"));
    host.crash(&List::new(alloc))?;
    host.reserve(200, 200)?;
    assert!(rt; runs(alloc, &mut host, b"select t k", b"select u k"));
    assert_eq!(rt;
        host.told(Stream::Out),
        b"ok\nok 2\nno duplicate k\nok 0\nok 0\nok 1\nok 1\nrow 2,20\nrow 3,30\nok 2\nno table u\n".as_slice()
    );
    Ok(())
}

#[test]
fn damage_is_told(rt: HostRuntime) -> Result<(), Fail> {
    let alloc = rt.alloc();
    let mut host = MemHost::new(alloc);
    let mut other = MemHost::new(alloc);
    host.reserve(200, 200)?;
    other.reserve(200, 200)?;
    assert!(rt;
        runs(
            alloc,
            &mut host,
            b"create t trans a:int keys k(a)",
            b"insert t (1)",
        )
    );
    assert!(rt;
        runs(
            alloc,
            &mut other,
            b"create u trans a:int keys k(a)",
            b"create v trans a:int keys k(a)",
        )
    );
    if let Some(page) = host.page(&FileName::Log(1), 1) {
        other.set_page(&FileName::Log(1), 1, page)?;
    }
    assert!(rt;
        matches!(
            Store::open(alloc, &mut other),
            Err(Fault::LogDamaged { file: 1, page: 1 })
        )
    );
    host.set_page(&FileName::Log(1), 0, &Page::zero())?;
    assert!(rt;
        matches!(
            Store::open(alloc, &mut host),
            Err(Fault::LogDamaged { file: 1, page: 0 })
        )
    );
    host.set_page(&FileName::Control, 0, &Page::zero())?;
    host.set_page(&FileName::Log(2), 0, &Page::zero())?;
    assert!(rt;
        matches!(
            Store::open(alloc, &mut host),
            Err(Fault::NotOurs {
                file: FileName::Log(2)
            })
        )
    );
    Ok(())
}

#[test]
fn a_fault_is_kept(rt: HostRuntime) -> Result<(), Fail> {
    let alloc = rt.alloc();
    let mut host = MemHost::new(alloc);
    host.reserve(200, 200)?;
    match Store::open(alloc, &mut host) {
        Err(fault) => return Err(fault.into()),
        Ok(mut store) => {
            host.plan_fault(host.calls())?;
            assert!(rt;
                matches!(
                    store.execute(alloc, &mut host, b"create t trans a:int keys k(a)"),
                    Err(Fault::Disk)
                )
            );
            assert!(rt;
                matches!(
                    store.execute(alloc, &mut host, b"select t k"),
                    Err(Fault::Disk)
                )
            );
            assert!(rt; matches!(store.finish(), Err(Fault::Disk)));
        }
    }
    assert!(rt; runs(alloc, &mut host, b"select t k", b""));
    assert_eq!(rt; host.told(Stream::Out), b"no table t\n".as_slice());
    Ok(())
}
