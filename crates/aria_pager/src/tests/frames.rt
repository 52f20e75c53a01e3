ghost use Rattle.std.specs.Prelude.{OnOk};
ghost use Rattle.aria_host.specs.MemHost.{mem_state};
ghost use Rattle.aria_pager.specs.Usable.{IsUsable};

use super::crashes::fill;
use super::{crash_all, force, look, open, table_name};
use crate::PageStore;
use aria_host::{Fault, FileName, MemHost};
use aria_page::Name;
use std::alloc::Global;
use std::test::Fail;

// Loads pages 1 to 64, then page 1 again, then page 65.
fn load_one_over(
    alloc: Global,
    store: &mut PageStore,
    host: &mut MemHost,
    name: &Name,
) -> Result<(), Fault>
    requires { IsUsable store.old (mem_state host.old) }
    ensures { OnOk result (IsUsable store.new (mem_state host.new)) }
{
    let _file = FileName::Control;
    for nth in 0..64u32 {
        look(alloc, store, host, name, nth + 1, b"#")?;
    }
    look(alloc, store, host, name, 1, b"#")?;
    look(alloc, store, host, name, 65, b"#")?;
    Ok(())
}

// Whether the host is called when this page is loaded.
fn calls(
    alloc: Global,
    store: &mut PageStore,
    host: &mut MemHost,
    name: &Name,
    page: u32,
) -> Result<bool, Fault>
    requires { IsUsable store.old (mem_state host.old) }
    ensures { OnOk result (IsUsable store.new (mem_state host.new)) }
{
    let _file = FileName::Control;
    let before = host.calls();
    look(alloc, store, host, name, page, b"#")?;
    Ok(host.calls() != before)
}

// With 64 pages in memory, page 65 takes the place of the one that was used longest ago, which is page 2. The pages that the
// opening made again have left by then.
#[test]
fn the_page_used_longest_ago_leaves_memory(rt: HostRuntime) -> Result<(), Fail> {
    let _file = FileName::Control;
    let alloc = rt.alloc();
    let name = table_name()?;
    let mut host = MemHost::new(alloc);
    let mut store = open(alloc, &mut host)?;
    fill(alloc, &mut store, &mut host, &name, 200)?;
    force(&mut store, &mut host)?;
    crash_all(alloc, &mut host, b'l')?;
    let mut store = open(alloc, &mut host)?;
    load_one_over(alloc, &mut store, &mut host, &name)?;
    assert!(rt; !calls(alloc, &mut store, &mut host, &name, 1)?);
    assert!(rt; calls(alloc, &mut store, &mut host, &name, 2)?);
    Ok(())
}
