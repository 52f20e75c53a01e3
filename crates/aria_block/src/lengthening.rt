ghost use Rattle.std.specs.Prelude.{◌≡◌, ◌+◌, ◌-◌, ◌%◌, ◌^◌, ◌<◌, ◌≤◌, Some, true, IsTrue, IfOk, OnOk};
ghost use Rattle.aria_cache.specs.Calls.{fault_of, Answers, Spends, StaysIn, SameSlots, SameLog, Grows};
ghost use Rattle.aria_cache.specs.Causes.{HasPagesCause};
ghost use Rattle.aria_block.specs.declared.layout.TheConstants.{MAP_EVERY};
ghost use Rattle.aria_block.specs.Causes.{rows_file, OfFile, KeepsSound};
ghost use Rattle.aria_block.specs.Pieces.{Pieces};
ghost use Rattle.aria_block.specs.DataFile.{HoldsData};
ghost use Rattle.aria_block.specs.Runs.{IsUnderOne, AreFree, GrowsForRun};

use crate::growing::add_one;
use crate::layout::MAP_EVERY;
use crate::run::find_run;
use aria_cache::{OpenGroup, Pages};
use aria_host::{Fault, FileName};
use aria_page::Part;
use std::alloc::Global;

// The first page from the file's end on from which so many pages lie under one bitmap page.
#[tactic(auto, using(crate::proofs::Freeing::under_here, crate::proofs::Freeing::under_first))]
fn run_start(count: u32, n: u32) -> u32
    requires some { 1 ≤ n }
    requires few { n ≤ 8 }
    requires low { count < 2 ^ 31 - 32 }
    ensures behind { count ≤ result }
    ensures near { result ≤ count + n }
    ensures under { IsUnderOne n result }
{
    let nth = count % MAP_EVERY;
    if nth == 0 {
        return count + 1;
    }
    if nth + n <= MAP_EVERY {
        return count;
    }
    count - nth + MAP_EVERY + 1
}

/// Makes the file longer until its last pages, as many as are told, are free pages under one bitmap page. Tells the number
/// of the first of them.
pub(crate) fn add_run<P: Pages>(
    alloc: Global,
    pages: &mut P,
    group: &mut OpenGroup,
    slot: u32,
    n: u32,
) -> Result<u32, Fault>
    requires stands { P.stands pages.old }
    requires open { IsTrue ((P.state pages.old).is_open slot) }
    requires group { (P.state pages.old).in_group ≡ true }
    requires some { 1 ≤ n }
    requires few { n ≤ 8 }
    requires low { (P.state pages.old).counts (rows_file (P.state pages.old) slot) < 2 ^ 31 - 32 }
    requires room { IsTrue P.logged → ((P.state pages.old).touched + 15 < 48) × ((P.state pages.old).made + 16 ≤ 254) }
    ensures stands { P.stands pages.new }
    ensures moves { P.stays pages.old pages.new }
    ensures slots { SameSlots (P.state pages.old) (P.state pages.new) }
    ensures log { SameLog (P.state pages.old) (P.state pages.new) }
    ensures in_group { (P.state pages.new).in_group ≡ true }
    ensures spends { Spends 16 16 1312 (P.state pages.old) (P.state pages.new) }
    ensures holds { IsTrue P.tells → (pieces : Pieces) → HoldsData ((P.state pages.old).counts (rows_file (P.state pages.old) slot)) ((P.state pages.old).bodies (rows_file (P.state pages.old) slot)) pieces
        → OnOk result (HoldsData ((P.state pages.new).counts (rows_file (P.state pages.old) slot)) ((P.state pages.new).bodies (rows_file (P.state pages.old) slot)) pieces) }
    ensures behind { IfOk result (λ page. (P.state pages.old).counts (rows_file (P.state pages.old) slot) ≤ page) }
    ensures near { IfOk result (λ page. page ≤ (P.state pages.old).counts (rows_file (P.state pages.old) slot) + n) }
    ensures under { IfOk result (λ page. IsUnderOne n page) }
    ensures count { IfOk result (λ page. (P.state pages.new).counts (rows_file (P.state pages.old) slot) ≡ page + n) }
    ensures inside { IsTrue P.tells → OnOk result (StaysIn P.logged (rows_file (P.state pages.old) slot) (P.state pages.old) (P.state pages.new)) }
    ensures grows { OnOk result (Grows (P.state pages.old) (P.state pages.new)) }
    ensures keeps { OnOk result (KeepsSound P.tells (rows_file (P.state pages.old) slot) (P.state pages.old) (P.state pages.new)) }
    ensures answers { Answers (P.state pages.old) (P.state pages.new) (fault_of result) }
    ensures cause { HasPagesCause (OfFile P.tells P.logged (rows_file (P.state pages.old) slot) (P.state pages.old) (P.state pages.new)) (P.state pages.old) (P.state pages.new) (fault_of result) }
{
    let _file = FileName::Control;
    let count = pages.count(slot, Part::Rows);
    let first = run_start(count, n);
    add_one(alloc, pages, group, slot, count)?;
    let mut at = count + 1;
    while at < first + n {
        add_one(alloc, pages, group, slot, at)?;
        at += 1;
    }
    Ok(first)
}

/// The first of so many free pages under one bitmap page: pages of the file that their bitmap page promises, or else new
/// ones.
pub(crate) fn run_for<P: Pages>(
    alloc: Global,
    pages: &mut P,
    group: &mut OpenGroup,
    slot: u32,
    n: u32,
) -> Result<u32, Fault>
    requires stands { P.stands pages.old }
    requires open { IsTrue ((P.state pages.old).is_open slot) }
    requires group { (P.state pages.old).in_group ≡ true }
    requires some { 1 ≤ n }
    requires few { n ≤ 8 }
    requires low { (P.state pages.old).counts (rows_file (P.state pages.old) slot) < 2 ^ 31 - 32 }
    requires room { IsTrue P.logged → ((P.state pages.old).touched + 15 < 48) × ((P.state pages.old).made + 16 ≤ 254) }
    ensures stands { P.stands pages.new }
    ensures moves { P.stays pages.old pages.new }
    ensures slots { SameSlots (P.state pages.old) (P.state pages.new) }
    ensures log { SameLog (P.state pages.old) (P.state pages.new) }
    ensures in_group { (P.state pages.new).in_group ≡ true }
    ensures spends { Spends 16 16 1312 (P.state pages.old) (P.state pages.new) }
    ensures holds { IsTrue P.tells → (pieces : Pieces) → HoldsData ((P.state pages.old).counts (rows_file (P.state pages.old) slot)) ((P.state pages.old).bodies (rows_file (P.state pages.old) slot)) pieces
        → OnOk result (HoldsData ((P.state pages.new).counts (rows_file (P.state pages.old) slot)) ((P.state pages.new).bodies (rows_file (P.state pages.old) slot)) pieces) }
    ensures free { IsTrue P.tells → (pieces : Pieces) → HoldsData ((P.state pages.old).counts (rows_file (P.state pages.old) slot)) ((P.state pages.old).bodies (rows_file (P.state pages.old) slot)) pieces
        → IfOk result (λ page. AreFree n page pieces) }
    ensures needed { IsTrue P.tells → OnOk result (GrowsForRun n (rows_file (P.state pages.old) slot) (P.state pages.old) (P.state pages.new)) }
    ensures under { IfOk result (λ page. IsUnderOne n page) }
    ensures below { IfOk result (λ page. page + n ≤ (P.state pages.new).counts (rows_file (P.state pages.old) slot)) }
    ensures count { OnOk result ((P.state pages.new).counts (rows_file (P.state pages.old) slot) ≤ (P.state pages.old).counts (rows_file (P.state pages.old) slot) + 16) }
    ensures inside { IsTrue P.tells → OnOk result (StaysIn P.logged (rows_file (P.state pages.old) slot) (P.state pages.old) (P.state pages.new)) }
    ensures grows { OnOk result (Grows (P.state pages.old) (P.state pages.new)) }
    ensures keeps { OnOk result (KeepsSound P.tells (rows_file (P.state pages.old) slot) (P.state pages.old) (P.state pages.new)) }
    ensures answers { Answers (P.state pages.old) (P.state pages.new) (fault_of result) }
    ensures cause { HasPagesCause (OfFile P.tells P.logged (rows_file (P.state pages.old) slot) (P.state pages.old) (P.state pages.new)) (P.state pages.old) (P.state pages.new) (fault_of result) }
{
    let _file = FileName::Control;
    if pages.count(slot, Part::Rows) == 0 {
        return add_run(alloc, pages, group, slot, n);
    }
    if let Some(page) = find_run(alloc, pages, slot, n)? {
        return Ok(page);
    }
    add_run(alloc, pages, group, slot, n)
}
