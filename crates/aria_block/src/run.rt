ghost use Rattle.std.specs.Prelude.{◌≡◌, ◌+◌, ◌-◌, ◌%◌, ◌^◌, ◌<◌, ◌≤◌, ℕ, List, Some, IsTrue, IfOk, IfSome};
ghost use Rattle.aria_page.specs.Page.{page_body};
ghost use Rattle.aria_bitmap.specs.declared.group.TheConstants.{PATTERNS};
ghost use Rattle.aria_cache.specs.Calls.{fault_of, Answers};
ghost use Rattle.aria_cache.specs.Causes.{HasPagesCause};
ghost use Rattle.aria_block.specs.declared.layout.TheConstants.{MAP_EVERY};
ghost use Rattle.aria_block.specs.Causes.{rows_file, OfFile};
ghost use Rattle.aria_block.specs.DataFile.{map_of, nth_of};
ghost use Rattle.aria_block.specs.Finding.{Looks};
ghost use Rattle.aria_block.specs.Runs.{FindsRunUnder, FindsRun, IsUnderOne, TellsFree};

use crate::layout::MAP_EVERY;
use aria_bitmap::{find_empty_run, get};
use aria_cache::{PageId, Pages};
use aria_host::{Fault, FileName};
use aria_page::{Page, Part};
use std::alloc::Global;

// The first of so many pages of the file under a bitmap page that it promises free, the lowest such page.
#[tactic(auto, using(crate::proofs::Running::run_under, crate::proofs::Running::under_one))]
fn run_under(map: &Page, at: u32, count: u32, n: u32) -> Option<u32>
    requires at { at % MAP_EVERY ≡ 0 }
    requires low { at < count }
    requires high { count ≤ 2 ^ 31 }
    requires few { n ≤ 8 }
    ensures finds { FindsRunUnder n count at (page_body map.now) result }
    ensures range { IfSome result (λ page. (page + n ≤ count) × (map_of page ≡ at) × IsUnderOne n page) }
{
    match find_empty_run(map, n) {
        None => None,
        Some(nth) => {
            let page = at + 1 + nth;
            if page + n > count { None } else { Some(page) }
        }
    }
}

// The same, of the bitmap page with this number.
fn run_at<P: Pages>(
    alloc: Global,
    pages: &mut P,
    slot: u32,
    at: u32,
    n: u32,
) -> Result<Option<u32>, Fault>
    requires stands { P.stands pages.old }
    requires open { IsTrue ((P.state pages.old).is_open slot) }
    requires at { at % MAP_EVERY ≡ 0 }
    requires below { at < (P.state pages.old).counts (rows_file (P.state pages.old) slot) }
    requires few { n ≤ 8 }
    ensures stands { P.stands pages.new }
    ensures moves { P.stays pages.old pages.new }
    ensures looks { Looks P.tells (P.state pages.old) (P.state pages.new) }
    ensures found { IsTrue P.tells → IfOk result (λ r. (map : List ℕ) → (P.state pages.old).bodies (rows_file (P.state pages.old) slot) at ≡ Some map
        → FindsRunUnder n ((P.state pages.old).counts (rows_file (P.state pages.old) slot)) at map r) }
    ensures range { IfOk result (λ r. IfSome r (λ page. (page + n ≤ (P.state pages.old).counts (rows_file (P.state pages.old) slot)) × (map_of page ≡ at) × IsUnderOne n page)) }
    ensures answers { Answers (P.state pages.old) (P.state pages.new) (fault_of result) }
    ensures cause { HasPagesCause (OfFile P.tells P.logged (rows_file (P.state pages.old) slot) (P.state pages.old) (P.state pages.new)) (P.state pages.old) (P.state pages.new) (fault_of result) }
{
    let _file = FileName::Control;
    let count = pages.count(slot, Part::Rows);
    pages.load(
        alloc,
        PageId {
            slot,
            part: Part::Rows,
            page: at,
        },
    )?;
    Ok(run_under(pages.loaded(), at, count, n))
}

/// The first of so many pages of the file that their bitmap page promises free; `None` where no bitmap page promises such
/// pages of the file.
pub(crate) fn find_run<P: Pages>(
    alloc: Global,
    pages: &mut P,
    slot: u32,
    n: u32,
) -> Result<Option<u32>, Fault>
    requires stands { P.stands pages.old }
    requires open { IsTrue ((P.state pages.old).is_open slot) }
    requires some { 0 < (P.state pages.old).counts (rows_file (P.state pages.old) slot) }
    requires few { n ≤ 8 }
    ensures stands { P.stands pages.new }
    ensures moves { P.stays pages.old pages.new }
    ensures looks { Looks P.tells (P.state pages.old) (P.state pages.new) }
    ensures found { IsTrue P.tells → IfOk result (λ r. FindsRun n ((P.state pages.old).counts (rows_file (P.state pages.old) slot)) ((P.state pages.old).bodies (rows_file (P.state pages.old) slot)) r) }
    ensures range { IfOk result (λ r. IfSome r (λ page. (page + n ≤ (P.state pages.old).counts (rows_file (P.state pages.old) slot)) × IsUnderOne n page)) }
    ensures answers { Answers (P.state pages.old) (P.state pages.new) (fault_of result) }
    ensures cause { HasPagesCause (OfFile P.tells P.logged (rows_file (P.state pages.old) slot) (P.state pages.old) (P.state pages.new)) (P.state pages.old) (P.state pages.new) (fault_of result) }
{
    let _file = FileName::Control;
    let count = pages.count(slot, Part::Rows);
    let mut found = run_at(alloc, pages, slot, 0, n)?;
    let mut at = 0;
    while found.is_none() && at + MAP_EVERY < count {
        at += MAP_EVERY;
        found = run_at(alloc, pages, slot, at, n)?;
    }
    Ok(found)
}

// Whether the bitmap page promises so many pages free, from one on.
fn is_free_run(map: &Page, nth: u32, n: u32) -> bool
    requires { nth + n ≤ PATTERNS }
    ensures { TellsFree n nth (page_body map.now) result }
{
    let mut at = nth;
    while at < nth + n {
        if get(map, at) != 0 {
            return false;
        }
        at += 1;
    }
    true
}

/// Whether so many pages of the file under one bitmap page, from one on, are promised free.
pub(crate) fn run_is_free<P: Pages>(
    alloc: Global,
    pages: &mut P,
    slot: u32,
    first: u32,
    n: u32,
) -> Result<bool, Fault>
    requires stands { P.stands pages.old }
    requires open { IsTrue ((P.state pages.old).is_open slot) }
    requires under { IsUnderOne n first }
    requires below { first < (P.state pages.old).counts (rows_file (P.state pages.old) slot) }
    ensures stands { P.stands pages.new }
    ensures moves { P.stays pages.old pages.new }
    ensures looks { Looks P.tells (P.state pages.old) (P.state pages.new) }
    ensures found { IsTrue P.tells → IfOk result (λ r. (map : List ℕ) → (P.state pages.old).bodies (rows_file (P.state pages.old) slot) (map_of first) ≡ Some map → TellsFree n (nth_of first) map r) }
    ensures answers { Answers (P.state pages.old) (P.state pages.new) (fault_of result) }
    ensures cause { HasPagesCause (OfFile P.tells P.logged (rows_file (P.state pages.old) slot) (P.state pages.old) (P.state pages.new)) (P.state pages.old) (P.state pages.new) (fault_of result) }
{
    let _file = FileName::Control;
    let nth = first % MAP_EVERY;
    pages.load(
        alloc,
        PageId {
            slot,
            part: Part::Rows,
            page: first - nth,
        },
    )?;
    Ok(is_free_run(pages.loaded(), nth - 1, n))
}
