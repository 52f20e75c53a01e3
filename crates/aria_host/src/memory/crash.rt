ghost use Rattle.std.specs.Prelude.{◌≡◌, ◌+◌, ◌<◌, ◌∷◌, ◌++◌, List, IfOk, length, true, false, drop, option_to_list, if◌then◌else◌};
ghost use Rattle.aria_page.specs.Page.{IsSound};
ghost use Rattle.aria_host.specs.declared.memory.effect.Effect.{Effect};
ghost use Rattle.aria_host.specs.Crash.{is_sync_of, is_synced, next_fate, LeavesOfWrite, LeavesOfCut, Survive};

use crate::FileName;
use crate::memory::effect::{Effect, PageNumber, push};
use crate::memory::fate::Fate;
use aria_page::Page;
use std::alloc::{AllocError, Global};

fn is_sync_of(change: &Effect, file: &FileName) -> bool
    ensures { result ≡ is_sync_of file.now change.now }
{
    match change {
        Effect::Synced(name) => name.is_same(file),
        _ => false,
    }
}

// Whether the file is synced by one of these changes.
fn is_synced(later: &[Effect], file: &FileName) -> bool
    ensures { result ≡ is_synced file.now later.now }
{
    later.iter().any(|change| is_sync_of(change, file))
}

fn next_fate(fates: &[Fate]) -> Fate
    ensures { result ≡ next_fate fates.now }
{
    match fates {
        [] => Fate::Lost,
        [fate, ..] => *fate,
    }
}

// Whether the page may stand for a torn one.
fn is_torn(page: &Page) -> bool
    ensures sound { result ≡ true → ¬ IsSound page.now }
    ensures is_not { result ≡ false → IsSound page.now }
    ensures len { length page.now ≡ 8192 }
{
    let _bytes = page.bytes();
    !page.is_sound()
}

// What a write of that fate leaves.
fn written(file: &FileName, number: PageNumber, page: &Page, fate: &Fate) -> Option<Effect>
    ensures { LeavesOfWrite file.now number page.now fate.now (option_to_list result) }
{
    match fate {
        Fate::Kept => Some(Effect::Wrote(*file, number, *page)),
        Fate::Lost => None,
        Fate::Torn(torn) => {
            if file.is_log() && is_torn(torn) {
                Some(Effect::Wrote(*file, number, *torn))
            } else {
                None
            }
        }
    }
}

// What a cut of that fate leaves.
fn cut(file: &FileName, pages: u32, fate: &Fate) -> Option<Effect>
    ensures { LeavesOfCut file.now pages fate.now (option_to_list result) }
{
    match fate {
        Fate::Kept => Some(Effect::Cut(*file, pages)),
        Fate::Lost | Fate::Torn(_) => None,
    }
}

// What is left of a change, and whether it took a fate.
fn survivor(change: &Effect, later: &[Effect], fates: &[Fate]) -> (Option<Effect>, bool)
    ensures { (rest : List Effect) → Survive later.now (if result.1 then drop 1 fates.now else fates.now) rest → Survive (change.now ∷ later.now) fates.now (option_to_list result.0 ++ rest) }
{
    match change {
        Effect::Wrote(file, number, page) => {
            if is_synced(later, file) {
                (Some(*change), false)
            } else {
                (written(file, *number, page, &next_fate(fates)), true)
            }
        }
        Effect::Cut(file, pages) => {
            if is_synced(later, file) {
                (Some(*change), false)
            } else {
                (cut(file, *pages, &next_fate(fates)), true)
            }
        }
        Effect::Created(_) | Effect::Removed(_) | Effect::Set(_, _, _) => (Some(*change), false),
        Effect::Synced(_) | Effect::Told(_, _) => (None, false),
    }
}

// The changes behind that one.
fn behind(changes: &[Effect], at: usize) -> &[Effect]
    requires { at < length changes.now }
    ensures { result.now ≡ drop (at + 1) changes.now }
{
    &changes[at + 1..]
}

// The fates after a change that took one or didn't.
fn fates_after(fates: &[Fate], spent: bool) -> &[Fate]
    ensures { result.now ≡ (if spent then drop 1 fates.now else fates.now) }
{
    if !spent {
        return fates;
    }
    match fates {
        [] => fates,
        [_, rest @ ..] => rest,
    }
}

fn with_left(changes: Vec<Effect>, left: Option<Effect>) -> Result<Vec<Effect>, AllocError>
    ensures { IfOk result (λ all. all.items ≡ changes.items ++ option_to_list left) }
{
    let mut all = changes;
    match left {
        Some(change) => push(&mut all, change, &FileName::Control)?,
        None => {}
    }
    Ok(all)
}

/// A copy of a record.
pub(crate) fn copied(
    alloc: Global,
    changes: &[Effect],
    _file: &FileName,
) -> Result<Vec<Effect>, AllocError>
    ensures { IfOk result (λ copy. copy.items ≡ changes.now) }
{
    Vec::from_slice(alloc, changes)
}

/// The changes before, and what a crash leaves of those since, where each unsynced write or cut has a fate.
pub(crate) fn survivors(
    before: Vec<Effect>,
    changes: &[Effect],
    fates: &[Fate],
) -> Result<Vec<Effect>, AllocError>
    ensures { IfOk result (λ all. (left : List Effect) × (all.items ≡ before.items ++ left) × Survive changes.now fates.now left) }
{
    let mut all = before;
    let mut fates = fates;
    for (i, change) in changes.iter().enumerate() {
        let (left, spent) = survivor(change, behind(changes, i), fates);
        fates = fates_after(fates, spent);
        all = with_left(all, left)?;
    }
    Ok(all)
}
