ghost use Rattle.std.specs.Prelude.{◌≡◌, ◌≤◌, ◌^◌, IfSome, length, reverse};
ghost use Rattle.std.specs.Option.{option_map};
ghost use Rattle.aria_host.specs.Folder.{Folder};
ghost use Rattle.aria_host.specs.Effect.{reads};
ghost use Rattle.aria_page.specs.Page.{zero_page};
ghost use Rattle.aria_host.specs.Seen.{count_after, page_after, page_or_zero};

use crate::FileName;
use crate::memory::effect::Effect;
use aria_page::Page;

/// The number of the file's pages after a change.
pub(crate) fn count_after(change: &Effect, file: &FileName, count: Option<u32>) -> Option<u32>
    ensures value { result ≡ count_after change.now file.now count }
    ensures small { IfSome count (λ n. n ≤ 2 ^ 31) → IfSome result (λ n. n ≤ 2 ^ 31) }
{
    match change {
        Effect::Wrote(name, number, _) if name.is_same(file) => match count {
            Some(pages) => Some(pages.max(number.get() + 1)),
            None => None,
        },
        Effect::Cut(name, pages) if name.is_same(file) => match count {
            Some(n) => Some(n.min(*pages)),
            None => None,
        },
        Effect::Created(name) if name.is_same(file) => Some(0),
        Effect::Removed(name) if name.is_same(file) => None,
        Effect::Set(name, number, _) if name.is_same(file) => {
            Some(count.unwrap_or(0).max(number.get() + 1))
        }
        _ => count,
    }
}

/// A page of the file after a change, or zeros past its end, where the file was there or wasn't.
pub(crate) fn page_after<'a>(
    change: &'a Effect,
    file: &FileName,
    at: u32,
    there: bool,
    held: &'a Page,
    zero: &'a Page,
) -> &'a Page
    requires { zero.now ≡ zero_page }
    ensures { result.now ≡ page_after change.now file.now at there held.now }
{
    match change {
        Effect::Wrote(name, number, page) => {
            if name.is_same(file) && there && number.get() == at {
                page
            } else {
                held
            }
        }
        Effect::Cut(name, pages) => {
            if name.is_same(file) && *pages <= at {
                zero
            } else {
                held
            }
        }
        Effect::Created(name) | Effect::Removed(name) => {
            if name.is_same(file) { zero } else { held }
        }
        Effect::Set(name, number, page) => {
            if name.is_same(file) && number.get() == at {
                page
            } else {
                held
            }
        }
        Effect::Synced(_) | Effect::Told(_, _) => held,
    }
}

/// The number of the file's pages after these changes, and that page of it, or zeros.
pub(crate) fn see<'a>(
    changes: &'a [Effect],
    file: &FileName,
    at: u32,
    count: Option<u32>,
    held: &'a Page,
    zero: &'a Page,
) -> (Option<u32>, &'a Page)
    requires { zero.now ≡ zero_page }
    ensures count { (base : Folder) → count ≡ option_map length (base file.now) → result.0 ≡ option_map length (reads base (reverse changes.now) file.now) }
    ensures page { (base : Folder) → count ≡ option_map length (base file.now) → held.now ≡ page_or_zero at (base file.now) → result.1.now ≡ page_or_zero at (reads base (reverse changes.now) file.now) }
    ensures small { IfSome count (λ n. n ≤ 2 ^ 31) → IfSome result.0 (λ n. n ≤ 2 ^ 31) }
{
    let mut count = count;
    let mut held = held;
    for change in changes {
        held = page_after(change, file, at, count.is_some(), held, zero);
        count = count_after(change, file, count);
    }
    (count, held)
}
