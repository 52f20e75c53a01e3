ghost use Rattle.std.specs.Prelude.{◌≡◌, IfOk, filter, not, reverse};
ghost use Rattle.std.specs.List.{list_any};
ghost use Rattle.aria_host.specs.Folder.{Folder, same_file};
ghost use Rattle.aria_host.specs.Effect.{reads};
ghost use Rattle.aria_host.specs.Listing.{noted, names_after, IsListed};

use crate::FileName;
use crate::memory::effect::Effect;
use std::alloc::{AllocError, Global};

fn is_among(names: &[FileName], file: &FileName) -> bool
    ensures { result ≡ list_any (same_file file.now) names.now }
{
    names.iter().any(|name| file.is_same(name))
}

// The names with that file, if it is of the forms and isn't among them.
fn noted(names: Vec<FileName>, file: &FileName) -> Result<Vec<FileName>, AllocError>
    ensures { IfOk result (λ list. list.items ≡ noted file.now names.items) }
{
    let is_new = file.is_form() && !is_among(&names, file);
    if !is_new {
        return Ok(names);
    }
    let mut list = names;
    list.push(*file)?;
    Ok(list)
}

// The names without that file.
fn without(alloc: Global, names: &[FileName], file: &FileName) -> Result<Vec<FileName>, AllocError>
    ensures { IfOk result (λ list. list.items ≡ filter (λ name. not (same_file file.now name)) names.now) }
{
    let mut list = Vec::new(alloc);
    for name in names {
        if !file.is_same(name) {
            list.push(*name)?;
        }
    }
    Ok(list)
}

// The names of the files that are there after a change.
fn names_after(
    alloc: Global,
    change: &Effect,
    names: Vec<FileName>,
) -> Result<Vec<FileName>, AllocError>
    ensures { IfOk result (λ list. list.items ≡ names_after change.now names.items) }
{
    match change {
        Effect::Created(file) | Effect::Set(file, _, _) => noted(names, file),
        Effect::Removed(file) => without(alloc, &names, file),
        _ => Ok(names),
    }
}

/// The names of the files that are there after these changes.
pub(crate) fn list(
    alloc: Global,
    changes: &[Effect],
    names: Vec<FileName>,
) -> Result<Vec<FileName>, AllocError>
    ensures { (base : Folder) → IsListed base names.items → IfOk result (λ list. IsListed (reads base (reverse changes.now)) list.items) }
{
    let mut list = names;
    for change in changes {
        list = names_after(alloc, change, list)?;
    }
    Ok(list)
}
