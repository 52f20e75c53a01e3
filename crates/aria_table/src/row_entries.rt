//! The entries of a row.

ghost use Rattle.std.specs.Prelude.{◌≡◌, IfOk};
ghost use Rattle.aria_table.specs.Refusing.{entries_of};

use aria_page::{Bytes, List};
use aria_value::{Definition, Row, entry};
use std::alloc::{AllocError, Global};

/// The entry of a row in each key, in the order of the keys.
pub(crate) fn entries(
    alloc: Global,
    definition: &Definition,
    row: &Row,
) -> Result<List<Bytes>, AllocError>
    ensures { IfOk result (λ es. es ≡ entries_of definition.now row.now) }
{
    let mut out = List::new(alloc);
    for key in 0..definition.keys.len() {
        out.push(entry(alloc, definition, key, row)?)?;
    }
    Ok(out)
}
