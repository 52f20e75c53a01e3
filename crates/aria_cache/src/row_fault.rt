//! Why a row, or an entry of a key, can't be put into a table.

ghost use Rattle.std.specs.Prelude.{◌≡◌};
ghost use Rattle.aria_cache.specs.declared.row_fault.RowFault.TheVariants as why;

use aria_host::Fault;

/// Why a row, or an entry of a key, can't be put into a table.
#[derive(Clone, Copy, Debug)]
pub enum RowFault {
    /// A fault of the pages.
    Fault(Fault),
    /// The file has too many pages for one more row.
    TableFull { pages: u32 },
}

impl From<Fault> for RowFault {
    ghost from_gives = { λ fault row. row ≡ why.Fault fault };

    fn from(fault: Fault) -> RowFault {
        RowFault::Fault(fault)
    }
}
