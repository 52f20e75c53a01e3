ghost use Rattle.std.specs.Prelude.{◌≡◌, ◌+◌, ◌<◌, ◌≤◌, ◌^◌, ◌∷◌, ◌++◌, [], IsOk, is_ok, if◌then◌else◌, vec_len, vec_capacity};

use crate::{FileName, Stream};
use aria_page::Page;
use std::alloc::AllocError;
use std::marker::Model;

/// The number of a page in its file, below 2^31.
#[derive(Clone, Copy, Debug)]
pub(crate) struct PageNumber {
    number: u32,
}

impl Model for PageNumber {
    ghost use Rattle.std.specs.Prelude.{ℕ, ◌<◌, ◌^◌, refl};
    ghost use Rattle.std.specs.Coded.{coded_ℕ};

    ghost Value = { ℕ };

    ghost coded = { coded_ℕ };

    ghost view = { λ p. p.number };

    ghost invariant = { λ p. p.number < 2 ^ 31 };

    ghost inverse = { λ n. record { number = n } };

    ghost inverse_ok = { λ p ok. refl };
}

impl PageNumber {
    pub(crate) fn new(number: u32) -> PageNumber
        requires { number < 2 ^ 31 }
        ensures { result ≡ number }
    {
        PageNumber { number }
    }

    pub(crate) fn get(&self) -> u32
        ensures value { result ≡ self.now }
        ensures below { self.now < 2 ^ 31 }
    {
        self.number
    }
}

/// A change that a call made.
#[derive(Clone, Copy, Debug)]
pub(crate) enum Effect {
    /// A page was written.
    Wrote(FileName, PageNumber, Page),
    /// The file was cut to so many pages.
    Cut(FileName, u32),
    /// An empty file was made.
    Created(FileName),
    /// The file was removed.
    Removed(FileName),
    /// The file was brought to the disk.
    Synced(FileName),
    /// A page was set by a test's hand, which counts as synced.
    Set(FileName, PageNumber, Page),
    /// So many bytes were told.
    Told(Stream, usize),
}

/// Adds a change at the end of a record. The checker finds what an `Effect` holds only where `FileName` is named too.
pub(crate) fn push(
    changes: &mut Vec<Effect>,
    change: Effect,
    _file: &FileName,
) -> Result<(), AllocError>
    ensures items { changes.new.items ≡ (if is_ok result then changes.old.items ++ change ∷ [] else changes.old.items) }
    ensures len { vec_len changes.new ≡ (if is_ok result then vec_len changes.old + 1 else vec_len changes.old) }
    ensures succeeds { vec_len changes.old < vec_capacity changes.old → IsOk result }
    ensures room { vec_capacity changes.old ≤ vec_capacity changes.new }
{
    changes.push(change)?;
    Ok(())
}
