//! The undo records that are pending.

ghost use Rattle.std.specs.Prelude.{◌≡◌, drop, reverse, slice_get, unwrap_or};
ghost use Rattle.aria_cache.specs.Ending.{newest, no_lsn};

use crate::page_store::PageStore;
use aria_page::Lsn;

// The log sequence number of that place in the list, or that of none.
fn nth(list: &[Lsn], n: usize) -> Lsn
    ensures { result ≡ unwrap_or (slice_get list.now n) no_lsn }
{
    match list.get(n) {
        Some(lsn) => *lsn,
        None => Lsn { file: 0, offset: 0 },
    }
}

impl PageStore {
    /// The undo record that is undone next; (0, 0) where none is pending.
    #[tactic(auto, using(crate::proofs::Undoing::last_is, crate::proofs::Undoing::none_is))]
    pub(crate) fn last_undo(&self) -> Lsn
        ensures { result ≡ newest (reverse self.now.pending.items) }
    {
        let pending = self.pending.as_slice();
        if pending.len() < 1 {
            return Lsn { file: 0, offset: 0 };
        }
        nth(pending, pending.len() - 1)
    }

    /// The one of the record before it; (0, 0) where there is none.
    #[tactic(auto, using(crate::proofs::Undoing::second_is, crate::proofs::Undoing::no_second))]
    pub(crate) fn undo_next(&self) -> Lsn
        ensures { result ≡ newest (drop 1 (reverse self.now.pending.items)) }
    {
        let pending = self.pending.as_slice();
        if pending.len() < 2 {
            return Lsn { file: 0, offset: 0 };
        }
        nth(pending, pending.len() - 2)
    }
}
