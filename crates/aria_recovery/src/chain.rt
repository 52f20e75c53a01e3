//! The pending undo records, the oldest first, and their chain.

ghost use Rattle.std.specs.Prelude.{◌≡◌, ℕ, List, OnOk};
ghost use Rattle.aria_page.specs.Lsn.{lsn_number};
ghost use Rattle.aria_record.specs.Logged.{lsn_at_place};
ghost use Rattle.aria_recovery.specs.declared.link.Link.TheVariants.{Undone};
ghost use Rattle.aria_recovery.specs.Pending.{oldest, newest, pended, same_lsn, is_linked, is_behind};

use crate::link::Link;
use aria_page::Lsn;
use std::alloc::{AllocError, Global};

fn same_lsn(a: Lsn, b: Lsn) -> bool
    ensures { result ≡ same_lsn a b }
{
    a.file == b.file && a.offset == b.offset
}

// Whether the second stands behind the first.
fn is_behind(checkpoint: Lsn, at: Lsn) -> bool
    ensures { result ≡ is_behind checkpoint at }
{
    checkpoint.is_before(at)
}

// The newest of them; (0,0) where there is none.
fn newest(pending: &[Lsn]) -> Lsn
    ensures { (places : List ℕ) → pending.now ≡ oldest places → result ≡ newest places }
{
    match pending.last() {
        Some(at) => *at,
        None => Lsn { file: 0, offset: 0 },
    }
}

// Whether a group that undoes one names the newest as undone and the one before it as next.
fn is_undoing(pending: &[Lsn], undone: Lsn, next: Lsn) -> bool
    ensures { (places : List ℕ) → pending.now ≡ oldest places → result ≡ is_linked (Undone undone next) places }
{
    let count = pending.len();
    if count == 0 {
        return false;
    }
    same_lsn(undone, newest(pending)) && same_lsn(next, newest(&pending[..count - 1]))
}

// Whether a group goes on the chain.
fn is_linked(pending: &[Lsn], link: Link) -> bool
    ensures { (places : List ℕ) → pending.now ≡ oldest places → result ≡ is_linked link places }
{
    match link {
        Link::Undo(prev) => same_lsn(prev, newest(pending)),
        Link::Undone(undone, next) => is_undoing(pending, undone, next),
        Link::Ends => true,
        Link::Loose => true,
    }
}

// What is pending behind a group.
fn pend(pending: &mut Vec<Lsn>, at: Lsn, link: Link) -> Result<(), AllocError>
    ensures { (place : ℕ) (places : List ℕ) → at ≡ lsn_at_place place → pending.old.items ≡ oldest places → OnOk result (pending.new.items ≡ oldest (pended place link places)) }
{
    match link {
        Link::Undo(_) => pending.push(at)?,
        Link::Undone(..) => {
            pending.pop();
        }
        Link::Ends => pending.clear(),
        Link::Loose => {}
    }
    Ok(())
}

/// The pending undo records, and the first failure of their chain behind the checkpoint.
#[derive(Drop)]
pub(crate) struct Chain {
    pub(crate) checkpoint: Lsn,
    pub(crate) pending: Vec<Lsn>,
    pub(crate) unchained: Option<Lsn>,
}

impl Chain {
    ghost use Rattle.std.specs.Prelude.{[], ◌∷◌, ◌++◌, Some, if◌then◌else◌, not, ◌&&◌, None, is_some};
    ghost use Rattle.aria_record.specs.Logged.{Logged};
    ghost use Rattle.aria_recovery.specs.Pending.{link_of};
    ghost use Rattle.aria_recovery.specs.Analysed.{HasChain};
    ghost use Rattle.aria_record.specs.declared.record.Record.{Record as Entry};

    pub(crate) fn new(alloc: Global, checkpoint: Lsn) -> Chain
        ensures { HasChain checkpoint result [] }
    {
        Chain {
            checkpoint,
            pending: Vec::new(alloc),
            unchained: None,
        }
    }

    // The first failure, where the next group is at this log sequence number.
    fn failure(&self, at: Lsn, link: Link) -> Option<Lsn>
        ensures { (places : List ℕ) → self.now.pending.items ≡ oldest places → result ≡ (if not (is_some self.now.unchained) && (is_behind self.now.checkpoint at && not (is_linked link places)) then Some at else self.now.unchained) }
    {
        if self.unchained.is_some() || !is_behind(self.checkpoint, at) {
            return self.unchained;
        }
        if is_linked(self.pending.as_slice(), link) {
            return self.unchained;
        }
        Some(at)
    }

    /// A group more.
    pub(crate) fn add(&mut self, at: Lsn, link: Link) -> Result<(), AllocError>
        ensures { (checkpoint : Lsn) (gs : List Logged) (place : ℕ) (group : List Entry) → HasChain checkpoint self.old gs → at ≡ lsn_at_place place → link ≡ link_of group → OnOk result (HasChain checkpoint self.new (gs ++ record { at = place; group = group } ∷ [])) }
    {
        self.unchained = self.failure(at, link);
        pend(&mut self.pending, at, link)
    }
}
