//! A run's store, and the line of its script that hasn't ended yet.

ghost use Rattle.std.specs.Prelude.{◌≡◌, ℕ, [], ◌∷◌, ◌++◌, false, List, IfOk, IfErr, OnOk, OnErr, MatchOption};
ghost use Rattle.std.specs.List.{list_any};
ghost use Rattle.aria_model.specs.Script.{ended_lines, lines_of};
ghost use Rattle.aria_engine.specs.Store.{SameFaults, NoFewerFaults};
ghost use Rattle.aria_engine.specs.Done.{Does, DoesPart};
ghost use Rattle.aria_tools.specs.Pieces.{IsReady};
ghost use Rattle.aria_tools.specs.Stops.{IsLineStop};
ghost use Rattle.aria_tools.specs.Held.{clipped, is_lf, CutsLine, Splits};

use crate::stop::Stop;
use aria_engine::Store;
use aria_host::Host;
use aria_model::{MAX_LINE_BYTES, Met};
use aria_page::List as Seq;
use memchr::memchr;
use std::alloc::{AllocError, Global};

// Of a line past the limit so much is kept as tells that it is too long.
const HELD_BYTES: usize = MAX_LINE_BYTES + 1;

/// A run's store, the front of the line that hasn't ended, and whether a statement was refused.
#[derive(Drop)]
pub struct Session {
    store: Store,
    held: Vec<u8>,
    refused: bool,
}

// Adds bytes to a held line, as far as it is kept.
fn hold(held: &mut Vec<u8>, bytes: &[u8]) -> Result<(), AllocError>
    ensures { OnOk result ((rest : List ℕ) → held.old.items ≡ clipped rest → held.new.items ≡ clipped (rest ++ bytes.now)) }
{
    let room = HELD_BYTES.saturating_sub(held.as_slice().len());
    held.extend_from_slice(&bytes[..room.min(bytes.len())])
}

// The bytes before the first LF, and those behind it.
fn cut_line(bytes: &[u8]) -> Option<(&[u8], &[u8])>
    ensures { MatchOption result (list_any is_lf bytes.now ≡ false) (λ parts. CutsLine bytes.now parts.0.now parts.1.now) }
{
    let at = memchr(b'\n', bytes)?;
    Some((&bytes[..at], &bytes[at + 1..]))
}

impl Session {
    /// A session before its first line.
    pub fn new(alloc: Global, store: Store) -> Session
        ensures store { result.store ≡ store }
        ensures held { result.held.items ≡ [] }
        ensures refused { result.refused ≡ false }
    {
        Session {
            store,
            held: Vec::new(alloc),
            refused: false,
        }
    }

    /// The exceptions that its statements met.
    pub fn take_met(&mut self, alloc: Global) -> Seq<Met>
        ensures { result ≡ self.old.store.tally.met }
    {
        self.store.take_met(alloc)
    }

    // Answers a line that lies whole in its piece.
    fn answer<H: Host>(&mut self, alloc: Global, host: &mut H, line: &[u8]) -> Result<(), Stop>
        requires ready { IsReady H.tells self.old.store (H.state host.old) }
        ensures ready { OnOk result (IsReady H.tells self.new.store (H.state host.new)) }
        ensures done { OnOk result (Does H.tells (line.now ∷ []) self.old.store self.new.store self.old.refused self.new.refused (H.state host.old) (H.state host.new)) }
        ensures held { self.new.held ≡ self.old.held }
        ensures part { OnErr result (DoesPart H.tells (line.now ∷ []) self.old.store self.new.store (H.state host.old) (H.state host.new)) }
        ensures cause { IfErr result (λ stop. IsLineStop stop (H.state host.old) (H.state host.new)) }
        ensures calm { OnOk result (SameFaults (H.state host.old) (H.state host.new)) }
        ensures later { NoFewerFaults (H.state host.old) (H.state host.new) }
    {
        let outcome = self.store.execute(alloc, host, line)?;
        self.refused |= outcome.is_refused();
        Ok(())
    }

    // Answers the held line with these bytes at its end.
    fn answer_held<H: Host>(
        &mut self,
        alloc: Global,
        host: &mut H,
        bytes: &[u8],
    ) -> Result<(), Stop>
        requires ready { IsReady H.tells self.old.store (H.state host.old) }
        ensures ready { OnOk result (IsReady H.tells self.new.store (H.state host.new)) }
        ensures done { OnOk result ((rest : List ℕ) → self.old.held.items ≡ clipped rest →
            Does H.tells ((rest ++ bytes.now) ∷ []) self.old.store self.new.store self.old.refused self.new.refused (H.state host.old) (H.state host.new)) }
        ensures emptied { OnOk result (self.new.held.items ≡ []) }
        ensures part { OnErr result ((rest : List ℕ) → self.old.held.items ≡ clipped rest →
            DoesPart H.tells ((rest ++ bytes.now) ∷ []) self.old.store self.new.store (H.state host.old) (H.state host.new)) }
        ensures cause { IfErr result (λ stop. IsLineStop stop (H.state host.old) (H.state host.new)) }
        ensures calm { OnOk result (SameFaults (H.state host.old) (H.state host.new)) }
        ensures later { NoFewerFaults (H.state host.old) (H.state host.new) }
    {
        hold(&mut self.held, bytes)?;
        let outcome = self.store.execute(alloc, host, self.held.as_slice())?;
        self.refused |= outcome.is_refused();
        self.held.clear();
        Ok(())
    }

    // Answers the line that these bytes end: what is held, and they.
    fn end_line<H: Host>(&mut self, alloc: Global, host: &mut H, bytes: &[u8]) -> Result<(), Stop>
        requires ready { IsReady H.tells self.old.store (H.state host.old) }
        ensures ready { OnOk result (IsReady H.tells self.new.store (H.state host.new)) }
        ensures done { OnOk result ((rest : List ℕ) → self.old.held.items ≡ clipped rest →
            Does H.tells ((rest ++ bytes.now) ∷ []) self.old.store self.new.store self.old.refused self.new.refused (H.state host.old) (H.state host.new)) }
        ensures emptied { OnOk result (self.new.held.items ≡ []) }
        ensures part { OnErr result ((rest : List ℕ) → self.old.held.items ≡ clipped rest →
            DoesPart H.tells ((rest ++ bytes.now) ∷ []) self.old.store self.new.store (H.state host.old) (H.state host.new)) }
        ensures cause { IfErr result (λ stop. IsLineStop stop (H.state host.old) (H.state host.new)) }
        ensures calm { OnOk result (SameFaults (H.state host.old) (H.state host.new)) }
        ensures later { NoFewerFaults (H.state host.old) (H.state host.new) }
    {
        if self.held.as_slice().is_empty() {
            return self.answer(alloc, host, bytes);
        }
        self.answer_held(alloc, host, bytes)
    }

    /// Answers each line that ends in the piece, and holds what is behind the last of them.
    pub fn feed<H: Host>(&mut self, alloc: Global, host: &mut H, piece: &[u8]) -> Result<(), Stop>
        requires ready { IsReady H.tells self.old.store (H.state host.old) }
        ensures ready { OnOk result (IsReady H.tells self.new.store (H.state host.new)) }
        ensures done { OnOk result ((rest : List ℕ) → list_any is_lf rest ≡ false → self.old.held.items ≡ clipped rest → (held : List ℕ) ×
            Splits (rest ++ piece.now) held × (self.new.held.items ≡ clipped held) ×
            Does H.tells (ended_lines (rest ++ piece.now)) self.old.store self.new.store self.old.refused self.new.refused (H.state host.old) (H.state host.new)) }
        ensures part { OnErr result ((rest : List ℕ) → list_any is_lf rest ≡ false → self.old.held.items ≡ clipped rest →
            DoesPart H.tells (ended_lines (rest ++ piece.now)) self.old.store self.new.store (H.state host.old) (H.state host.new)) }
        ensures cause { IfErr result (λ stop. IsLineStop stop (H.state host.old) (H.state host.new)) }
        ensures calm { OnOk result (SameFaults (H.state host.old) (H.state host.new)) }
        ensures later { NoFewerFaults (H.state host.old) (H.state host.new) }
    {
        let mut left = piece;
        while let Some((line, behind)) = cut_line(left) {
            self.end_line(alloc, host, line)?;
            left = behind;
        }
        hold(&mut self.held, left)?;
        Ok(())
    }

    /// Answers the last line, which no LF ends, unless it is empty, and says whether a statement was refused.
    pub fn finish<H: Host>(&mut self, alloc: Global, host: &mut H) -> Result<bool, Stop>
        requires ready { IsReady H.tells self.old.store (H.state host.old) }
        ensures ready { OnOk result (IsReady H.tells self.new.store (H.state host.new)) }
        ensures done { IfOk result (λ refused. (rest : List ℕ) → list_any is_lf rest ≡ false → self.old.held.items ≡ clipped rest →
            Does H.tells (lines_of rest) self.old.store self.new.store self.old.refused refused (H.state host.old) (H.state host.new)) }
        ensures part { OnErr result ((rest : List ℕ) → list_any is_lf rest ≡ false → self.old.held.items ≡ clipped rest →
            DoesPart H.tells (lines_of rest) self.old.store self.new.store (H.state host.old) (H.state host.new)) }
        ensures cause { IfErr result (λ stop. IsLineStop stop (H.state host.old) (H.state host.new)) }
        ensures calm { OnOk result (SameFaults (H.state host.old) (H.state host.new)) }
        ensures later { NoFewerFaults (H.state host.old) (H.state host.new) }
    {
        if self.held.as_slice().is_empty() {
            return Ok(self.refused);
        }
        self.end_line(alloc, host, &[])?;
        Ok(self.refused)
    }
}
