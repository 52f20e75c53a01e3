//! Brings a line to the disk and tells its reply.

ghost use Rattle.std.specs.Prelude.{◌≡◌, ◌≤◌, ◌<◌, ◌+◌, ◌/◌, ◌∷◌, ◌++◌, [], ℕ, List, length, true, IsTrue, OnOk, IfErr, is_ok};
ghost use Rattle.aria_host.specs.Calls.{HasDiskCause};
ghost use Rattle.aria_journal.specs.Frames.{IsFrame};
ghost use Rattle.aria_journal.specs.Log.{IsLog, LogKeeps, LogMoments};
ghost use Rattle.aria_engine.specs.Store.{HasCause, SameFaults, NoFewerFaults};
ghost use Rattle.aria_engine.specs.Turns.{file_pages, with_line, HoldsEither, Completes};

use aria_host::{Fault, Host, Stream};
use aria_journal::Log;

// Brings a line to the disk, as the last of the log.
fn keep<H: Host>(log: &mut Log, host: &mut H, line: &[u8]) -> Result<(), Fault>
    requires frame { IsFrame line.now }
    requires room { file_pages log.old < 524000 }
    requires log { IsTrue H.tells → (lines : List (List ℕ)) × IsLog log.old (H.state host.old) lines (length lines) }
    ensures kept { IsTrue H.tells → (lines : List (List ℕ)) → IsLog log.old (H.state host.old) lines (length lines)
        → OnOk result (IsLog log.new (H.state host.new) (lines ++ line.now ∷ []) (length (lines ++ line.now ∷ []))) }
    ensures moments { IsTrue H.tells → (lines : List (List ℕ)) → IsLog log.old (H.state host.old) lines (length lines)
        → LogKeeps (H.state host.old) (H.state host.new) (lines ++ line.now ∷ []) (length lines) }
    ensures grows { OnOk result (file_pages log.old ≤ file_pages log.new) }
    ensures pages { OnOk result (file_pages log.new ≤ file_pages log.old + (length line.now / 8176 + 2)) }
    ensures cause { HasDiskCause (H.state host.old) (H.state host.new) result }
{
    log.append(host, line)?;
    log.force(host)
}

// Brings a line to the disk where it is to be kept.
fn keep_if<H: Host>(log: &mut Log, host: &mut H, line: &[u8], kept: bool) -> Result<(), Fault>
    requires frame { kept ≡ true → IsFrame line.now }
    requires room { kept ≡ true → file_pages log.old < 524000 }
    requires log { IsTrue H.tells → (lines : List (List ℕ)) × IsLog log.old (H.state host.old) lines (length lines) }
    ensures kept { IsTrue H.tells → (lines : List (List ℕ)) → IsLog log.old (H.state host.old) lines (length lines)
        → OnOk result (IsLog log.new (H.state host.new) (with_line kept lines line.now) (length (with_line kept lines line.now))) }
    ensures moments { IsTrue H.tells → (lines : List (List ℕ)) → IsLog log.old (H.state host.old) lines (length lines)
        → LogMoments (H.state host.old) (H.state host.new) (λ content. HoldsEither content lines (with_line kept lines line.now)) }
    ensures grows { OnOk result (file_pages log.old ≤ file_pages log.new) }
    ensures pages { OnOk result (file_pages log.new ≤ file_pages log.old + (length line.now / 8176 + 2)) }
    ensures cause { HasDiskCause (H.state host.old) (H.state host.new) result }
{
    if kept {
        return keep(log, host, line);
    }
    Ok(())
}

/// Brings a line to the disk where it is to be kept, and then tells the text.
pub(crate) fn complete<H: Host>(
    log: &mut Log,
    host: &mut H,
    line: &[u8],
    kept: bool,
    text: &[u8],
) -> Result<(), Fault>
    requires frame { kept ≡ true → IsFrame line.now }
    requires room { kept ≡ true → file_pages log.old < 524000 }
    requires log { IsTrue H.tells → (lines : List (List ℕ)) × IsLog log.old (H.state host.old) lines (length lines) }
    ensures completes { IsTrue H.tells → (lines : List (List ℕ)) → IsLog log.old (H.state host.old) lines (length lines)
        → Completes lines (with_line kept lines line.now) text.now log.new (H.state host.old) (H.state host.new) (is_ok result) }
    ensures grows { OnOk result (file_pages log.old ≤ file_pages log.new) }
    ensures pages { OnOk result (file_pages log.new ≤ file_pages log.old + (length line.now / 8176 + 2)) }
    ensures cause { IfErr result (λ fault. HasCause fault (H.state host.old) (H.state host.new)) }
    ensures calm { OnOk result (SameFaults (H.state host.old) (H.state host.new)) }
    ensures later { NoFewerFaults (H.state host.old) (H.state host.new) }
{
    keep_if(log, host, line, kept)?;
    host.tell(Stream::Out, text)
}
