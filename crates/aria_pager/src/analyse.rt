//! One walk over the log of a folder, before its groups are made again.

ghost use Rattle.std.specs.Prelude.{◌≡◌, [], ℕ, List as Seq, IsTrue, IfOk, OnOk};
ghost use Rattle.aria_page.specs.declared.lsn.Lsn.{Lsn as Number};
ghost use Rattle.aria_host.specs.Calls.{Unchanged};
ghost use Rattle.aria_record.specs.Logged.{Logged, lsn_at_place};
ghost use Rattle.aria_log.specs.Pieces.{log_files};
ghost use Rattle.aria_log.specs.Log.{place};
ghost use Rattle.aria_log.specs.Reading.{Entry, IsReader, StandsAt};
ghost use Rattle.aria_log.specs.Stepping.{IsStep, TellsGroup, groups_of};
ghost use Rattle.aria_recovery.specs.Analysed.{Has};
ghost use Rattle.aria_pager.specs.Entered.{AreLow};
ghost use Rattle.aria_pager.specs.Found.{HasCause, IsWalkFault, Takes};

use aria_host::{Fault, FileName, Host};
use aria_log::{Log, MAX_ENTRIES, Reader, Step};
use aria_page::{Lsn, PAGE_BYTES};
use aria_recovery::Analysis;
use std::alloc::{AllocError, Global};

// Adds what a step tells, and answers where the next thing stands.
fn take(analysis: &mut Analysis, step: Step) -> Result<Option<Lsn>, AllocError>
    ensures { (end : ℕ) (more : Seq Entry) (checkpoint : Number) (groups : Seq Logged) → IsStep end more step → TellsGroup step → Has checkpoint analysis.old groups
        → IfOk result (λ after. Takes end more after checkpoint groups analysis.new) }
{
    match step {
        Step::End => Ok(None),
        Step::Rest { after, .. } => Ok(Some(after)),
        Step::Group { at, group, after } => {
            analysis.add(at, &group)?;
            Ok(Some(after))
        }
    }
}

// Adds what stands at this place of the log, and answers where the next thing stands.
fn add_step<H: Host>(
    alloc: Global,
    host: &mut H,
    log: &Log,
    reader: &mut Reader,
    analysis: &mut Analysis,
    from: Lsn,
) -> Result<Option<Lsn>, Fault>
    requires reader { IsTrue H.tells → IsReader reader.old (log_files (H.state host.old).folder) }
    requires stands { IsTrue H.tells → (here : ℕ) × (before : Seq Entry) × (more : Seq Entry) × StandsAt log.now (log_files (H.state host.old).folder) here before more × (from ≡ lsn_at_place here) }
    ensures takes { IsTrue H.tells → (here : ℕ) (before more : Seq Entry) (checkpoint : Number) (groups : Seq Logged) → StandsAt log.now (log_files (H.state host.old).folder) here before more → from ≡ lsn_at_place here
        → Has checkpoint analysis.old groups → IfOk result (λ after. Takes (place log.now) more after checkpoint groups analysis.new) }
    ensures reader { IsTrue H.tells → OnOk result (IsReader reader.new (log_files (H.state host.new).folder)) }
    ensures same { IsTrue H.tells → Unchanged (H.state host.old) (H.state host.new) }
    ensures cause { HasCause (IsWalkFault H.tells) (H.state host.old) (H.state host.new) result }
{
    let _file = FileName::Control;
    let step = log.next(alloc, host, reader, from)?;
    let after = take(analysis, step)?;
    Ok(after)
}

/// Walks over the log from its base on, and analyses its groups.
pub(crate) fn analyse<H: Host>(
    alloc: Global,
    host: &mut H,
    log: &Log,
    checkpoint: Lsn,
    from: Lsn,
) -> Result<Analysis, Fault>
    requires stands { IsTrue H.tells → (here : ℕ) × (more : Seq Entry) × StandsAt log.now (log_files (H.state host.old).folder) here [] more × (from ≡ lsn_at_place here) }
    ensures has { IsTrue H.tells → (here : ℕ) (more : Seq Entry) → StandsAt log.now (log_files (H.state host.old).folder) here [] more → from ≡ lsn_at_place here
        → IfOk result (λ analysis. Has checkpoint analysis (groups_of more) × AreLow (groups_of more)) }
    ensures same { IsTrue H.tells → Unchanged (H.state host.old) (H.state host.new) }
    ensures cause { HasCause (IsWalkFault H.tells) (H.state host.old) (H.state host.new) result }
{
    let _file = FileName::Control;
    let mut analysis = Analysis::new(alloc, checkpoint);
    let mut reader = Reader::new();
    let mut at = from;
    for _nth in 0..MAX_ENTRIES {
        match add_step(alloc, host, log, &mut reader, &mut analysis, at)? {
            None => return Ok(analysis),
            Some(after) => at = after,
        }
    }
    Err(Fault::LogDamaged {
        file: at.file,
        page: at.offset / PAGE_BYTES as u32,
    })
}
