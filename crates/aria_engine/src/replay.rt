//! Executes the lines of a log anew.

ghost use Rattle.std.specs.Prelude.{◌≡◌, map, IfOk, MatchOption};
ghost use Rattle.aria_journal.specs.declared.opened.Frame.{Frame};
ghost use Rattle.aria_memory.specs.Worlds.{world_of};
ghost use Rattle.aria_model.specs.World.{empty_world};
ghost use Rattle.aria_engine.specs.Opening.{Redoes, Replays, FailsAt};

use crate::changing::{change_of, is_changed};
use aria_journal::Frame;
use aria_memory::Tables;
use aria_page::Bytes;
use aria_statement::{Stopped, parse};
use std::alloc::{AllocError, Global};

// Executes a line of the log, and says whether it changed the tables.
fn redo(
    alloc: Global,
    tables: &mut Tables,
    text: &mut Bytes,
    line: &[u8],
) -> Result<bool, AllocError>
    ensures { IfOk result (λ changed. Redoes line.now (world_of tables.old) (world_of tables.new) changed) }
{
    match parse(alloc, line) {
        Ok(None) => Ok(false),
        Ok(Some(statement)) => {
            let change = change_of(&statement);
            let reply = tables.execute(alloc, statement, None, text)?;
            Ok(is_changed(change, &reply))
        }
        Err(Stopped::Refused(_)) => Ok(false),
        Err(Stopped::Memory) => Err(AllocError),
    }
}

/// Executes the lines of a log on no tables. It answers the page in which the first of them begins that changes nothing.
pub(crate) fn replay(
    alloc: Global,
    tables: &mut Tables,
    frames: &[Frame],
) -> Result<Option<u32>, AllocError>
    requires none { world_of tables.old ≡ empty_world }
    ensures { IfOk result (λ damage. MatchOption damage
        (Replays (map (λ (f : Frame). f.bytes) frames.now) (world_of tables.new))
        (λ page. FailsAt (map (λ (f : Frame). f.bytes) frames.now) (map (λ (f : Frame). f.page) frames.now) page)) }
{
    let mut text = Bytes::new(alloc);
    for frame in frames {
        text.clear();
        if !redo(alloc, tables, &mut text, frame.bytes.as_slice())? {
            return Ok(Some(frame.page));
        }
    }
    Ok(None)
}
