//! Finds the log of a folder.

ghost use Rattle.std.specs.Prelude.{◌⊎◌, Option, IsTrue, IfOk, IfErr};
ghost use Rattle.aria_host.specs.Calls.{Narrows};
ghost use Rattle.aria_host.specs.declared.host.Extent.{Extent};
ghost use Rattle.aria_control.specs.Found.{control_file};
ghost use Rattle.aria_readlog.specs.Telling.{HasCause};
ghost use Rattle.aria_readlog.specs.Display.{Fails, FitsLength, IsDisplayFault};
ghost use Rattle.aria_readlog.specs.Looking.{IsLooked, IsRefused};

use crate::start::{start, start_of};
use aria_control::read;
use aria_host::{Fault, FileName, Host};
use aria_log::{Found, Log};
use aria_page::Lsn;
use std::alloc::Global;

/// A log that was found, and the first byte that is looked at.
#[derive(Drop)]
pub struct Looked {
    pub(crate) found: Found,
    pub(crate) first: Lsn,
}

/// Finds the log of a folder, from its lowest file on.
pub(crate) fn look<H: Host>(alloc: Global, host: &mut H) -> Result<Looked, Fault>
    ensures looked { IsTrue H.tells → IfOk result (λ looked. IsLooked (H.state host.old).folder looked.found looked.first) }
    ensures refused { IsTrue H.tells → IfErr result (IsRefused (H.state host.old).folder) }
    ensures length { Fails result ⊎ ((extent : Option Extent) × H.may_find host.old control_file extent × FitsLength extent result) }
    ensures same { IsTrue H.tells → Narrows (H.state host.old) (H.state host.new) }
    ensures cause { HasCause IsDisplayFault (H.state host.old) (H.state host.new) result }
{
    let control = read(alloc, host)?;
    let start = start(alloc, host, &control)?;
    let found = Log::find(alloc, host, start)?;
    Ok(Looked {
        found,
        first: start_of(start),
    })
}
