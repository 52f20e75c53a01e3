//! Tells what stands in the log of a folder.

ghost use Rattle.std.specs.Prelude.{◌≡◌, ◌⊎◌, ◌++◌, ◌*◌, ℕ, List, Option, Result, true, false, IsTrue, OnOk, OnErr, is_ok};
ghost use Rattle.std.specs.String.{string_bytes};
ghost use Rattle.aria_host.specs.declared.fault.Fault.{Fault as Failure};
ghost use Rattle.aria_host.specs.declared.host.Extent.{Extent};
ghost use Rattle.aria_host.specs.State.{LeavesOnly};
ghost use Rattle.aria_control.specs.Found.{control_file};
ghost use Rattle.aria_log.specs.Pieces.{Piece, log_files};
ghost use Rattle.aria_record.specs.Logged.{lsn_at_place};
ghost use Rattle.aria_log.specs.Reading.{entries_of_runs, IsReadable};
ghost use Rattle.aria_readlog.specs.Line.{last_line};
ghost use Rattle.aria_readlog.specs.Choice.{all_lines, total_line};
ghost use Rattle.aria_readlog.specs.Telling.{Shows, HasCause, IsReadFault};
ghost use Rattle.aria_readlog.specs.Listing.{Adds};
ghost use Rattle.aria_readlog.specs.Display.{choice, AtDisplay, Answers, Agree, Fails, FitsLength, IsDamaged, IsDisplay, IsDisplayFault, IsEnd, IsTold, Keeps};

use crate::choice::Choice;
use crate::line::push_last;
use crate::listing::Listing;
use crate::looking::look;
use aria_host::{Fault, FileName, Host};
use aria_log::{Damage, Found, Log, Reader};
use aria_page::Lsn;
use std::alloc::Global;

// Lists the runs of a log that begin in the page of this number or behind it.
fn list<H: Host>(
    alloc: Global,
    host: &mut H,
    listing: &mut Listing,
    log: &Log,
    first: Lsn,
) -> Result<(), Fault>
    requires groups { listing.old.groups ≡ 0 }
    requires rests { listing.old.rests ≡ 0 }
    requires readable { IsTrue H.tells → (n : ℕ) × (front : List Piece) × IsReadable log.now (log_files (H.state host.old).folder) (8176 * n) front × (first ≡ lsn_at_place (8176 * n)) }
    ensures adds { IsTrue H.tells → (n : ℕ) (front : List Piece) → IsReadable log.now (log_files (H.state host.old).folder) (8176 * n) front → first ≡ lsn_at_place (8176 * n)
        → OnOk result (Adds (entries_of_runs n front) listing.old listing.new (H.state host.old) (H.state host.new)) }
    ensures part { IsTrue H.tells → (n : ℕ) (front : List Piece) → IsReadable log.now (log_files (H.state host.old).folder) (8176 * n) front → first ≡ lsn_at_place (8176 * n)
        → OnErr result (Shows (string_bytes listing.old.text ++ all_lines listing.old.choice (entries_of_runs n front)) (H.state host.old) (H.state host.new) false) }
    ensures cause { HasCause (IsReadFault H.tells) (H.state host.old) (H.state host.new) result }
{
    let mut reader = Reader::new();
    let at = log.first_run(host, &mut reader, first)?;
    listing.read(alloc, host, log, &mut reader, at)
}

// Tells the lines that are held, and the last line.
fn finish<H: Host>(host: &mut H, listing: &mut Listing) -> Result<(), Fault>
    ensures shows { IsTrue H.tells → Shows (string_bytes listing.old.text ++ last_line listing.old.groups listing.old.rests) (H.state host.old) (H.state host.new) (is_ok result) }
    ensures cause { HasCause (IsReadFault H.tells) (H.state host.old) (H.state host.new) result }
{
    push_last(&mut listing.text, listing.groups, listing.rests)?;
    listing.tell(host)
}

// Tells the lines that are held, and the last line unless the log is damaged.
fn end<H: Host>(host: &mut H, listing: &mut Listing, damage: Option<Damage>) -> Result<(), Fault>
    ensures shows { IsTrue H.tells → Shows (string_bytes listing.old.text ++ last_line listing.old.groups listing.old.rests) (H.state host.old) (H.state host.new) (is_ok result) }
    ensures damaged { IsTrue H.tells → IsDamaged result → Shows (string_bytes listing.old.text) (H.state host.old) (H.state host.new) true }
    ensures answer { IsTrue H.tells → IsEnd damage result }
    ensures cause { HasCause IsDisplayFault (H.state host.old) (H.state host.new) result }
{
    match damage {
        None => finish(host, listing),
        Some(Damage { file, page }) => {
            listing.tell(host)?;
            Err(Fault::LogDamaged { file, page })
        }
    }
}

// Tells what stands in a log that was found, from the page of this number on.
fn show<H: Host>(
    alloc: Global,
    host: &mut H,
    found: &Found,
    first: Lsn,
    choice: Choice,
) -> Result<(), Fault>
    requires { IsTrue H.tells → (n : ℕ) × (front : List Piece) × IsReadable found.now.log (log_files (H.state host.old).folder) (8176 * n) front × (first ≡ lsn_at_place (8176 * n)) }
    ensures shows { IsTrue H.tells → (n : ℕ) (front : List Piece) → IsReadable found.now.log (log_files (H.state host.old).folder) (8176 * n) front → first ≡ lsn_at_place (8176 * n)
        → Shows (all_lines choice (entries_of_runs n front) ++ total_line choice (entries_of_runs n front)) (H.state host.old) (H.state host.new) (is_ok result) }
    ensures damaged { IsTrue H.tells → IsDamaged result → (n : ℕ) (front : List Piece) → IsReadable found.now.log (log_files (H.state host.old).folder) (8176 * n) front → first ≡ lsn_at_place (8176 * n)
        → Shows (all_lines choice (entries_of_runs n front)) (H.state host.old) (H.state host.new) true }
    ensures answer { IsTrue H.tells → IsEnd found.now.damage result }
    ensures cause { HasCause IsDisplayFault (H.state host.old) (H.state host.new) result }
{
    let mut listing = Listing::new(alloc, choice);
    list(alloc, host, &mut listing, &found.log, first)?;
    end(host, &mut listing, found.damage)
}

/// Tells on standard output what stands in the log of a folder: a line for each record of each group, and for each void
/// rest of a run, in the order of the log; and a last line that counts the groups and the rests (docs/TOOLS.md). With
/// `from` and `to` the groups and rests are told and counted whose number isn't below the one, nor above the other;
/// `silent` leaves out all lines but the last.
///
/// The log is looked at from its lowest file on. Nothing is changed; behind the list of the folder's names a crash may
/// leave less. A control file that is missing, not ours or damaged is a fault, and so is a file of the log that is missing.
/// Where the log is damaged, all lines but the last are told, and then it is a fault. One group is in memory at a time.
pub fn display<H: Host>(
    alloc: Global,
    host: &mut H,
    from: Option<Lsn>,
    to: Option<Lsn>,
    silent: bool,
) -> Result<(), Fault>
    // With Ok all lines of the log were told.
    ensures told { IsTrue H.tells → OnOk result ((lines : List ℕ) × (last : List ℕ) × IsDisplay (H.state host.old).folder (choice from to silent) lines last
        × ((H.state host.new).out ≡ (H.state host.old).out ++ (lines ++ last))) }

    // Where the log is damaged, all but the last line.
    ensures damaged { IsTrue H.tells → IsDamaged result → (lines : List ℕ) × (last : List ℕ) × IsDisplay (H.state host.old).folder (choice from to silent) lines last
        × ((H.state host.new).out ≡ (H.state host.old).out ++ lines) }

    // However it ends, a front of them was told, and no others. These are all lines of the folder: there is no other list.
    ensures part { IsTrue H.tells → IsTold (H.state host.old).folder (choice from to silent) (H.state host.old).out (H.state host.new).out }
    ensures shows { IsTrue H.tells → (lines last : List ℕ) → IsDisplay (H.state host.old).folder (choice from to silent) lines last
        → Shows (lines ++ last) (H.state host.old) (H.state host.new) (is_ok result) }

    // The folder is as it was, and at each moment a crash leaves what one might have left before.
    ensures kept { IsTrue H.tells → Keeps (H.state host.old) (H.state host.new) }
    ensures moments { IsTrue H.tells → LeavesOnly (H.state host.old) (H.state host.new) (AtDisplay (H.state host.old) (choice from to silent)) }

    // Unless the disk, memory or the output fails it answers what the folder says, and no other answer fits.
    ensures answer { IsTrue H.tells → Fails result ⊎ Answers result (H.state host.old).folder }
    ensures only { IsTrue H.tells → (other : Result (Unit {0}) Failure) → Answers other (H.state host.old).folder → Fails result ⊎ Agree other result }

    // A control file whose length is no multiple of a page's, as the host's look found it, is answered by NotOurs.
    ensures length { Fails result ⊎ ((extent : Option Extent) × H.may_find host.old control_file extent × FitsLength extent result) }
    ensures cause { HasCause IsDisplayFault (H.state host.old) (H.state host.new) result }
{
    let looked = look(alloc, host)?;
    let choice = Choice { from, to, silent };
    show(alloc, host, &looked.found, looked.first, choice)
}
