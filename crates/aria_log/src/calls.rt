//! Appends groups and forces them to the disk.

ghost use Rattle.std.specs.Prelude.{◌≡◌, ◌≤◌, ◌<◌, ◌↔◌, ◌+◌, ◌-◌, ◌*◌, ◌/◌, ◌^◌, ◌∷◌, ◌++◌, [], ℕ, List, length, IsTrue, IsOk, OnOk, IfOk, if◌then◌else◌, ◌==◌, is_ok, All};
ghost use Rattle.aria_host.specs.Calls.{HasDiskCause};
ghost use Rattle.aria_record.specs.declared.record.Record.{Record};
ghost use Rattle.aria_record.specs.Groups.{IsGroup};
ghost use Rattle.aria_record.specs.Spelled.{group_bytes};
ghost use Rattle.aria_log.specs.Pieces.{Piece};
ghost use Rattle.aria_record.specs.Logged.{Logged, lsn_at_place};
ghost use Rattle.aria_log.specs.Log.{place, log_pages, behind, AreFull, IsLog, IsRunning, IsSameEnd, IsWriting, LogKeeps, Synced};
ghost use Rattle.aria_log.specs.Forced.{TellsForced};
ghost use Rattle.aria_log.specs.Spelling.{IsSpelled};
ghost use Rattle.aria_log.specs.Causes.{HasAppendCause};

use crate::log::Log;
use crate::log_page::{BODY_BYTES, PAGES_END, file_of};
use crate::place::{is_before_place, lsn_of_place, means_none};
use aria_host::{Fault, FileName, Host};
use aria_page::Lsn;

/// The bodies of all pages that a log may have, in bytes.
const END: u64 = BODY_BYTES as u64 * PAGES_END;

impl Log {
    // The place of the next byte: 8176 for each page before it, and the byte in its page's body.
    pub(crate) fn place(&self) -> u64
        ensures { result ≡ place self.now }
    {
        self.number * BODY_BYTES as u64 + u64::from(self.used)
    }

    /// Appends the bytes of one group, and gives the group's log sequence number. It is on the disk after the next force.
    /// Answers `LogSpent` where the log has no room for it, and then nothing is done.
    pub fn append<H: Host>(&mut self, host: &mut H, group: &[u8]) -> Result<Lsn, Fault>
        requires group { IsSpelled group.now }
        requires log { IsTrue H.tells → IsRunning self.old (H.state host.old) }
        ensures appended { IsTrue H.tells → (base : ℕ) (groups : List Logged) (forced : ℕ) → IsLog self.old (H.state host.old) base groups forced
            → (records : List Record) → IsGroup records → group.now ≡ group_bytes records
            → OnOk result (IsLog self.new (H.state host.new) base (groups ++ record { at = place self.old; group = records } ∷ []) forced) }
        ensures moments { IsTrue H.tells → (base : ℕ) (groups : List Logged) (forced : ℕ) → IsLog self.old (H.state host.old) base groups forced
            → LogKeeps (H.state host.old) (H.state host.new) base groups forced }
        ensures lsn { IfOk result (λ lsn. lsn ≡ lsn_at_place (place self.old)) }
        ensures low { place self.old ≤ 8176 * (2 ^ 34 - 1) }
        ensures place { OnOk result (place self.new ≡ place self.old + length group.now) }
        // Whatever it answers, the log's end stays or moves on, by at most the group's bytes.
        ensures rises { place self.old ≤ place self.new }
        ensures most { place self.new ≤ place self.old + length group.now }
        ensures cause { HasAppendCause (place self.old + length group.now) self.old self.new host.old host.new (H.state host.old) (H.state host.new) result }
    {
        let place = self.place();
        if (group.len() as u64) > END - place {
            return Err(Fault::LogSpent {
                file: file_of(PAGES_END),
            });
        }
        self.add(host, group)?;
        Ok(lsn_of_place(place))
    }

    // Brings the files of the open run to the disk, the lowest first.
    fn sync_run<H: Host>(&self, host: &mut H) -> Result<(), Fault>
        requires some { self.now.first < self.now.number }
        requires at { IsTrue H.tells → (base : ℕ) × (whole : List Piece) × (parts : List (List ℕ)) × IsWriting (H.state host.old) base whole parts self.now.there
            × (self.now.number ≡ behind base whole parts) × (self.now.first ≡ base / 8176 + length whole) }
        ensures synced { IsTrue H.tells → (base : ℕ) (whole : List Piece) (parts : List (List ℕ)) → IsWriting (H.state host.old) base whole parts self.now.there
            → self.now.number ≡ behind base whole parts → self.now.first ≡ base / 8176 + length whole → Synced (H.state host.old) (H.state host.new) base whole parts self.now.there (is_ok result) }
        ensures cause { HasDiskCause (H.state host.old) (H.state host.new) result }
    {
        for file in file_of(self.first)..file_of(self.number - 1) + 1 {
            host.sync(&FileName::Log(file))?;
        }
        Ok(())
    }

    // Makes room ahead of the log's end, and brings the files of the open run to the disk.
    fn end_run<H: Host>(&mut self, host: &mut H) -> Result<(), Fault>
        requires some { self.old.first < self.old.number }
        requires room { self.old.number < 2 ^ 34 }
        requires at { IsTrue H.tells → (base : ℕ) × (whole : List Piece) × (parts : List (List ℕ)) × IsWriting (H.state host.old) base whole parts self.old.there
            × (self.old.number ≡ behind base whole parts) × (self.old.first ≡ base / 8176 + length whole) }
        ensures synced { IsTrue H.tells → (base : ℕ) (whole : List Piece) (parts : List (List ℕ)) → IsWriting (H.state host.old) base whole parts self.old.there
            → self.old.number ≡ behind base whole parts → self.old.first ≡ base / 8176 + length whole → Synced (H.state host.old) (H.state host.new) base whole parts self.old.there (is_ok result) }
        ensures same { IsSameEnd self.old self.new }
        ensures cause { HasDiskCause (H.state host.old) (H.state host.new) result }
    {
        self.make_ahead(host)?;
        self.sync_run(host)
    }

    // Writes the page that is filled and brings the run to the disk, which closes it.
    fn close_run<H: Host>(&mut self, host: &mut H) -> Result<(), Fault>
        requires used { 1 ≤ self.old.used }
        requires log { IsTrue H.tells → IsRunning self.old (H.state host.old) }
        ensures forced { IsTrue H.tells → (base : ℕ) (groups : List Logged) (forced : ℕ) → IsLog self.old (H.state host.old) base groups forced
            → OnOk result (IsLog self.new (H.state host.new) base groups (length groups)) }
        ensures moments { IsTrue H.tells → (base : ℕ) (groups : List Logged) (forced : ℕ) → IsLog self.old (H.state host.old) base groups forced
            → LogKeeps (H.state host.old) (H.state host.new) base groups forced }
        ensures place { OnOk result (place self.new ≡ 8176 * (self.old.number + 1)) }
        ensures pages { log_pages self.new ≡ log_pages self.old }
        ensures rises { place self.old ≤ place self.new }
        ensures cause { HasDiskCause (H.state host.old) (H.state host.new) result }
    {
        self.write(host)?;
        self.end_run(host)?;
        self.first = self.number;
        Ok(())
    }

    /// Brings all groups to the disk. With nothing appended since the last force it does nothing.
    pub fn force<H: Host>(&mut self, host: &mut H) -> Result<(), Fault>
        requires { IsTrue H.tells → IsRunning self.old (H.state host.old) }
        ensures forced { IsTrue H.tells → (base : ℕ) (groups : List Logged) (forced : ℕ) → IsLog self.old (H.state host.old) base groups forced
            → OnOk result (IsLog self.new (H.state host.new) base groups (length groups)) }
        ensures moments { IsTrue H.tells → (base : ℕ) (groups : List Logged) (forced : ℕ) → IsLog self.old (H.state host.old) base groups forced
            → LogKeeps (H.state host.old) (H.state host.new) base groups forced }
        ensures place { OnOk result (place self.new ≡ 8176 * (self.old.number + (if self.old.used == 0 then 0 else 1))) }
        // Whatever it answers, the log has as many pages once it is forced, and its end isn't put back.
        ensures pages { log_pages self.new ≡ log_pages self.old }
        ensures rises { place self.old ≤ place self.new }
        ensures idle { self.old.used ≡ 0 → (self.new ≡ self.old) × (host.new ≡ host.old) × IsOk result }
        ensures cause { HasDiskCause (H.state host.old) (H.state host.new) result }
    {
        if self.used == 0 {
            return Ok(());
        }
        self.close_run(host)
    }

    /// Whether the group with this log sequence number is on the disk. Where it means none, it is no group's.
    pub fn is_forced<H: Host>(&self, host: &H, lsn: Lsn) -> bool
        ensures tells { IsTrue H.tells → (base : ℕ) (groups : List Logged) (forced : ℕ) → IsLog self.now (H.state host.now) base groups forced → TellsForced lsn groups forced result }
        ensures low { place self.now ≤ 8176 * (2 ^ 34 - 1) }
    {
        let _host = host;
        if means_none(lsn) {
            return false;
        }
        is_before_place(lsn, self.first * BODY_BYTES as u64)
    }

    /// The place behind the log's last group: where the next one begins.
    pub fn end(&self) -> Lsn
        ensures is { result ≡ lsn_at_place (place self.now) }
        ensures low { place self.now ≤ 8176 * (2 ^ 34 - 1) }
    {
        lsn_of_place(self.place())
    }
}
