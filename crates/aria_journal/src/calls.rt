//! Appends frames and forces them to the disk.

ghost use Rattle.std.specs.Prelude.{◌≡◌, ◌≤◌, ◌<◌, ◌↔◌, ◌+◌, ◌*◌, ◌^◌, ◌∷◌, ◌++◌, [], ℕ, List, length, IsTrue, IsOk, OnOk, if◌then◌else◌, ◌==◌};
ghost use Rattle.aria_host.specs.Calls.{HasDiskCause};
ghost use Rattle.aria_journal.specs.Frames.{IsFrame};
ghost use Rattle.aria_journal.specs.Log.{place, IsLog, IsRunning, LogKeeps};

use crate::frame::LENGTH_BYTES;
use crate::log::Log;
use crate::log_page::{FILE, FILE_BODY_BYTES};
use aria_host::{Fault, FileName, Host};
use aria_page::{LOG_BODY_BYTES, u32_bytes};

impl Log {
    /// Appends a frame of 1 to 1048576 bytes. It is on the disk after the next force.
    pub fn append<H: Host>(&mut self, host: &mut H, frame: &[u8]) -> Result<(), Fault>
        requires frame { IsFrame frame.now }
        requires room { place self.old + 4 + length frame.now < 8176 * 2 ^ 31 }
        requires log { IsTrue H.tells → IsRunning self.old (H.state host.old) }
        ensures appended { IsTrue H.tells → (frames : List (List ℕ)) (forced : ℕ) → IsLog self.old (H.state host.old) frames forced
            → OnOk result (IsLog self.new (H.state host.new) (frames ++ frame.now ∷ []) forced) }
        ensures moments { IsTrue H.tells → (frames : List (List ℕ)) (forced : ℕ) → IsLog self.old (H.state host.old) frames forced
            → LogKeeps (H.state host.old) (H.state host.new) (frames ++ frame.now ∷ []) forced }
        ensures place { OnOk result (place self.new ≡ place self.old + 4 + length frame.now) }
        ensures cause { HasDiskCause (H.state host.old) (H.state host.new) result }
    {
        self.add(host, &u32_bytes(frame.len() as u32))?;
        self.add(host, frame)
    }

    // Writes the page that is filled and brings the file to the disk, which closes the run.
    fn close_run<H: Host>(&mut self, host: &mut H) -> Result<(), Fault>
        requires used { 1 ≤ self.old.used }
        requires log { IsTrue H.tells → IsRunning self.old (H.state host.old) }
        ensures forced { IsTrue H.tells → (frames : List (List ℕ)) (forced : ℕ) → IsLog self.old (H.state host.old) frames forced
            → OnOk result (IsLog self.new (H.state host.new) frames (length frames)) }
        ensures moments { IsTrue H.tells → (frames : List (List ℕ)) (forced : ℕ) → IsLog self.old (H.state host.old) frames forced
            → LogKeeps (H.state host.old) (H.state host.new) frames forced }
        ensures place { OnOk result (place self.new ≡ 8176 * (self.old.number + 1)) }
        ensures cause { HasDiskCause (H.state host.old) (H.state host.new) result }
    {
        self.write(host)?;
        host.sync(&FileName::Log(FILE))?;
        self.begins = true;
        Ok(())
    }

    /// Brings all frames to the disk. With nothing appended since the last force it does nothing.
    pub fn force<H: Host>(&mut self, host: &mut H) -> Result<(), Fault>
        requires { IsTrue H.tells → IsRunning self.old (H.state host.old) }
        ensures forced { IsTrue H.tells → (frames : List (List ℕ)) (forced : ℕ) → IsLog self.old (H.state host.old) frames forced
            → OnOk result (IsLog self.new (H.state host.new) frames (length frames)) }
        ensures moments { IsTrue H.tells → (frames : List (List ℕ)) (forced : ℕ) → IsLog self.old (H.state host.old) frames forced
            → LogKeeps (H.state host.old) (H.state host.new) frames forced }
        ensures place { OnOk result (place self.new ≡ 8176 * (self.old.number + (if self.old.used == 0 then 0 else 1))) }
        ensures idle { self.old.used ≡ 0 → IsOk result }
        ensures cause { HasDiskCause (H.state host.old) (H.state host.new) result }
    {
        if self.used == 0 {
            return Ok(());
        }
        self.close_run(host)
    }

    /// Whether the log's file has room for a frame of these bytes.
    pub fn has_room(&self, frame: &[u8]) -> bool
        ensures { IsTrue result ↔ (place self.now + 4 + length frame.now < 8176 * 2 ^ 31) }
    {
        let place = LOG_BODY_BYTES as u64 * u64::from(self.number) + u64::from(self.used);
        (frame.len() as u64) < FILE_BODY_BYTES.saturating_sub(place + LENGTH_BYTES)
    }

    /// How many pages the file has once all frames are forced.
    pub fn pages(&self) -> u64
        ensures count { result ≡ self.now.number + (if self.now.used == 0 then 0 else 1) }
        ensures place { place self.now ≤ 8176 * result }
        ensures within { result ≤ 2 ^ 31 }
    {
        let number = self.number as u64;
        if self.used == 0 { number } else { number + 1 }
    }
}
