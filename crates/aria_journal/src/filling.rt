//! Fills the pages of the log and writes them.

ghost use Rattle.std.specs.Prelude.{◌≡◌, ◌≤◌, ◌<◌, ◌+◌, ◌-◌, ◌*◌, ◌^◌, ◌++◌, [], ℕ, Bool, List, false, true, min, take, length, IsTrue, IsSome, is_ok, OnOk, IfOk, MatchResult};
ghost use Rattle.aria_host.specs.Calls.{HasDiskCause};
ghost use Rattle.aria_journal.specs.Runs.{begins_next};
ghost use Rattle.aria_journal.specs.Log.{log_file, place, Fills, IsAt, IsWriting, Wrote, IsImage, Adds, LogMoments};

use crate::log::Log;
use crate::log_page::{FILE, seal};
use aria_host::{Fault, FileName, Host};
use aria_page::{LOG_BODY_AT, LOG_BODY_BYTES, Page};
use std::cmp::min;

impl Log {
    // A log that ends before the page of this number, with nothing appended.
    pub(crate) fn at(number: u32) -> Log
        requires { number ≤ 2 ^ 31 }
        ensures { Fills result number true [] }
    {
        Log {
            page: Page::zero(),
            number,
            begins: true,
            used: 0,
        }
    }

    // Takes bytes from the front into the page, as many as there is room for, and says how many.
    fn fill(&mut self, bytes: &[u8]) -> usize
        requires { self.old.number < 2 ^ 31 }
        ensures count { result ≡ min (8176 - self.old.used) (length bytes.now) }
        ensures used { self.new.used ≡ self.old.used + result }
        ensures number { self.new.number ≡ self.old.number }
        ensures begins { self.new.begins ≡ self.old.begins }
        ensures filled { (number : ℕ) (begins : Bool) (held : List ℕ) → Fills self.old number begins held → Fills self.new number begins (held ++ take result bytes.now) }
    {
        let used = self.used as usize;
        let count = min(LOG_BODY_BYTES - used, bytes.len());
        self.page.put(LOG_BODY_AT + used, &bytes[..count]);
        self.used += count as u16;
        count
    }

    // Writes the page that is filled at the end of the file. The next one goes on with its run.
    pub(crate) fn write<H: Host>(&mut self, host: &mut H) -> Result<(), Fault>
        requires room { self.old.number < 2 ^ 31 }
        requires there { IsTrue H.tells → IsSome ((H.state host.old).folder log_file) }
        ensures wrote { IsTrue H.tells → (base written : List (List ℕ)) (before held : List ℕ)
            → IsWriting false (H.state host.old) base written before → Fills self.old (length base + length written) (begins_next written) held → 1 ≤ length held
            → Wrote self.new (H.state host.old) (H.state host.new) base written before held (is_ok result) }
        ensures ok { OnOk result ((self.new.number ≡ self.old.number + 1) × (self.new.used ≡ 0)) }
        ensures cause { HasDiskCause (H.state host.old) (H.state host.new) result }
    {
        seal(&mut self.page, self.number, self.begins, self.used);
        host.write_page(&FileName::Log(FILE), self.number, &self.page)?;
        self.page = Page::zero();
        self.number += 1;
        self.begins = false;
        self.used = 0;
        Ok(())
    }

    // Writes the page that is filled if it is full.
    fn make_room<H: Host>(&mut self, host: &mut H) -> Result<(), Fault>
        requires { IsTrue H.tells → (base : List (List ℕ)) × (text : List ℕ) × IsAt self.old (H.state host.old) base text }
        ensures made { IsTrue H.tells → (base : List (List ℕ)) (text : List ℕ) → IsAt self.old (H.state host.old) base text
            → Adds self.new (H.state host.old) (H.state host.new) base text (is_ok result) }
        ensures ok { OnOk result ((place self.new ≡ place self.old) × (self.new.used < 8176)) }
        ensures cause { HasDiskCause (H.state host.old) (H.state host.new) result }
    {
        if self.used == LOG_BODY_BYTES as u16 {
            return self.write(host);
        }
        Ok(())
    }

    // Puts bytes from the front of these behind what was appended, and says how many.
    fn step<H: Host>(&mut self, host: &mut H, bytes: &[u8]) -> Result<usize, Fault>
        requires some { 1 ≤ length bytes.now }
        requires room { place self.old < 8176 * 2 ^ 31 }
        requires at { IsTrue H.tells → (base : List (List ℕ)) × (text : List ℕ) × IsAt self.old (H.state host.old) base text }
        ensures added { IsTrue H.tells → (base : List (List ℕ)) (text : List ℕ) → IsAt self.old (H.state host.old) base text
            → MatchResult result (λ count. Adds self.new (H.state host.old) (H.state host.new) base (text ++ take count bytes.now) true) (λ _. LogMoments (H.state host.old) (H.state host.new) (IsImage base text)) }
        ensures ok { IfOk result (λ count. (1 ≤ count) × (count ≤ length bytes.now) × (place self.new ≡ place self.old + count) × (1 ≤ self.new.used)) }
        ensures cause { HasDiskCause (H.state host.old) (H.state host.new) result }
    {
        self.make_room(host)?;
        Ok(self.fill(bytes))
    }

    /// Puts all these bytes behind what was appended.
    pub(crate) fn add<H: Host>(&mut self, host: &mut H, bytes: &[u8]) -> Result<(), Fault>
        requires room { place self.old + length bytes.now < 8176 * 2 ^ 31 }
        requires at { IsTrue H.tells → (base : List (List ℕ)) × (text : List ℕ) × IsAt self.old (H.state host.old) base text }
        ensures added { IsTrue H.tells → (base : List (List ℕ)) (text : List ℕ) → IsAt self.old (H.state host.old) base text
            → Adds self.new (H.state host.old) (H.state host.new) base (text ++ bytes.now) (is_ok result) }
        ensures ok { OnOk result ((place self.new ≡ place self.old + length bytes.now) × (1 ≤ length bytes.now → 1 ≤ self.new.used)) }
        ensures cause { HasDiskCause (H.state host.old) (H.state host.new) result }
    {
        let mut at = 0;
        while at < bytes.len() {
            at += self.step(host, &bytes[at..])?;
        }
        Ok(())
    }
}
