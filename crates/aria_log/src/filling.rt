//! Fills the pages of the log and writes them.

ghost use Rattle.std.specs.Prelude.{◌≡◌, ◌≤◌, ◌<◌, ◌+◌, ◌-◌, ◌*◌, ◌/◌, ◌^◌, ◌++◌, [], ℕ, Bool, List, true, false, min, take, length, IsTrue, IsSome, is_ok, OnOk, OnErr, IfOk, All};
ghost use Rattle.aria_host.specs.Calls.{HasDiskCause};
ghost use Rattle.aria_log.specs.Pieces.{Piece};
ghost use Rattle.aria_log.specs.Log.{place, behind, Fills, IsAt, IsWriting, Wrote, Makes, HoldsRun, IsImage, IsStrict, Adds, LogMoments};

use crate::ahead::MOST_AHEAD;
use crate::log::Log;
use crate::log_page::{BODY_AT, BODY_BYTES, file_of, page_of, seal};
use aria_host::{Fault, FileName, Host};
use aria_page::Page;
use std::cmp::{max, min};

impl Log {
    // Takes bytes from the front into the page, as many as there is room for, and says how many.
    fn fill(&mut self, bytes: &[u8]) -> usize
        requires { 8176 * self.old.number + 8176 ≤ 8176 * (2 ^ 34 - 1) }
        ensures count { result ≡ min (8176 - self.old.used) (length bytes.now) }
        ensures used { self.new.used ≡ self.old.used + result }
        ensures number { self.new.number ≡ self.old.number }
        ensures first { self.new.first ≡ self.old.first }
        ensures there { self.new.there ≡ self.old.there }
        ensures filled { (number : ℕ) (held : List ℕ) → Fills self.old number held → Fills self.new number (held ++ take result bytes.now) }
    {
        let used = self.used as usize;
        let count = min(BODY_BYTES - used, bytes.len());
        self.page.put(BODY_AT + used, &bytes[..count]);
        self.used += count as u16;
        count
    }

    // Makes the file of the page that is filled, where it isn't there.
    fn make_file<H: Host>(&mut self, host: &mut H) -> Result<(), Fault>
        requires room { self.old.number < 2 ^ 34 - 1 }
        requires at { IsTrue H.tells → (base : ℕ) × (whole : List Piece) × (parts : List (List ℕ)) × IsWriting (H.state host.old) base whole parts self.old.there × (self.old.number ≡ behind base whole parts) }
        ensures made { IsTrue H.tells → (base : ℕ) (whole : List Piece) (parts : List (List ℕ))
            → IsWriting (H.state host.old) base whole parts self.old.there → self.old.number ≡ behind base whole parts
            → Makes (H.state host.old) (H.state host.new) base whole parts (is_ok result) }
        ensures there { OnOk result (self.new.there ≡ true) }
        ensures page { self.new.page ≡ self.old.page }
        ensures number { self.new.number ≡ self.old.number }
        ensures first { self.new.first ≡ self.old.first }
        ensures used { self.new.used ≡ self.old.used }
        ensures cause { HasDiskCause (H.state host.old) (H.state host.new) result }
    {
        if self.there {
            return Ok(());
        }
        host.create(&FileName::Log(file_of(self.number)))?;
        self.there = true;
        Ok(())
    }

    // Puts the head before the body of the page that is filled, and writes it into its file.
    fn put_page<H: Host>(&mut self, host: &mut H) -> Result<(), Fault>
        requires room { self.old.number < 2 ^ 34 - 1 }
        requires at { IsTrue H.tells → (base : ℕ) × (whole : List Piece) × (parts : List (List ℕ)) × IsWriting (H.state host.old) base whole parts true × (self.old.number ≡ behind base whole parts) }
        ensures wrote { IsTrue H.tells → (base : ℕ) (whole : List Piece) (parts : List (List ℕ)) (held : List ℕ)
            → IsWriting (H.state host.old) base whole parts true → All (λ (bytes : List ℕ). length bytes ≡ 8176) parts → self.old.first ≡ base / 8176 + length whole
            → Fills self.old (behind base whole parts) held → 1 ≤ length held → Wrote self.new (H.state host.old) (H.state host.new) base whole parts held (is_ok result) }
        ensures ok { OnOk result ((self.new.number ≡ self.old.number + 1) × (self.new.used ≡ 0)) }
        ensures failed { OnErr result (place self.new ≡ place self.old) }
        ensures first { self.new.first ≡ self.old.first }
        ensures cause { HasDiskCause (H.state host.old) (H.state host.new) result }
    {
        let begins = self.number == self.first;
        seal(&mut self.page, self.number, begins, self.used);
        let file = FileName::Log(file_of(self.number));
        host.write_page(&file, page_of(self.number), &self.page)?;
        self.page = Page::zero();
        self.used = 0;
        self.number += 1;
        self.there = page_of(self.number) != 0;
        self.made = max(self.made, self.number);
        self.written = min(self.written + 1, MOST_AHEAD);
        Ok(())
    }

    // Writes the page that is filled at the end of the log. The next one goes on with its run.
    pub(crate) fn write<H: Host>(&mut self, host: &mut H) -> Result<(), Fault>
        requires room { self.old.number < 2 ^ 34 - 1 }
        requires at { IsTrue H.tells → (base : ℕ) × (whole : List Piece) × (parts : List (List ℕ)) × IsWriting (H.state host.old) base whole parts self.old.there × (self.old.number ≡ behind base whole parts) }
        ensures wrote { IsTrue H.tells → (base : ℕ) (whole : List Piece) (parts : List (List ℕ)) (held : List ℕ)
            → IsWriting (H.state host.old) base whole parts self.old.there → All (λ (bytes : List ℕ). length bytes ≡ 8176) parts → self.old.first ≡ base / 8176 + length whole
            → Fills self.old (behind base whole parts) held → 1 ≤ length held → Wrote self.new (H.state host.old) (H.state host.new) base whole parts held (is_ok result) }
        ensures ok { OnOk result ((self.new.number ≡ self.old.number + 1) × (self.new.used ≡ 0)) }
        ensures failed { OnErr result (place self.new ≡ place self.old) }
        ensures first { self.new.first ≡ self.old.first }
        ensures cause { HasDiskCause (H.state host.old) (H.state host.new) result }
    {
        self.make_file(host)?;
        self.put_page(host)
    }

    // Writes the page that is filled if it is full.
    fn make_room<H: Host>(&mut self, host: &mut H) -> Result<(), Fault>
        requires room { place self.old < 8176 * (2 ^ 34 - 1) }
        requires at { IsTrue H.tells → (base : ℕ) × (whole : List Piece) × (text : List ℕ) × IsAt self.old (H.state host.old) base whole text }
        ensures made { IsTrue H.tells → (base : ℕ) (whole : List Piece) (text : List ℕ) → IsAt self.old (H.state host.old) base whole text
            → Adds self.new (H.state host.old) (H.state host.new) base whole text (is_ok result) }
        ensures ok { OnOk result (self.new.used < 8176) }
        ensures place { place self.new ≡ place self.old }
        ensures first { self.new.first ≡ self.old.first }
        ensures cause { HasDiskCause (H.state host.old) (H.state host.new) result }
    {
        if self.used == BODY_BYTES as u16 {
            return self.write(host);
        }
        Ok(())
    }

    // Puts bytes from the front of these behind what was appended, and says how many.
    fn step<H: Host>(&mut self, host: &mut H, bytes: &[u8]) -> Result<usize, Fault>
        requires some { 1 ≤ length bytes.now }
        requires room { place self.old < 8176 * (2 ^ 34 - 1) }
        requires at { IsTrue H.tells → (base : ℕ) × (whole : List Piece) × (text : List ℕ) × IsAt self.old (H.state host.old) base whole text }
        ensures added { IsTrue H.tells → (base : ℕ) (whole : List Piece) (text : List ℕ) → IsAt self.old (H.state host.old) base whole text
            → IfOk result (λ count. IsAt self.new (H.state host.new) base whole (text ++ take count bytes.now)) }
        ensures moments { IsTrue H.tells → (base : ℕ) (whole : List Piece) (text : List ℕ) → IsAt self.old (H.state host.old) base whole text
            → LogMoments (H.state host.old) (H.state host.new) (IsImage base whole text) }
        ensures ok { IfOk result (λ count. (1 ≤ count) × (count ≤ length bytes.now) × (place self.new ≡ place self.old + count) × (1 ≤ self.new.used)) }
        ensures failed { OnErr result (place self.new ≡ place self.old) }
        ensures first { self.new.first ≡ self.old.first }
        ensures cause { HasDiskCause (H.state host.old) (H.state host.new) result }
    {
        self.make_room(host)?;
        Ok(self.fill(bytes))
    }

    /// Puts all these bytes behind what was appended.
    pub(crate) fn add<H: Host>(&mut self, host: &mut H, bytes: &[u8]) -> Result<(), Fault>
        requires some { 1 ≤ length bytes.now }
        requires room { place self.old + length bytes.now ≤ 8176 * (2 ^ 34 - 1) }
        requires at { IsTrue H.tells → (base : ℕ) × (whole : List Piece) × (text : List ℕ) × IsAt self.old (H.state host.old) base whole text }
        ensures added { IsTrue H.tells → (base : ℕ) (whole : List Piece) (text : List ℕ) → IsAt self.old (H.state host.old) base whole text
            → OnOk result (IsAt self.new (H.state host.new) base whole (text ++ bytes.now)) }
        ensures moments { IsTrue H.tells → (base : ℕ) (whole : List Piece) (text : List ℕ) → IsAt self.old (H.state host.old) base whole text
            → LogMoments (H.state host.old) (H.state host.new) (IsStrict base whole (text ++ bytes.now)) }
        ensures ok { OnOk result ((place self.new ≡ place self.old + length bytes.now) × (1 ≤ self.new.used)) }
        ensures rises { place self.old ≤ place self.new }
        ensures most { place self.new ≤ place self.old + length bytes.now }
        ensures first { self.new.first ≡ self.old.first }
        ensures cause { HasDiskCause (H.state host.old) (H.state host.new) result }
    {
        let mut at = 0;
        while at < bytes.len() {
            at += self.step(host, &bytes[at..])?;
        }
        Ok(())
    }
}
