//! Lists what stands in the log, and tells it in pieces.

ghost use Rattle.std.specs.Prelude.{◌≡◌, ◌++◌, ◌+◌, ◌-◌, ◌<◌, ◌≤◌, ◌^◌, ℕ, [], List, true, false, Some, None, IsTrue, IfOk, OnOk, OnErr, if◌then◌else◌, ◌&&◌, not};
ghost use Rattle.std.specs.String.{string_bytes};
ghost use Rattle.aria_log.specs.Pieces.{log_files};
ghost use Rattle.aria_record.specs.Logged.{lsn_at_place};
ghost use Rattle.aria_log.specs.Log.{place};
ghost use Rattle.aria_log.specs.Reading.{Entry, Whole, Void, IsReader, StandsAt};
ghost use Rattle.aria_log.specs.Stepping.{IsStep};
ghost use Rattle.aria_readlog.specs.Choice.{is_within, all_lines, found_lines};
ghost use Rattle.aria_readlog.specs.Telling.{Shows, HasCause, IsReadFault};

use crate::choice::Choice;
use crate::line::{push_group, push_rest};
use aria_host::{Fault, Host, Stream};
use aria_log::{Log, MAX_ENTRIES, Reader, Step};
use aria_page::{Lsn, PAGE_BYTES};
use aria_record::Record;
use std::alloc::{AllocError, Global};

/// The lines that are held are told once they have so many bytes.
const PIECE_BYTES: usize = 65_536;

/// A listing of the log: the lines that aren't told yet, and what was counted.
#[derive(Drop)]
pub struct Listing {
    pub(crate) choice: Choice,
    pub(crate) text: String,
    pub(crate) groups: u64,
    pub(crate) rests: u64,
}

impl Listing {
    ghost use Rattle.aria_readlog.specs.Listing.{Tells, Takes, Adds, Steps};

    /// A listing of nothing yet.
    pub(crate) fn new(alloc: Global, choice: Choice) -> Listing
        ensures choice { result.choice ≡ choice }
        ensures text { string_bytes result.text ≡ [] }
        ensures groups { result.groups ≡ 0 }
        ensures rests { result.rests ≡ 0 }
    {
        Listing {
            choice,
            text: String::new(alloc),
            groups: 0,
            rests: 0,
        }
    }

    // Adds a group.
    fn add_group(&mut self, lsn: Lsn, group: &[Record]) -> Result<(), AllocError>
        requires room { self.old.groups < 2 ^ 64 - 1 }
        ensures text { OnOk result (string_bytes self.new.text ≡ string_bytes self.old.text
            ++ (if is_within self.old.choice lsn && not self.old.choice.silent then found_lines lsn (Whole group.now) else [])) }
        ensures groups { OnOk result (self.new.groups ≡ self.old.groups + (if is_within self.old.choice lsn then 1 else 0)) }
        ensures rests { OnOk result (self.new.rests ≡ self.old.rests) }
        ensures choice { OnOk result (self.new.choice ≡ self.old.choice) }
    {
        if !self.choice.is_within(lsn) {
            return Ok(());
        }
        self.groups += 1;
        if self.choice.silent {
            return Ok(());
        }
        push_group(&mut self.text, lsn, group)
    }

    // Adds a void rest of so many bytes.
    fn add_rest(&mut self, lsn: Lsn, bytes: u64) -> Result<(), AllocError>
        requires room { self.old.rests < 2 ^ 64 - 1 }
        ensures text { OnOk result (string_bytes self.new.text ≡ string_bytes self.old.text
            ++ (if is_within self.old.choice lsn && not self.old.choice.silent then found_lines lsn (Void bytes) else [])) }
        ensures rests { OnOk result (self.new.rests ≡ self.old.rests + (if is_within self.old.choice lsn then 1 else 0)) }
        ensures groups { OnOk result (self.new.groups ≡ self.old.groups) }
        ensures choice { OnOk result (self.new.choice ≡ self.old.choice) }
    {
        if !self.choice.is_within(lsn) {
            return Ok(());
        }
        self.rests += 1;
        if self.choice.silent {
            return Ok(());
        }
        push_rest(&mut self.text, lsn, bytes)
    }

    // Adds what a step tells, and answers where the next thing stands.
    fn take(&mut self, step: Step) -> Result<Option<Lsn>, AllocError>
        requires room { self.old.groups + self.old.rests < 2 ^ 64 - 1 }
        ensures takes { (end : ℕ) (more : List Entry) → IsStep end more step → IfOk result (λ after. Takes end more after self.old self.new) }
        ensures room { OnOk result (self.new.groups + self.new.rests ≤ self.old.groups + self.old.rests + 1) }
    {
        match step {
            Step::End => Ok(None),
            Step::Group { at, group, after } => {
                self.add_group(at, group.as_slice())?;
                Ok(Some(after))
            }
            Step::Rest { at, bytes, after } => {
                self.add_rest(at, bytes)?;
                Ok(Some(after))
            }
        }
    }

    /// Tells the lines that are held.
    pub(crate) fn tell<H: Host>(&mut self, host: &mut H) -> Result<(), Fault>
        ensures emptied { OnOk result (string_bytes self.new.text ≡ []) }
        ensures tells { IsTrue H.tells → OnOk result (Tells self.old self.new (H.state host.old) (H.state host.new)) }
        ensures part { IsTrue H.tells → OnErr result (Shows (string_bytes self.old.text) (H.state host.old) (H.state host.new) false) }
        ensures cause { HasCause (IsReadFault H.tells) (H.state host.old) (H.state host.new) result }
        ensures groups { self.new.groups ≡ self.old.groups }
        ensures rests { self.new.rests ≡ self.old.rests }
    {
        host.tell(Stream::Out, self.text.as_bytes())?;
        self.text.clear();
        Ok(())
    }

    // Tells the lines that are held if there are many.
    fn tell_many<H: Host>(&mut self, host: &mut H) -> Result<(), Fault>
        ensures tells { IsTrue H.tells → OnOk result (Tells self.old self.new (H.state host.old) (H.state host.new)) }
        ensures part { IsTrue H.tells → OnErr result (Shows (string_bytes self.old.text) (H.state host.old) (H.state host.new) false) }
        ensures cause { HasCause (IsReadFault H.tells) (H.state host.old) (H.state host.new) result }
        ensures groups { self.new.groups ≡ self.old.groups }
        ensures rests { self.new.rests ≡ self.old.rests }
    {
        if self.text.len() < PIECE_BYTES {
            return Ok(());
        }
        self.tell(host)
    }

    // Lists what stands at this number, and answers where the next thing stands.
    fn step<H: Host>(
        &mut self,
        alloc: Global,
        host: &mut H,
        log: &Log,
        reader: &mut Reader,
        from: Lsn,
    ) -> Result<Option<Lsn>, Fault>
        requires room { self.old.groups + self.old.rests < 2 ^ 64 - 1 }
        requires reader { IsTrue H.tells → IsReader reader.old (log_files (H.state host.old).folder) }
        requires stands { IsTrue H.tells → (here : ℕ) × (before : List Entry) × (more : List Entry) × StandsAt log.now (log_files (H.state host.old).folder) here before more × (from ≡ lsn_at_place here) }
        ensures steps { IsTrue H.tells → (here : ℕ) (before more : List Entry) → StandsAt log.now (log_files (H.state host.old).folder) here before more → from ≡ lsn_at_place here
            → IfOk result (λ after. Steps (place log.now) more after self.old self.new (H.state host.old) (H.state host.new)) }
        ensures part { IsTrue H.tells → (here : ℕ) (before more : List Entry) → StandsAt log.now (log_files (H.state host.old).folder) here before more → from ≡ lsn_at_place here
            → OnErr result (Shows (string_bytes self.old.text ++ all_lines self.old.choice more) (H.state host.old) (H.state host.new) false) }
        ensures room { OnOk result (self.new.groups + self.new.rests ≤ self.old.groups + self.old.rests + 1) }
        ensures reader { IsTrue H.tells → OnOk result (IsReader reader.new (log_files (H.state host.new).folder)) }
        ensures cause { HasCause (IsReadFault H.tells) (H.state host.old) (H.state host.new) result }
    {
        let step = log.next(alloc, host, reader, from)?;
        let after = self.take(step)?;
        self.tell_many(host)?;
        Ok(after)
    }

    /// Lists all that stands in the log from this number on.
    pub(crate) fn read<H: Host>(
        &mut self,
        alloc: Global,
        host: &mut H,
        log: &Log,
        reader: &mut Reader,
        from: Lsn,
    ) -> Result<(), Fault>
        requires groups { self.old.groups ≡ 0 }
        requires rests { self.old.rests ≡ 0 }
        requires reader { IsTrue H.tells → IsReader reader.old (log_files (H.state host.old).folder) }
        requires stands { IsTrue H.tells → (here : ℕ) × (more : List Entry) × StandsAt log.now (log_files (H.state host.old).folder) here [] more × (from ≡ lsn_at_place here) }
        ensures adds { IsTrue H.tells → (here : ℕ) (more : List Entry) → StandsAt log.now (log_files (H.state host.old).folder) here [] more → from ≡ lsn_at_place here
            → OnOk result (Adds more self.old self.new (H.state host.old) (H.state host.new)) }
        ensures part { IsTrue H.tells → (here : ℕ) (more : List Entry) → StandsAt log.now (log_files (H.state host.old).folder) here [] more → from ≡ lsn_at_place here
            → OnErr result (Shows (string_bytes self.old.text ++ all_lines self.old.choice more) (H.state host.old) (H.state host.new) false) }
        ensures cause { HasCause (IsReadFault H.tells) (H.state host.old) (H.state host.new) result }
    {
        let mut at = from;
        for _nth in 0..MAX_ENTRIES {
            match self.step(alloc, host, log, reader, at)? {
                None => return Ok(()),
                Some(after) => at = after,
            }
        }
        Err(Fault::LogDamaged {
            file: at.file,
            page: at.offset / PAGE_BYTES as u32,
        })
    }
}
