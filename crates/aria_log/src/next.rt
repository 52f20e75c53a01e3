//! Reads the log, one thing that stands in it after the other.

ghost use Rattle.std.specs.Prelude.{◌≡◌, ◌≤◌, ◌<◌, ◌+◌, ◌-◌, ◌*◌, ◌/◌, ◌%◌, ◌^◌, ◌++◌, [], ℕ, List, Some, None, length, drop, IsTrue, IsSome, OnOk, IfOk};
ghost use Rattle.aria_host.specs.Calls.{Unchanged};
ghost use Rattle.aria_record.specs.Groups.{IsGroup};
ghost use Rattle.aria_record.specs.Reading.{read_group};
ghost use Rattle.aria_log.specs.Pieces.{Piece, LogFiles, log_files};
ghost use Rattle.aria_record.specs.Logged.{lsn_at_place};
ghost use Rattle.aria_log.specs.Groups.{run_rest};
ghost use Rattle.aria_log.specs.Log.{place};
ghost use Rattle.aria_log.specs.Reading.{Entry, entries_at, entries_of_runs, IsReadable, IsReader, StandsAt, seen};
ghost use Rattle.aria_log.specs.Stepping.{shown, page_behind, IsLeft, EndsRun, StandsIn, IsStep, TellsGroup, HasPageCause, HasNextCause};

use crate::log::Log;
use crate::log_page::PLACES;
use crate::place::{lsn_of_place, place_of_lsn};
use crate::reader::Reader;
use crate::run::{damaged, group_of};
use crate::step::Step;
use aria_host::{Fault, Host};
use aria_page::{Bytes, Lsn, PAGE_BYTES};
use aria_record::Group;
use std::alloc::Global;

/// No log has as many entries, whole groups and void rests: each of them has a byte of its own. So a walk by `next` comes
/// to the log's end within as many steps.
pub const MAX_ENTRIES: u64 = 1 << 47;

impl Log {
    // Where the next thing stands behind bytes that end here, in a run whose pages were read up to a place: there, or
    // where the next page begins.
    fn after(&self, at: u64, read: u64) -> u64
        requires read { read ≤ place self.now }
        requires at { at ≤ read }
        ensures here { at < read → result ≡ at }
        ensures last { place self.now ≤ at → result ≡ at }
        ensures next { read ≤ at → at < place self.now → result ≡ 8176 * page_behind read }
        ensures within { result ≤ 8176 * (2 ^ 34 - 1) }
    {
        if at < read || at >= self.place() {
            at
        } else {
            at.div_ceil(PLACES) * PLACES
        }
    }

    // A group, which takes so many bytes, in a run whose pages were read up to a place.
    fn group_step(&self, at: u64, group: Group, size: usize, read: u64) -> Step
        requires read { read ≤ place self.now }
        requires size { at + size ≤ read }
        requires page { length self.now.page ≡ 8192 }
        ensures step { (files : LogFiles) (entries : List Entry) (last : List Piece) (bytes rest : List ℕ) → IsLeft self.now files read last → read ≡ at + length bytes
            → entries ≡ entries_at at (bytes ++ run_rest last) ++ entries_of_runs (page_behind read) last → read_group bytes ≡ Some (group, rest) → size + length rest ≡ length bytes
            → IsStep (place self.now) entries result }
        ensures group { IsGroup group → TellsGroup result }
    {
        Step::Group {
            at: lsn_of_place(at),
            group,
            after: lsn_of_place(self.after(at + size as u64, read)),
        }
    }

    // The void rest of a run, which ends here.
    fn rest_step(&self, at: u64, end: u64) -> Step
        requires end { end ≤ place self.now }
        requires some { at < end }
        requires page { length self.now.page ≡ 8192 }
        ensures step { (files : LogFiles) (entries : List Entry) (last : List Piece) (bytes : List ℕ) → IsLeft self.now files end last → EndsRun last → end ≡ at + length bytes
            → entries ≡ entries_at at (bytes ++ run_rest last) ++ entries_of_runs (page_behind end) last → read_group bytes ≡ None → IsStep (place self.now) entries result }
        ensures group { TellsGroup result }
    {
        Step::Rest {
            at: lsn_of_place(at),
            bytes: end - at,
            after: lsn_of_place(self.after(end, end)),
        }
    }

    // What stands at a place of a run. These are its bytes from there on, up to the end of a page that was loaded.
    fn step_across<H: Host>(
        &self,
        alloc: Global,
        host: &mut H,
        reader: &mut Reader,
        at: u64,
        bytes: Bytes,
    ) -> Result<Step, Fault>
        requires read { at + length bytes ≤ place self.now }
        requires some { 1 ≤ length bytes }
        requires page { length self.now.page ≡ 8192 }
        requires reader { IsTrue H.tells → IsReader reader.old (log_files (H.state host.old).folder) }
        requires left { IsTrue H.tells → (rest : List Piece) × IsLeft self.now (log_files (H.state host.old).folder) (at + length bytes) rest }
        ensures step { IsTrue H.tells → (entries : List Entry) (rest : List Piece) → IsLeft self.now (log_files (H.state host.old).folder) (at + length bytes) rest
            → entries ≡ entries_at at (bytes ++ run_rest rest) ++ entries_of_runs (page_behind (at + length bytes)) rest → IfOk result (IsStep (place self.now) entries) }
        ensures group { IfOk result TellsGroup }
        ensures reader { IsTrue H.tells → IsReader reader.new (log_files (H.state host.old).folder) }
        ensures same { IsTrue H.tells → Unchanged (H.state host.old) (H.state host.new) }
        ensures cause { HasNextCause H.tells self.now.number (H.state host.old) (H.state host.new) result }
    {
        let mut run = bytes;
        self.gather(host, reader, at, &mut run)?;
        let read = at + run.len() as u64;
        match group_of(alloc, run.as_slice())? {
            Some((group, size)) => Ok(self.group_step(at, group, size, read)),
            None => {
                let end = self.run_end(host, reader, read)?;
                Ok(self.rest_step(at, end))
            }
        }
    }

    // What stands at a place before the log's end.
    fn step_at<H: Host>(
        &self,
        alloc: Global,
        host: &mut H,
        reader: &mut Reader,
        at: u64,
    ) -> Result<Step, Fault>
        requires low { at < place self.now }
        requires page { length self.now.page ≡ 8192 }
        requires reader { IsTrue H.tells → IsReader reader.old (log_files (H.state host.old).folder) }
        requires stands { IsTrue H.tells → (entries : List Entry) × (piece : Piece) × (rest : List Piece) × StandsIn self.now (log_files (H.state host.old).folder) at entries piece rest }
        ensures step { IsTrue H.tells → (entries : List Entry) (piece : Piece) (rest : List Piece) → StandsIn self.now (log_files (H.state host.old).folder) at entries piece rest
            → IfOk result (IsStep (place self.now) entries) }
        ensures group { IfOk result TellsGroup }
        ensures reader { IsTrue H.tells → IsReader reader.new (log_files (H.state host.old).folder) }
        ensures same { IsTrue H.tells → Unchanged (H.state host.old) (H.state host.new) }
        ensures cause { HasNextCause H.tells self.now.number (H.state host.old) (H.state host.new) result }
    {
        let number = at / PLACES;
        let byte = (at % PLACES) as usize;
        self.load(host, reader, number)?;
        let page = self.bytes_of(reader, number);
        if byte >= page.len() {
            return Err(damaged(number));
        }
        let bytes = &page[byte..];
        match group_of(alloc, bytes)? {
            Some((group, size)) => Ok(self.group_step(at, group, size, at + bytes.len() as u64)),
            None => {
                let run = Bytes::from_slice(alloc, bytes)?;
                self.step_across(alloc, host, reader, at, run)
            }
        }
    }

    /// Tells what stands at a place of the log, and where the next thing stands: a whole group, or the void rest of a run,
    /// or nothing at the log's end. The place is that of the log's first group, or one that a step told.
    pub fn next<H: Host>(
        &self,
        alloc: Global,
        host: &mut H,
        reader: &mut Reader,
        from: Lsn,
    ) -> Result<Step, Fault>
        requires reader { IsTrue H.tells → IsReader reader.old (log_files (H.state host.old).folder) }
        requires stands { IsTrue H.tells → (at : ℕ) × (before : List Entry) × (more : List Entry) × StandsAt self.now (log_files (H.state host.old).folder) at before more × (from ≡ lsn_at_place at) }
        ensures step { IsTrue H.tells → (at : ℕ) (before more : List Entry) → StandsAt self.now (log_files (H.state host.old).folder) at before more → from ≡ lsn_at_place at
            → IfOk result (IsStep (place self.now) more) }
        ensures group { IfOk result TellsGroup }
        ensures reader { IsTrue H.tells → IsReader reader.new (log_files (H.state host.old).folder) }
        ensures same { IsTrue H.tells → Unchanged (H.state host.old) (H.state host.new) }
        ensures cause { HasNextCause H.tells self.now.number (H.state host.old) (H.state host.new) result }
    {
        prove!(self.page.bytes().len() == PAGE_BYTES);
        let at = place_of_lsn(from);
        if at >= self.place() {
            return Ok(Step::End);
        }
        self.step_at(alloc, host, reader, at)
    }

    /// The place of the first run that begins in this page or behind it, or the log's end. Bytes before it belong to no
    /// run that can be read.
    pub fn first_run<H: Host>(
        &self,
        host: &mut H,
        reader: &mut Reader,
        from: Lsn,
    ) -> Result<Lsn, Fault>
        requires reader { IsTrue H.tells → IsReader reader.old (log_files (H.state host.old).folder) }
        requires front { IsTrue H.tells → (n : ℕ) × (front : List Piece) × IsReadable self.now (log_files (H.state host.old).folder) (8176 * n) front × (from ≡ lsn_at_place (8176 * n)) }
        ensures run { IsTrue H.tells → (n : ℕ) (front : List Piece) → IsReadable self.now (log_files (H.state host.old).folder) (8176 * n) front → from ≡ lsn_at_place (8176 * n)
            → IfOk result (λ lsn. (at : ℕ) × StandsAt self.now (log_files (H.state host.old).folder) at [] (entries_of_runs n front) × (lsn ≡ lsn_at_place at)) }
        ensures reader { IsTrue H.tells → IsReader reader.new (log_files (H.state host.old).folder) }
        ensures same { IsTrue H.tells → Unchanged (H.state host.old) (H.state host.new) }
        ensures cause { HasPageCause H.tells self.now.number (H.state host.old) (H.state host.new) result }
    {
        prove!(self.page.bytes().len() == PAGE_BYTES);
        let mut number = place_of_lsn(from) / PLACES;
        while number * PLACES < self.place() {
            self.load(host, reader, number)?;
            if self.begins(reader, number) {
                return Ok(lsn_of_place(number * PLACES));
            }
            number += 1;
        }
        Ok(self.end())
    }
}
