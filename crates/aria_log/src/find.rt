//! Finds the log in a folder: where it ends, and whether it is damaged.

ghost use Rattle.std.specs.Prelude.{◌≡◌, ◌⊎◌, ◌↔◌, ◌||◌, ◌≤◌, ◌<◌, ◌+◌, ◌-◌, ◌*◌, ◌/◌, ◌%◌, ◌^◌, if◌then◌else◌, nat_lt, is_some, [], None, Some, false, List, ℕ, length, IsTrue, OnOk, IfOk, MatchOption};
ghost use Rattle.std.specs.Option.{option_map_or};
ghost use Rattle.aria_page.specs.Lsn.{IsLsn};
ghost use Rattle.aria_page.specs.declared.lsn.Lsn.{Lsn};
ghost use Rattle.aria_host.specs.Calls.{HasDiskCause, HaveNames, Narrows, Unchanged};
ghost use Rattle.aria_log.specs.Pieces.{Piece, log_files, pieces_of, IsFront};
ghost use Rattle.aria_log.specs.Files.{IsBase};
ghost use Rattle.aria_log.specs.Log.{Fills};
ghost use Rattle.aria_log.specs.Reading.{IsReader, loaded};
ghost use Rattle.aria_log.specs.Finding.{BeginsBehind, EndsFront, Answers, Fails, Finds, HasFindCause, IsDamageBehind, IsLast, IsNoted, IsNowhere, IsUndamaged, NoneMissing, TellsMissing, TellsNowhere, base_of};

use crate::log::Log;
use crate::log_page::{BODY_BYTES, FILE_PAGES, PAGES_END, file_of, page_of};
use crate::missing::last_of;
use crate::place::{place_of, start_of};
use crate::reader::Reader;
use aria_host::{Fault, Host};
use aria_page::{Lsn, PAGE_BYTES, Page};
use std::alloc::Global;

/// The page of a file at which the log is damaged.
#[derive(Clone, Copy, Debug, PartialEq, Eq)]
pub struct Damage {
    pub file: u32,
    pub page: u32,
}

/// A log that was found in its files, and damage of it, if there is some.
#[derive(Drop)]
pub struct Found {
    pub log: Log,
    pub damage: Option<Damage>,
}

// Whether the base is the first byte of a page or a used one.
fn has_base<H: Host>(host: &mut H, reader: &mut Reader, base: u64) -> Result<bool, Fault>
    requires low { base < 8176 * 2 ^ 34 }
    requires reader { IsTrue H.tells → IsReader reader.old (log_files (H.state host.old).folder) }
    ensures based { IsTrue H.tells → IfOk result (λ based. IsTrue based ↔ IsBase (pieces_of (log_files (H.state host.old).folder)) base) }
    ensures reader { IsTrue H.tells → IsReader reader.new (log_files (H.state host.old).folder) }
    ensures same { IsTrue H.tells → Unchanged (H.state host.old) (H.state host.new) }
    ensures cause { HasDiskCause (H.state host.old) (H.state host.new) result }
{
    let byte = base % BODY_BYTES as u64;
    if byte == 0 {
        return Ok(true);
    }
    reader.load(host, base / BODY_BYTES as u64)?;
    Ok(byte < reader.body().len() as u64)
}

// Whether a valid page is one of the log: it begins a run, or may go on with the page before it.
fn goes_on(begins: bool, may: bool) -> bool
    ensures { result ≡ (begins || may) }
{
    begins || may
}

// Reads the pages of the log's files in their order, and notes a file that has too many pages.
#[derive(Drop)]
struct Scan {
    reader: Reader,
    /// A file of the pages that were read, if one has more than a file of the log may have.
    long: Option<u32>,
}

impl Scan {
    // Notes this file if it has too many pages. The reader knows how many it has.
    fn note(&mut self, file: u32)
        ensures long { self.new.long ≡ (if nat_lt 1024 self.old.reader.pages then Some file else self.old.long) }
        ensures reader { self.new.reader ≡ self.old.reader }
    {
        if u64::from(self.reader.pages) > FILE_PAGES {
            self.long = Some(file);
        }
    }

    // Reads the page of this number, and says whether it is valid.
    fn load<H: Host>(&mut self, host: &mut H, number: u64) -> Result<bool, Fault>
        requires low { number < 2 ^ 34 }
        requires reader { IsTrue H.tells → IsReader self.old.reader (log_files (H.state host.old).folder) }
        ensures loaded { IsTrue H.tells → OnOk result (loaded self.new.reader ≡ pieces_of (log_files (H.state host.old).folder) number) }
        ensures valid { IfOk result (λ valid. valid ≡ is_some (loaded self.new.reader)) }
        ensures noted { IsTrue H.tells → (first : ℕ) → first ≤ number → IsNoted (log_files (H.state host.old).folder) first number self.old.long → OnOk result (IsNoted (log_files (H.state host.old).folder) first (number + 1) self.new.long) }
        ensures reader { IsTrue H.tells → IsReader self.new.reader (log_files (H.state host.old).folder) }
        ensures same { IsTrue H.tells → Unchanged (H.state host.old) (H.state host.new) }
        ensures cause { HasDiskCause (H.state host.old) (H.state host.new) result }
    {
        let file = file_of(number);
        self.reader.find_length(host, file)?;
        self.note(file);
        self.reader.load(host, number)
    }

    // Whether the page that was read last is valid and begins a run.
    fn begins_run(&self) -> bool
        ensures { result ≡ option_map_or (λ piece. piece.0) (loaded self.now.reader) false }
    {
        self.reader.used > 0 && self.reader.begins
    }
}

// Reads the pages of the log from this one on, and gives the number of the page behind them.
fn read_front<H: Host>(host: &mut H, scan: &mut Scan, first: u64) -> Result<u64, Fault>
    requires low { first < 2 ^ 34 }
    requires reader { IsTrue H.tells → IsReader scan.old.reader (log_files (H.state host.old).folder) }
    requires long { scan.old.long ≡ None }
    ensures end { IsTrue H.tells → IfOk result (λ end. EndsFront (log_files (H.state host.old).folder) first end) }
    ensures noted { IsTrue H.tells → IfOk result (λ end. IsNoted (log_files (H.state host.old).folder) first (end + 1) scan.new.long) }
    ensures from { IfOk result (λ end. (first ≤ end) × (end < 2 ^ 34)) }
    ensures reader { IsTrue H.tells → IsReader scan.new.reader (log_files (H.state host.old).folder) }
    ensures same { IsTrue H.tells → Unchanged (H.state host.old) (H.state host.new) }
    ensures cause { HasDiskCause (H.state host.old) (H.state host.new) result }
{
    let mut may = true;
    for number in first..PAGES_END + 1 {
        if !scan.load(host, number)? {
            return Ok(number);
        }
        if !goes_on(scan.reader.begins, may) {
            return Ok(number);
        }
        may = scan.reader.body().len() == BODY_BYTES;
    }
    Ok(PAGES_END)
}

// The number of the page behind this file.
fn end_of(file: u32) -> u64
    requires { file < 2 ^ 24 }
    ensures { result ≡ 1024 * (file + 1) }
{
    u64::from(file + 1) * FILE_PAGES
}

// Whether a page from this one on, up to the end of the last file, begins a run.
fn begins_behind<H: Host>(
    host: &mut H,
    scan: &mut Scan,
    from: u64,
    last: u32,
) -> Result<bool, Fault>
    requires last { last < 2 ^ 24 }
    requires none { IsTrue H.tells → (f : ℕ) → last < f → f < 2 ^ 24 → log_files (H.state host.old).folder f ≡ None }
    requires reader { IsTrue H.tells → IsReader scan.old.reader (log_files (H.state host.old).folder) }
    ensures begins { IsTrue H.tells → IfOk result (λ begins. IsTrue begins ↔ BeginsBehind (log_files (H.state host.old).folder) from) }
    ensures noted { IsTrue H.tells → (first : ℕ) → first ≤ from → IsNoted (log_files (H.state host.old).folder) first from scan.old.long
        → IfOk result (λ begins. begins ≡ false → IsNoted (log_files (H.state host.old).folder) first (1024 * (last + 1)) scan.new.long) }
    ensures same { IsTrue H.tells → Unchanged (H.state host.old) (H.state host.new) }
    ensures cause { HasDiskCause (H.state host.old) (H.state host.new) result }
{
    for number in from..end_of(last) {
        scan.load(host, number)?;
        if scan.begins_run() {
            return Ok(true);
        }
    }
    Ok(false)
}

// The damage at the page of this number.
fn damage_at(number: u64) -> Damage
    requires { number < 2 ^ 34 }
    ensures file { result.file ≡ number / 1024 }
    ensures page { result.page ≡ number % 1024 }
{
    Damage {
        file: file_of(number),
        page: page_of(number),
    }
}

// The damage of a file that has too many pages.
fn too_long(long: Option<u32>) -> Option<Damage>
    ensures { MatchOption result (long ≡ None) (λ d. (long ≡ Some d.file) × (d.page ≡ 1024)) }
{
    match long {
        None => None,
        Some(file) => Some(Damage {
            file,
            page: FILE_PAGES as u32,
        }),
    }
}

// Damage of a log that ends before this page, which was read: a run behind it, or a file that has too many pages.
fn damage_behind<H: Host>(
    host: &mut H,
    scan: &mut Scan,
    end: u64,
    last: u32,
) -> Result<Option<Damage>, Fault>
    requires end { end < 2 ^ 34 }
    requires last { last < 2 ^ 24 }
    requires none { IsTrue H.tells → (f : ℕ) → last < f → f < 2 ^ 24 → log_files (H.state host.old).folder f ≡ None }
    requires reader { IsTrue H.tells → IsReader scan.old.reader (log_files (H.state host.old).folder) }
    requires apart { IsTrue H.tells → (piece : Piece) → pieces_of (log_files (H.state host.old).folder) end ≡ Some piece → piece.0 ≡ false }
    ensures damage { IsTrue H.tells → (first : ℕ) → first ≤ end → first / 1024 ≤ last → IsNoted (log_files (H.state host.old).folder) first (end + 1) scan.old.long
        → IfOk result (λ damage. MatchOption damage (IsUndamaged (log_files (H.state host.old).folder) (first / 1024) end) (λ d. IsDamageBehind (log_files (H.state host.old).folder) (first / 1024) end d.file d.page)) }
    ensures same { IsTrue H.tells → Unchanged (H.state host.old) (H.state host.new) }
    ensures cause { HasDiskCause (H.state host.old) (H.state host.new) result }
{
    if begins_behind(host, scan, end + 1, last)? {
        return Ok(Some(damage_at(end)));
    }
    Ok(too_long(scan.long))
}

// The log that ends before this page, with this last file.
fn log_at(end: u64, last: u32) -> Log
    requires end { end < 2 ^ 34 }
    requires last { last < 2 ^ 24 }
    ensures number { result.number ≡ end }
    ensures first { result.first ≡ end }
    ensures fills { Fills result end [] }
    ensures last { result.last ≡ last }
{
    Log {
        page: Page::zero(),
        number: end,
        first: end,
        used: 0,
        there: false,
        made: end,
        written: 0,
        last,
    }
}

// Finds the log from this base on, in files of which this is the last.
fn find_from<H: Host>(host: &mut H, base: u64, last: u32) -> Result<Found, Fault>
    requires low { base < 8176 * 2 ^ 34 }
    requires within { last < 2 ^ 24 }
    requires last { IsTrue H.tells → IsLast (log_files (H.state host.old).folder) (base / 8176 / 1024) last }
    ensures found { IsTrue H.tells → (from : Lsn) → NoneMissing from (log_files (H.state host.old).folder) → base_of from ≡ Some base → IfOk result (λ found. Finds from (log_files (H.state host.old).folder) found) }
    ensures same { IsTrue H.tells → Unchanged (H.state host.old) (H.state host.new) }
    ensures cause { HasDiskCause (H.state host.old) (H.state host.new) result }
{
    let first = base / BODY_BYTES as u64;
    let mut scan = Scan {
        reader: Reader::new(),
        long: None,
    };
    if !has_base(host, &mut scan.reader, base)? {
        return Ok(Found {
            log: log_at(first, last),
            damage: Some(damage_at(first)),
        });
    }
    let end = read_front(host, &mut scan, first)?;
    let damage = damage_behind(host, &mut scan, end, last)?;
    Ok(Found {
        log: log_at(end, last),
        damage,
    })
}

// Finds the log from this log sequence number on.
fn find_in<H: Host>(alloc: Global, host: &mut H, from: Lsn) -> Result<Found, Fault>
    requires { IsLsn from }
    ensures found { IsTrue H.tells → Fails result ⊎ Answers from (log_files (H.state host.old).folder) (Finds from (log_files (H.state host.old).folder)) (IsNowhere from) result }
    ensures synced { IsTrue H.tells → OnOk result (HaveNames (H.state host.new)) }
    ensures same { IsTrue H.tells → Narrows (H.state host.old) (H.state host.new) }
    ensures cause { HasFindCause (H.state host.old) (H.state host.new) result }
{
    let names = host.names(alloc)?;
    let last = last_of(names.as_slice(), from)?;
    let start = start_of(from);
    let Some(base) = place_of(start) else {
        return Err(Fault::LogDamaged {
            file: start.file,
            page: start.offset / PAGE_BYTES as u32,
        });
    };
    find_from(host, base, last)
}

impl Log {
    /// Finds the log from this log sequence number on; file 0 with offset 0 stands for the log's first byte. Nothing is
    /// changed; behind a list of the folder's names a crash may leave less.
    ///
    /// `FileMissing` where a file of the log is missing, with the lowest one. `LogDamaged` where no byte of the log can have
    /// that number. All other damage is told beside the log, so that what stands before it can be read; only a log without
    /// damage is to be started.
    pub fn find<H: Host>(alloc: Global, host: &mut H, from: Lsn) -> Result<Found, Fault>
        requires { IsLsn from }
        // Unless the disk or memory fails it answers what the folder's files say, and nothing else.
        ensures found { IsTrue H.tells → Fails result ⊎ Answers from (log_files (H.state host.old).folder) (Finds from (log_files (H.state host.old).folder)) (IsNowhere from) result }
        ensures missing { IsTrue H.tells → Fails result ⊎ TellsMissing from (log_files (H.state host.old).folder) result }
        ensures nowhere { IsTrue H.tells → Fails result ⊎ TellsNowhere from (log_files (H.state host.old).folder) result }
        ensures synced { IsTrue H.tells → OnOk result (HaveNames (H.state host.new)) }
        ensures same { IsTrue H.tells → Narrows (H.state host.old) (H.state host.new) }
        ensures cause { HasFindCause (H.state host.old) (H.state host.new) result }
    {
        find_in(alloc, host, from)
    }
}
