ghost use Rattle.std.specs.Prelude.{◌≡◌, ℕ, ◌+◌, ◌-◌, ◌^◌, ◌≤◌, ◌<◌, ◌∷◌, ◌++◌, [], min, length, vec_len, vec_capacity, IsOk, IsSome, IsNone, is_ok, OnOk, OnErr, IfOk, IfErr, IfSome, if◌then◌else◌, true, false, None, Some, Option, List, All, IsErrOf, alloc_error, nat_le};
ghost use Rattle.std.specs.Bool.{OnTrue, OnFalse};
ghost use Rattle.std.specs.Option.{option_map, option_map_or, option_copied};
ghost use Rattle.aria_host.specs.Folder.{IsFileName, page_count, page_at};
ghost use Rattle.aria_host.specs.Calls.{Lists, extent_of, IsPage, Unchanged, HaveNames, Narrows, Changes, Writes, Cuts, Creates, Removes, Syncs, Tells, HasTellCause, HasDiskCause, HasDiskOrMemoryCause, told_on};
ghost use Rattle.aria_host.specs.State.{told};
ghost use Rattle.aria_host.specs.Effect.{with_set};
ghost use Rattle.aria_host.specs.Seen.{page_or_zero};
ghost use Rattle.aria_host.specs.Listing.{IsListed};
ghost use Rattle.aria_host.specs.declared.host.Stream.TheVariants.{Out, Err as ErrStream};
ghost use Rattle.aria_host.specs.MemHost.{mem_state, will_fail, Adds, AddsChange, HasRoom, IsFresh, SameRecord, SamePlan, SameFaults, UsesRoom, IsMemCall, IsCrashed, mem_reads_now, mem_counts_now, mem_only_now};

use crate::memory::crash::{copied, survivors};
use crate::memory::effect::{Effect, PageNumber, push};
use crate::memory::fate::Fate;
use crate::memory::listing::list;
use crate::memory::seen::see;
use crate::memory::zero_page::ZeroPage;
use crate::{Extent, Fault, FileName, Host, Stream};
use aria_page::{List, Page};
use std::alloc::{AllocError, Global};

/// A host in memory, for tests: an empty folder at first, and no faults but those that are planned, as long as there is
/// reserved room. It keeps the record of its changes, from which all that it stands for is read off.
#[derive(Drop)]
pub struct MemHost {
    alloc: Global,
    base: Vec<Effect>,
    changes: Vec<Effect>,
    out: Vec<u8>,
    err: Vec<u8>,
    zero: ZeroPage,
    calls: u64,
    planned: Vec<u64>,
    stop: Option<u64>,
    disk_faults: u64,
    tell_faults: u64,
}

// Adds the bytes to the buffer of that stream.
fn extend(
    out: &mut Vec<u8>,
    err: &mut Vec<u8>,
    stream: Stream,
    bytes: &[u8],
) -> Result<(), AllocError>
    ensures out { OnOk result (out.new.items ≡ out.old.items ++ told_on Out stream bytes.now) }
    ensures err { OnOk result (err.new.items ≡ err.old.items ++ told_on ErrStream stream bytes.now) }
    ensures out_same { OnErr result (out.new.items ≡ out.old.items) }
    ensures err_same { OnErr result (err.new.items ≡ err.old.items) }
    ensures succeeds { vec_len out.old + length bytes.now ≤ vec_capacity out.old → vec_len err.old + length bytes.now ≤ vec_capacity err.old → IsOk result }
    ensures out_room { vec_capacity out.old ≤ vec_capacity out.new }
    ensures err_room { vec_capacity err.old ≤ vec_capacity err.new }
{
    match stream {
        Stream::Out => out.extend_from_slice(bytes),
        Stream::Err => err.extend_from_slice(bytes),
    }
}

impl MemHost {
    pub fn new(alloc: Global) -> MemHost
        ensures { IsFresh result }
    {
        MemHost {
            alloc,
            base: Vec::new(alloc),
            changes: Vec::new(alloc),
            out: Vec::new(alloc),
            err: Vec::new(alloc),
            zero: ZeroPage::new(),
            calls: 0,
            planned: Vec::new(alloc),
            stop: None,
            disk_faults: 0,
            tell_faults: 0,
        }
    }

    /// Makes room for that many further calls, which tell that many bytes together.
    pub fn reserve(&mut self, calls: u64, told: u64) -> Result<(), AllocError>
        ensures room { OnOk result (HasRoom self.new calls told) }
        ensures same { SameRecord self.old self.new }
        ensures plan { SamePlan self.old self.new }
        ensures calls { self.new.calls ≡ self.old.calls }
        ensures faults { (self.new.disk_faults ≡ self.old.disk_faults) × (self.new.tell_faults ≡ self.old.tell_faults) }
    {
        self.changes.reserve(calls as usize)?;
        self.out.reserve(told as usize)?;
        self.err.reserve(told as usize)?;
        Ok(())
    }

    /// Lets the host call of that number fail, counted from 0.
    pub fn plan_fault(&mut self, call: u64) -> Result<(), AllocError>
        ensures planned { self.new.planned.items ≡ (if is_ok result then self.old.planned.items ++ call ∷ [] else self.old.planned.items) }
        ensures stop { self.new.stop ≡ self.old.stop }
        ensures same { SameRecord self.old self.new }
        ensures calls { self.new.calls ≡ self.old.calls }
        ensures faults { (self.new.disk_faults ≡ self.old.disk_faults) × (self.new.tell_faults ≡ self.old.tell_faults) }
    {
        self.planned.push(call)?;
        Ok(())
    }

    /// Lets the host call of that number, counted from 0, and all later ones fail.
    pub fn stop_at(&mut self, call: u64)
        ensures stop { self.new.stop ≡ Some call }
        ensures planned { self.new.planned.items ≡ self.old.planned.items }
        ensures same { SameRecord self.old self.new }
        ensures calls { self.new.calls ≡ self.old.calls }
        ensures faults { (self.new.disk_faults ≡ self.old.disk_faults) × (self.new.tell_faults ≡ self.old.tell_faults) }
    {
        self.stop = Some(call);
    }

    /// How many calls of `Host` were made, up to 2^64 - 1.
    pub fn calls(&self) -> u64
        ensures { result ≡ self.now.calls }
    {
        self.calls
    }

    /// The bytes told on that stream.
    pub fn told(&self, stream: Stream) -> &[u8]
        ensures { result.now ≡ told stream (mem_state self.now) }
    {
        match stream {
            Stream::Out => &self.out,
            Stream::Err => &self.err,
        }
    }

    /// A page of a file, as it reads; `None` where the file isn't there or has no such page.
    pub fn page(&self, file: &FileName, page: u32) -> Option<&Page>
        ensures { option_copied result ≡ page_at file.now page (mem_state self.now).folder }
    {
        let (count, held) = self.seen(file, page);
        match count {
            Some(pages) if page < pages => Some(held),
            _ => None,
        }
    }

    /// Sets a page of a file, by the test's hand. It counts as synced, and the file is made where it isn't there.
    pub fn set_page(&mut self, file: &FileName, page: u32, from: &Page) -> Result<(), AllocError>
        requires name { IsFileName file.now }
        requires page { page < 2 ^ 31 }
        ensures ok { OnOk result (Changes (with_set file.now page from.now) (λ d c. c ≡ with_set file.now page from.now d) (mem_state self.old) (mem_state self.new) true) }
        ensures err { OnErr result (SameRecord self.old self.new) }
        ensures plan { SamePlan self.old self.new }
        ensures calls { self.new.calls ≡ self.old.calls }
        ensures faults { SameFaults self.old self.new }
        ensures room { UsesRoom 1 0 self.old self.new }
    {
        push(
            &mut self.changes,
            Effect::Set(*file, PageNumber::new(page), *from),
            file,
        )
    }

    /// A crash: the folder becomes what the fates pick, one for each unsynced write or cut in the order of the calls.
    /// Missing fates are `Lost`. What was told and the number of calls stay, and nothing is planned any more.
    pub fn crash(&mut self, fates: &List<Fate>) -> Result<(), AllocError>
        ensures ok { OnOk result (IsCrashed fates.now self.old self.new) }
        ensures err { OnErr result (SameRecord self.old self.new) }
        ensures plan { OnErr result (SamePlan self.old self.new) }
        ensures calls { self.new.calls ≡ self.old.calls }
        ensures faults { SameFaults self.old self.new }
    {
        let before = copied(self.alloc, &self.base, &FileName::Control)?;
        self.base = survivors(before, &self.changes, fates.as_slice())?;
        self.changes.clear();
        self.planned.clear();
        self.stop = None;
        Ok(())
    }

    // Whether all calls from the next one on fail.
    fn is_stopped(&self) -> bool
        ensures { result ≡ option_map_or (λ stop. nat_le stop self.now.calls) self.now.stop false }
    {
        match self.stop {
            Some(stop) => stop <= self.calls,
            None => false,
        }
    }

    // Counts a call of the host, and says whether it is planned to fail.
    fn fails(&mut self) -> bool
        ensures planned { result ≡ will_fail self.old }
        ensures calls { self.new.calls ≡ min (self.old.calls + 1) (2 ^ 64 - 1) }
        ensures same { SameRecord self.old self.new }
        ensures plan { SamePlan self.old self.new }
        ensures faults { SameFaults self.old self.new }
        ensures room { UsesRoom 0 0 self.old self.new }
    {
        let fails = self.planned.contains(&self.calls) || self.is_stopped();
        self.calls = self.calls.saturating_add(1);
        fails
    }

    // A call that makes a change, unless it is planned to fail or there is no room, and says whether it did.
    fn changes(&mut self, change: Effect) -> bool
        ensures done { OnTrue result (AddsChange change self.old self.new) }
        ensures nothing { OnFalse result (SameRecord self.old self.new) }
        ensures planned { will_fail self.old ≡ true → result ≡ false }
        ensures succeeds { will_fail self.old ≡ false → HasRoom self.old 1 0 → result ≡ true }
        ensures calls { self.new.calls ≡ min (self.old.calls + 1) (2 ^ 64 - 1) }
        ensures plan { SamePlan self.old self.new }
        ensures faults { SameFaults self.old self.new }
        ensures room { UsesRoom 1 0 self.old self.new }
    {
        if self.fails() {
            return false;
        }
        push(&mut self.changes, change, &FileName::Control).is_ok()
    }

    // Adds told bytes to the record.
    fn add(&mut self, stream: Stream, bytes: &[u8]) -> Result<(), AllocError>
        ensures ok { OnOk result (Adds stream bytes.now self.old self.new) }
        ensures err { OnErr result (SameRecord self.old self.new) }
        ensures succeeds { HasRoom self.old 1 (length bytes.now) → IsOk result }
        ensures calls { self.new.calls ≡ self.old.calls }
        ensures plan { SamePlan self.old self.new }
        ensures faults { SameFaults self.old self.new }
        ensures room { UsesRoom 1 (length bytes.now) self.old self.new }
    {
        self.changes.reserve(1)?;
        extend(&mut self.out, &mut self.err, stream, bytes)?;
        push(
            &mut self.changes,
            Effect::Told(stream, bytes.len()),
            &FileName::Control,
        )
    }

    // A call that tells bytes, unless it is planned to fail or there is no room, and says whether it did.
    fn tells(&mut self, stream: Stream, bytes: &[u8]) -> bool
        ensures done { OnTrue result (Adds stream bytes.now self.old self.new) }
        ensures nothing { OnFalse result (SameRecord self.old self.new) }
        ensures planned { will_fail self.old ≡ true → result ≡ false }
        ensures succeeds { will_fail self.old ≡ false → HasRoom self.old 1 (length bytes.now) → result ≡ true }
        ensures calls { self.new.calls ≡ min (self.old.calls + 1) (2 ^ 64 - 1) }
        ensures plan { SamePlan self.old self.new }
        ensures faults { SameFaults self.old self.new }
        ensures room { UsesRoom 1 (length bytes.now) self.old self.new }
    {
        if self.fails() {
            return false;
        }
        self.add(stream, bytes).is_ok()
    }

    // Counts a fault of the disk.
    fn disk_fault(&mut self) -> Fault
        ensures is { result ≡ Fault.Disk }
        ensures counted { self.new.disk_faults ≡ min (self.old.disk_faults + 1) (2 ^ 64 - 1) }
        ensures later { self.old.disk_faults ≤ self.new.disk_faults }
        ensures tell { self.new.tell_faults ≡ self.old.tell_faults }
        ensures same { SameRecord self.old self.new }
        ensures plan { SamePlan self.old self.new }
        ensures calls { self.new.calls ≡ self.old.calls }
        ensures room { UsesRoom 0 0 self.old self.new }
    {
        self.disk_faults = self.disk_faults.saturating_add(1);
        Fault::Disk
    }
}

// What a look finds of a file with so many pages.
fn extent(count: Option<u32>) -> Option<Extent>
    ensures value { (content : Option (List (List ℕ))) → count ≡ option_map length content → result ≡ extent_of content }
    ensures small { IfSome count (λ n. n ≤ 2 ^ 31) → IfSome result (λ extent. extent.pages ≤ 2 ^ 31) }
{
    match count {
        Some(pages) => Some(Extent { pages, odd: false }),
        None => None,
    }
}

impl MemHost {
    // The number of the file's pages, and that page of it, or zeros.
    fn seen(&self, file: &FileName, at: u32) -> (Option<u32>, &Page)
        ensures count { result.0 ≡ option_map length ((mem_state self.now).folder file.now) }
        ensures page { result.1.now ≡ page_or_zero at ((mem_state self.now).folder file.now) }
        ensures small { IfSome result.0 (λ n. n ≤ 2 ^ 31) }
    {
        let zero = self.zero.get();
        let (count, held) = see(&self.base, file, at, None, zero, zero);
        see(&self.changes, file, at, count, held, zero)
    }

    // The names of the files that are there.
    fn listed(&self, alloc: Global) -> Result<Vec<FileName>, AllocError>
        ensures { IfOk result (λ names. IsListed (mem_state self.now).folder names.items) }
    {
        let names = list(alloc, &self.base, Vec::new(alloc))?;
        list(alloc, &self.changes, names)
    }
}

impl Host for MemHost {
    ghost tells = { true };

    ghost state = { mem_state };

    ghost may_find = { λ host file found. found ≡ extent_of ((mem_state host).folder file) };

    fn names(&mut self, alloc: Global) -> Result<List<FileName>, Fault>
        ensures names { IfOk result (λ names. Lists (mem_state self.old).folder names) }
        ensures forms { IfOk result (λ names. All IsFileName names) }
        ensures synced { OnOk result (HaveNames (mem_state self.new)) }
        ensures same { Narrows (mem_state self.old) (mem_state self.new) }
        // Here the names are on the disk at each moment.
        ensures images { Unchanged (mem_state self.old) (mem_state self.new) }
        ensures cause { HasDiskOrMemoryCause (mem_state self.old) (mem_state self.new) result }
        // It fails where that is planned, and else only for want of memory.
        ensures planned { will_fail self.old ≡ true → IsErrOf result Fault.Disk }
        ensures memory { will_fail self.old ≡ false → IfErr result (λ fault. fault ≡ Fault.Memory alloc_error) }
        ensures calls { self.new.calls ≡ min (self.old.calls + 1) (2 ^ 64 - 1) }
        ensures plan { SamePlan self.old self.new }
    {
        if self.fails() {
            return Err(self.disk_fault());
        }
        let names = self.listed(alloc)?;
        Ok(List::from_vec(names))
    }

    fn look(&mut self, file: &FileName) -> Result<Option<Extent>, Fault>
        requires { IsFileName file.now }
        ensures found { IfOk result (λ found. found ≡ extent_of ((mem_state self.old).folder file.now)) }
        ensures pages { IfOk result (λ found. IfSome found (λ extent. extent.pages ≤ 2 ^ 31)) }
        ensures same { Unchanged (mem_state self.old) (mem_state self.new) }
        ensures cause { HasDiskCause (mem_state self.old) (mem_state self.new) result }
        ensures call { IsMemCall 0 0 self.old self.new (is_ok result) }
    {
        if self.fails() {
            return Err(self.disk_fault());
        }
        let (count, _) = self.seen(file, 0);
        Ok(extent(count))
    }

    fn read_page(&mut self, file: &FileName, page: u32, into: &mut Page) -> Result<(), Fault>
        requires name { IsFileName file.now }
        requires there { page < page_count file.now (mem_state self.old).folder }
        ensures page { OnOk result (IsPage file.now page (mem_state self.old).folder into.new) }
        ensures same { Unchanged (mem_state self.old) (mem_state self.new) }
        ensures cause { HasDiskCause (mem_state self.old) (mem_state self.new) result }
        ensures call { IsMemCall 0 0 self.old self.new (is_ok result) }
    {
        if self.fails() {
            return Err(self.disk_fault());
        }
        let (_, held) = self.seen(file, page);
        *into = *held;
        Ok(())
    }

    fn write_page(&mut self, file: &FileName, page: u32, from: &Page) -> Result<(), Fault>
        requires name { IsFileName file.now }
        requires there { IsSome ((mem_state self.old).folder file.now) }
        requires page { page < 2 ^ 31 }
        ensures written { Writes file.now page from.now (mem_state self.old) (mem_state self.new) (is_ok result) }
        ensures cause { HasDiskCause (mem_state self.old) (mem_state self.new) result }
        ensures call { IsMemCall 1 0 self.old self.new (is_ok result) }
    {
        if !self.changes(Effect::Wrote(*file, PageNumber::new(page), *from)) {
            return Err(self.disk_fault());
        }
        Ok(())
    }

    fn cut(&mut self, file: &FileName, pages: u32) -> Result<(), Fault>
        requires name { IsFileName file.now }
        requires there { IsSome ((mem_state self.old).folder file.now) }
        requires pages { pages ≤ page_count file.now (mem_state self.old).folder }
        ensures cut { Cuts file.now pages (mem_state self.old) (mem_state self.new) (is_ok result) }
        ensures cause { HasDiskCause (mem_state self.old) (mem_state self.new) result }
        ensures call { IsMemCall 1 0 self.old self.new (is_ok result) }
    {
        if !self.changes(Effect::Cut(*file, pages)) {
            return Err(self.disk_fault());
        }
        Ok(())
    }

    fn create(&mut self, file: &FileName) -> Result<(), Fault>
        requires name { IsFileName file.now }
        requires absent { IsNone ((mem_state self.old).folder file.now) }
        ensures created { Creates file.now (mem_state self.old) (mem_state self.new) (is_ok result) }
        ensures cause { HasDiskCause (mem_state self.old) (mem_state self.new) result }
        ensures call { IsMemCall 1 0 self.old self.new (is_ok result) }
    {
        if !self.changes(Effect::Created(*file)) {
            return Err(self.disk_fault());
        }
        Ok(())
    }

    fn remove(&mut self, file: &FileName) -> Result<(), Fault>
        requires name { IsFileName file.now }
        requires there { IsSome ((mem_state self.old).folder file.now) }
        ensures removed { Removes file.now (mem_state self.old) (mem_state self.new) (is_ok result) }
        ensures cause { HasDiskCause (mem_state self.old) (mem_state self.new) result }
        ensures call { IsMemCall 1 0 self.old self.new (is_ok result) }
    {
        if !self.changes(Effect::Removed(*file)) {
            return Err(self.disk_fault());
        }
        Ok(())
    }

    fn sync(&mut self, file: &FileName) -> Result<(), Fault>
        requires name { IsFileName file.now }
        requires there { IsSome ((mem_state self.old).folder file.now) }
        ensures synced { Syncs file.now (mem_state self.old) (mem_state self.new) (is_ok result) }
        ensures cause { HasDiskCause (mem_state self.old) (mem_state self.new) result }
        ensures call { IsMemCall 1 0 self.old self.new (is_ok result) }
    {
        if !self.changes(Effect::Synced(*file)) {
            return Err(self.disk_fault());
        }
        Ok(())
    }

    fn tell(&mut self, stream: Stream, bytes: &[u8]) -> Result<(), Fault>
        ensures told { Tells stream bytes.now (mem_state self.old) (mem_state self.new) (is_ok result) }
        ensures cause { HasTellCause (mem_state self.old) (mem_state self.new) result }
        ensures call { IsMemCall 1 (length bytes.now) self.old self.new (is_ok result) }
    {
        if !self.tells(stream, bytes) {
            self.tell_faults = self.tell_faults.saturating_add(1);
            return Err(Fault::Tell);
        }
        Ok(())
    }

    ghost reads_now = { mem_reads_now };

    ghost counts_now = { mem_counts_now };

    ghost only_now = { mem_only_now };
}
