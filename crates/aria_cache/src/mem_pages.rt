ghost use Rattle.std.specs.Prelude.{◌≡◌, ◌≤◌, ◌<◌, ◌^◌, ◌+◌, ◌==◌, ◌++◌, ⊤, ℕ, true, false, All, IsSome, OnOk, OnErr, if◌then◌else◌, length, codes, decimal, Some, None, min, Option};
ghost use Rattle.std.specs.Cmp.Lexicographic.{slice_cmp, pointwise};
ghost use Rattle.std.specs.Ordering.{nat_cmp};
ghost use Rattle.aria_page.specs.Change.{edit_of, edits_of};
ghost use Rattle.aria_page.specs.Edit.{IsWithin};
ghost use Rattle.aria_page.specs.Page.{page_body};
ghost use Rattle.aria_page.specs.declared.place.Part.TheVariants.{Keys as KeysPart, Rows as RowsPart};
ghost use Rattle.aria_host.specs.declared.file_name.FileName.{FileName as File};
ghost use Rattle.aria_cache.specs.MemFile.{file_body, file_count, blank_body, zero_body};
ghost use Rattle.aria_cache.specs.PageState.{table_file, with_edits, with_count};
ghost use Rattle.aria_cache.specs.Calls.{SamePages};
ghost use Rattle.aria_cache.specs.MemPages.{mem_name, mem_state, file_in, EditsIn, SetsIn, SameIn, SameRest, MemStands, counts_set, bodies_set};

use crate::mem_file::MemFile;
use crate::page_id::PageId;
use crate::pages::{OpenGroup, Pages};
use aria_host::{Fault, FileName};
use aria_page::{Change, Last, Lsn, Name, Page, Part, RedoKind};
use arrayvec::ArrayVec;
use itoa::Buffer;
use std::alloc::{AllocError, Global};
use std::collections::BTreeMap;

/// Pages in memory, without a log, for tests: each slot is open, and the table of slot 7 is `m7`. A page that was never
/// edited is zeros; but of a data file, of those pages that `set_count` set, those whose numbers are multiples of 21,809
/// are bitmap pages without a pattern. Only edited pages are kept.
#[derive(Drop)]
pub struct MemPages {
    pub(crate) keys: BTreeMap<Name, MemFile>,
    pub(crate) rows: BTreeMap<Name, MemFile>,
    pub(crate) in_group: bool,
    pub(crate) edited: bool,
    pub(crate) fault: Option<Fault>,
    pub(crate) loaded: Page,
    pub(crate) lent: u64,
}

/// The room that a name takes.
const NAME_ROOM: usize = 64;

// The name of the table of a slot.
#[tactic(auto, using(crate::proofs::MemNames::named, crate::proofs::MemNames::short))]
fn name_of(slot: u32) -> Name
    ensures { result ≡ mem_name slot }
{
    let mut buffer = Buffer::new();
    let digits = buffer.format(slot);
    let mut text = ArrayVec::<u8, NAME_ROOM>::new();
    let Ok(()) = text.try_extend_from_slice(b"m") else {
        unreachable!();
    };
    let Ok(()) = text.try_extend_from_slice(digits.as_bytes()) else {
        unreachable!();
    };
    let Some(name) = Name::read(text.as_slice()) else {
        unreachable!();
    };
    name
}

// The file of a part of a table.
fn file_of(name: Name, part: Part) -> FileName
    ensures { result ≡ table_file name part }
{
    match part {
        Part::Keys => FileName::Keys(name),
        Part::Rows => FileName::Rows(name),
    }
}

fn kept(fault: &Fault) -> Option<Fault>
    ensures { result ≡ Some fault.now }
{
    Some(*fault)
}

// How many pages the file of that name has.
fn count_in(files: &BTreeMap<Name, MemFile>, name: &Name) -> u32
    ensures { result ≡ file_count (file_in files.now name.now) }
{
    match files.get(name) {
        Some(file) => file.count,
        None => 0,
    }
}

// A page of the file of that name.
fn page_in(files: &BTreeMap<Name, MemFile>, part: Part, name: &Name, number: u32) -> Page
    ensures { page_body result ≡ file_body part (file_in files.now name.now) number }
{
    match files.get(name) {
        Some(file) => file.page(part, number),
        None => Page::zero(),
    }
}

// Lets the file of that name be there.
fn make_in(
    files: &mut BTreeMap<Name, MemFile>,
    alloc: Global,
    part: Part,
    name: Name,
) -> Result<(), AllocError>
    ensures same { SameIn part files.old files.new }
    ensures there { OnOk result (IsSome (file_in files.new name)) }
{
    if files.contains_key(&name) {
        return Ok(());
    }
    files.insert(name, MemFile::new(alloc, 0))?;
    Ok(())
}

// Edits a page of the file of that name, if it is there.
fn change_in(
    files: &mut BTreeMap<Name, MemFile>,
    alloc: Global,
    part: Part,
    name: &Name,
    number: u32,
    edits: &[Change<'_>],
) -> Result<(), AllocError>
    requires there { IsSome (file_in files.old name.now) }
    requires low { number < 2 ^ 31 }
    requires within { All (λ e. IsWithin (edit_of e)) edits.now }
    ensures ok { OnOk result (EditsIn part name.now number (edits_of edits.now) files.old files.new) }
    ensures err { OnErr result (SameIn part files.old files.new) }
{
    match files.get_mut(name) {
        Some(file) => file.edit(alloc, part, number, edits),
        None => Ok(()),
    }
}

// Edits a page of the file of that name.
fn edit_in(
    files: &mut BTreeMap<Name, MemFile>,
    alloc: Global,
    part: Part,
    name: &Name,
    number: u32,
    edits: &[Change<'_>],
) -> Result<(), AllocError>
    requires low { number < 2 ^ 31 }
    requires within { All (λ e. IsWithin (edit_of e)) edits.now }
    ensures ok { OnOk result (EditsIn part name.now number (edits_of edits.now) files.old files.new) }
    ensures err { OnErr result (SameIn part files.old files.new) }
{
    make_in(files, alloc, part, *name)?;
    change_in(files, alloc, part, name, number, edits)
}

// Sets the number of pages of the file of that name.
fn set_in(
    files: &mut BTreeMap<Name, MemFile>,
    alloc: Global,
    part: Part,
    name: Name,
    pages: u32,
) -> Result<(), AllocError>
    ensures ok { OnOk result (SetsIn part name pages files.old files.new) }
    ensures err { OnErr result (SameIn part files.old files.new) }
{
    files.insert(name, MemFile::new(alloc, pages))?;
    Ok(())
}

impl MemPages {
    /// No file has a page.
    pub fn new(alloc: Global) -> MemPages
        ensures stands { MemStands result }
        ensures counts { (f : File) → (mem_state result).counts f ≡ 0 }
        ensures none { result.in_group ≡ false }
        ensures kept { result.fault ≡ None }
        ensures lent { result.lent ≡ 0 }
    {
        MemPages {
            keys: BTreeMap::new(alloc),
            rows: BTreeMap::new(alloc),
            in_group: false,
            edited: false,
            fault: None,
            loaded: Page::zero(),
            lent: 0,
        }
    }

    /// Sets the number of pages of a file. Edits of it that were made before are lost.
    pub fn set_count(
        &mut self,
        alloc: Global,
        slot: u32,
        part: Part,
        pages: u32,
    ) -> Result<(), AllocError>
        requires few { pages ≤ 2 ^ 31 }
        requires stands { MemStands self.old }
        ensures stands { MemStands self.new }
        ensures counts { OnOk result ((mem_state self.new).counts ≡ counts_set (table_file (mem_name slot) part) pages (mem_state self.old).counts) }
        ensures bodies { OnOk result ((mem_state self.new).bodies ≡ bodies_set (table_file (mem_name slot) part) part pages (mem_state self.old).bodies) }
        ensures err { OnErr result (SamePages (mem_state self.old) (mem_state self.new)) }
        ensures rest { SameRest self.old self.new }
    {
        let name = name_of(slot);
        match part {
            Part::Keys => set_in(&mut self.keys, alloc, Part::Keys, name, pages),
            Part::Rows => set_in(&mut self.rows, alloc, Part::Rows, name, pages),
        }
    }

    // Edits a page.
    fn change(&mut self, alloc: Global, at: PageId, edits: &[Change<'_>]) -> Result<(), AllocError>
        requires low { at.page < 2 ^ 31 }
        requires within { All (λ e. IsWithin (edit_of e)) edits.now }
        ensures bodies { OnOk result ((mem_state self.new).bodies ≡ with_edits (table_file (mem_name at.slot) at.part) at.page (edits_of edits.now) (mem_state self.old).bodies) }
        ensures counts { OnOk result ((mem_state self.new).counts ≡ with_count (table_file (mem_name at.slot) at.part) (at.page + 1) (mem_state self.old).counts) }
        ensures err { OnErr result (SamePages (mem_state self.old) (mem_state self.new)) }
        ensures rest { SameRest self.old self.new }
    {
        let name = name_of(at.slot);
        match at.part {
            Part::Keys => edit_in(&mut self.keys, alloc, Part::Keys, &name, at.page, edits),
            Part::Rows => edit_in(&mut self.rows, alloc, Part::Rows, &name, at.page, edits),
        }
    }
}

impl Pages for MemPages {
    ghost tells = { true };

    ghost logged = { false };

    ghost state = { mem_state };

    ghost stands = { MemStands };

    ghost stays = { λ _ _. ⊤ };

    ghost ends = { λ _ _ _. ⊤ };

    ghost stays_same = { λ _. tt };

    ghost stays_on = { λ _ _ _ _ _. tt };

    ghost ends_none = { λ _ _ _. tt };

    ghost ends_behind = { λ _ _ _ _ _ _. tt };

    ghost ends_before = { λ _ _ _ _ _ _. tt };

    ghost ends_on = { λ _ _ _ _ _ _ _. tt };

    ghost long = { λ p f n body _ stands is. stands.long f n body is };

    ghost past = { λ p f n _ stands behind. stands.past f n behind };

    fn count(&self, slot: u32, part: Part) -> u32 {
        let name = name_of(slot);
        match part {
            Part::Keys => count_in(&self.keys, &name),
            Part::Rows => count_in(&self.rows, &name),
        }
    }

    fn file(&self, slot: u32, part: Part) -> FileName {
        file_of(name_of(slot), part)
    }

    fn load(&mut self, _alloc: Global, at: PageId) -> Result<(), Fault> {
        if let Some(fault) = self.fault {
            return Err(fault);
        }
        let name = name_of(at.slot);
        self.loaded = match at.part {
            Part::Keys => page_in(&self.keys, Part::Keys, &name, at.page),
            Part::Rows => page_in(&self.rows, Part::Rows, &name, at.page),
        };
        self.lent = self.lent.saturating_add(1);
        Ok(())
    }

    fn loaded(&self) -> &Page {
        &self.loaded
    }

    fn group(&mut self) -> OpenGroup {
        self.in_group = true;
        self.edited = false;
        OpenGroup::begin()
    }

    fn edit(
        &mut self,
        alloc: Global,
        _group: &mut OpenGroup,
        at: PageId,
        _why: RedoKind,
        edits: &[Change<'_>],
    ) -> Result<(), Fault> {
        if let Some(fault) = self.fault {
            return Err(fault);
        }
        match self.change(alloc, at, edits) {
            Ok(()) => {
                self.edited = true;
                Ok(())
            }
            Err(_) => {
                self.fault = Some(Fault::Memory(AllocError));
                Err(Fault::Memory(AllocError))
            }
        }
    }

    fn end(
        &mut self,
        _alloc: Global,
        group: OpenGroup,
        _slot: u32,
        _last: &Last,
    ) -> Result<Lsn, Fault> {
        group.spend();
        self.in_group = false;
        if let Some(fault) = self.fault {
            return Err(fault);
        }
        Ok(Lsn { file: 0, offset: 0 })
    }

    fn leave(&mut self, group: OpenGroup) {
        group.spend();
        self.in_group = false;
    }

    fn stop(&mut self, why: Fault) -> Fault {
        if let Some(fault) = self.fault {
            return fault;
        }
        self.fault = kept(&why);
        why
    }

    fn last_undo(&self) -> Lsn {
        Lsn { file: 0, offset: 0 }
    }

    fn undo_next(&self) -> Lsn {
        Lsn { file: 0, offset: 0 }
    }
}
