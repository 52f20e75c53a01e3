//! Reads the pages of the log's files.

ghost use Rattle.std.specs.Prelude.{◌≡◌, ◌≤◌, ◌<◌, ◌-◌, ◌^◌, ◌/◌, ◌%◌, ◌==◌, ◌↔◌, if◌then◌else◌, None, Some, List, length, take, drop, replicate, is_some, IsTrue, OnOk, IfOk, IfSome};
ghost use Rattle.std.specs.Option.{option_map_or};
ghost use Rattle.aria_page.specs.Field.{Gives};
ghost use Rattle.aria_host.specs.Calls.{HasDiskCause, Unchanged};
ghost use Rattle.aria_log.specs.LogPage.{log_head, IsLogPage, read_log_page};
ghost use Rattle.aria_log.specs.Pieces.{LogFiles, log_files, pieces_of};

use crate::log_page::{
    BEGINS_AT, BODY_AT, BODY_BYTES, MARK, NO_FILE, PAGES_END, USED_AT, file_of, page_of,
};
use aria_host::{Fault, FileName, Host};
use aria_page::{Page, SUM_BYTES, flag, same_bytes, u16_bytes, u16_of, u24_bytes, u32_bytes};

/// The place of the head in a page of the log: behind the checksum.
const HEAD_AT: usize = SUM_BYTES;

/// The size of the head, in bytes.
const HEAD_BYTES: usize = BODY_AT - HEAD_AT;

// The head of the page of this number.
#[tactic(auto, unfolding(crate::specs::LogPage::log_head, aria_page::specs::Number::number))]
fn head_of(number: u64, begins: bool, used: u16) -> [u8; HEAD_BYTES]
    requires { number < 2 ^ 34 }
    ensures { result ≡ log_head number begins used }
{
    let [f0, f1, f2] = u24_bytes(file_of(number));
    let [p0, p1, p2, p3] = u32_bytes(page_of(number));
    let [u0, u1] = u16_bytes(used);
    [f0, f1, f2, p0, p1, p2, p3, MARK, flag(begins), 0, u0, u1]
}

// Whether all of the bytes are zeros. A loop that doesn't stop early is compiled to one that takes many bytes at once.
fn is_blank(bytes: &[u8]) -> bool
    ensures { IsTrue result ↔ (bytes.now ≡ replicate (length bytes.now) 0) }
{
    let mut bits: u8 = 0;
    for byte in bytes {
        bits |= *byte;
    }
    bits == 0
}

// Whether the page is the one of this number whose body has so many used bytes. The checksum comes last: it takes longest.
fn is_page_of(page: &Page, number: u64, begins: bool, used: u16) -> bool
    requires low { number < 2 ^ 34 - 1 }
    requires some { 1 ≤ used }
    requires fits { used ≤ 8176 }
    ensures { IsTrue result ↔ IsLogPage number begins (take used (drop 16 page.now)) page.now }
{
    let bytes = page.bytes();
    let head = head_of(number, begins, used);
    same_bytes(&bytes[HEAD_AT..BODY_AT], &head)
        && is_blank(&bytes[BODY_AT + used as usize..])
        && page.sums()
}

// Whether a valid page of this number begins a run, and how many bytes of its body are used; `None` where it isn't valid.
fn read_page_of(number: u64, page: &Page) -> Option<(bool, u16)>
    ensures read { Gives (λ x. (x.0, take x.1 (drop 16 page.now))) result (read_log_page number page.now) }
    ensures some { IfSome result (λ x. 1 ≤ x.1) }
    ensures fits { IfSome result (λ x. x.1 ≤ 8176) }
{
    if number >= PAGES_END {
        return None;
    }
    let bytes = page.bytes();
    let used = u16_of(&bytes[USED_AT..]);
    if used < 1 || used as usize > BODY_BYTES {
        return None;
    }
    let begins = bytes[BEGINS_AT] == 1;
    if is_page_of(page, number, begins, used) {
        Some((begins, used))
    } else {
        None
    }
}

/// Reads the pages of the log, and holds the one that was read last.
#[derive(Drop)]
pub struct Reader {
    pub(crate) page: Page,
    /// The number of the page that it holds.
    pub(crate) number: u64,
    /// That page begins a run.
    pub(crate) begins: bool,
    /// How many bytes of that page's body are used; none where it isn't valid.
    pub(crate) used: u16,
    /// The file whose length is known.
    pub(crate) file: u32,
    /// How many pages that file has; none where it isn't there.
    pub(crate) pages: u32,
    ghost within: { used ≤ 8176 },
}

impl Reader {
    ghost use Rattle.aria_log.specs.Reading.{IsReader, loaded};

    /// A reader that holds no page yet.
    pub fn new() -> Reader
        ensures reader { (files : LogFiles) → IsReader result files }
    {
        Reader {
            page: Page::zero(),
            number: 0,
            begins: false,
            used: 0,
            file: NO_FILE,
            pages: 0,
        }
    }

    /// Learns how many pages a file has.
    pub(crate) fn find_length<H: Host>(&mut self, host: &mut H, file: u32) -> Result<(), Fault>
        requires file { file < 2 ^ 24 }
        requires reader { IsTrue H.tells → IsReader self.old (log_files (H.state host.old).folder) }
        ensures pages { IsTrue H.tells → OnOk result (self.new.pages ≡ option_map_or length (log_files (H.state host.old).folder file) 0) }
        ensures reader { IsTrue H.tells → IsReader self.new (log_files (H.state host.old).folder) }
        ensures number { self.new.number ≡ self.old.number }
        ensures used { self.new.used ≡ self.old.used }
        ensures same { IsTrue H.tells → Unchanged (H.state host.old) (H.state host.new) }
        ensures cause { HasDiskCause (H.state host.old) (H.state host.new) result }
    {
        if file == self.file {
            return Ok(());
        }
        let pages = match host.look(&FileName::Log(file))? {
            None => 0,
            Some(extent) => extent.pages,
        };
        self.file = file;
        self.pages = pages;
        Ok(())
    }

    // Notes the page of this number, which was read.
    fn note(&mut self, number: u64)
        ensures loaded { loaded self.new ≡ read_log_page number self.old.page }
        ensures page { self.new.page ≡ self.old.page }
        ensures number { self.new.number ≡ number }
        ensures file { self.new.file ≡ self.old.file }
        ensures pages { self.new.pages ≡ self.old.pages }
    {
        self.number = number;
        match read_page_of(number, &self.page) {
            None => self.used = 0,
            Some((begins, used)) => {
                self.begins = begins;
                self.used = used;
            }
        }
    }

    /// Reads the page of this number, unless the reader holds it, and says whether it is valid. A page that isn't there is
    /// not.
    pub(crate) fn load<H: Host>(&mut self, host: &mut H, number: u64) -> Result<bool, Fault>
        requires low { number < 2 ^ 34 }
        requires reader { IsTrue H.tells → IsReader self.old (log_files (H.state host.old).folder) }
        ensures loaded { IsTrue H.tells → OnOk result (loaded self.new ≡ pieces_of (log_files (H.state host.old).folder) number) }
        ensures number { OnOk result (self.new.number ≡ number) }
        ensures valid { IfOk result (λ valid. valid ≡ is_some (loaded self.new)) }
        ensures reader { IsTrue H.tells → IsReader self.new (log_files (H.state host.old).folder) }
        ensures same { IsTrue H.tells → Unchanged (H.state host.old) (H.state host.new) }
        ensures cause { HasDiskCause (H.state host.old) (H.state host.new) result }
    {
        if self.number == number && self.used > 0 {
            return Ok(true);
        }
        self.used = 0;
        self.number = number;
        let file = file_of(number);
        let page = page_of(number);
        self.find_length(host, file)?;
        if page >= self.pages {
            return Ok(false);
        }
        host.read_page(&FileName::Log(file), page, &mut self.page)?;
        self.note(number);
        Ok(self.used > 0)
    }

    /// The used bytes of the page that it holds.
    pub(crate) fn body(&self) -> &[u8]
        ensures bytes { result.now ≡ take self.now.used (drop 16 self.now.page) }
        ensures len { length result.now ≡ self.now.used }
    {
        &self.page.bytes()[BODY_AT..BODY_AT + self.used as usize]
    }
}
