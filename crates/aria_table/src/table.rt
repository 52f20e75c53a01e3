//! Tables as the headers of their index files say.

ghost use Rattle.std.specs.Prelude.{◌≡◌, ◌<◌, ℕ, List, Some, None, IsTrue, IfOk, IfSome};
ghost use Rattle.aria_page.specs.Page.{page_body};
ghost use Rattle.aria_value.specs.declared.header.Header.{Header as AnyHeader};
ghost use Rattle.aria_value.specs.Header.{read_header, IsHeader};
ghost use Rattle.aria_value.specs.Defined.{IsDefinition};
ghost use Rattle.aria_cache.specs.Calls.{fault_of, Answers, Loads};
ghost use Rattle.aria_cache.specs.Causes.{HasPagesCause};
ghost use Rattle.aria_key.specs.Reading.{keys_file, OfTree};
ghost use Rattle.aria_table.specs.Reading.{HasTable};

use aria_cache::{PageId, Pages};
use aria_host::{Fault, FileName};
use aria_page::{Page, Part};
use aria_value::{Definition, Header, read_header};
use std::alloc::{AllocError, Global};

// What the body of a page says as a header, whatever stands in front of it.
fn header_on(alloc: Global, page: &Page) -> Result<Option<Header>, AllocError>
    ensures read { IfOk result (λ r. r ≡ read_header (page_body page.now)) }
    ensures is { IfOk result (λ r. IfSome r IsHeader) }
{
    let mut whole = *page;
    let lsn = whole.lsn();
    whole.seal(lsn);
    read_header(alloc, &whole)
}

// What the first page of the index file says.
fn header_of<P: Pages>(alloc: Global, pages: &mut P, slot: u32) -> Result<Header, Fault>
    requires stands { P.stands pages.old }
    requires open { IsTrue ((P.state pages.old).is_open slot) }
    ensures stands { P.stands pages.new }
    ensures moves { P.stays pages.old pages.new }
    ensures loads { Loads P.tells 1 (P.state pages.old) (P.state pages.new) }
    ensures header { IsTrue P.tells → (body : List ℕ) → (P.state pages.old).bodies (keys_file (P.state pages.old) slot) 0 ≡ Some body → IfOk result (λ h. read_header body ≡ Some h) }
    ensures is { IfOk result IsHeader }
    ensures answers { Answers (P.state pages.old) (P.state pages.new) (fault_of result) }
    ensures cause { HasPagesCause (OfTree P.tells P.logged (HasTable (P.state pages.old) (keys_file (P.state pages.old) slot)) (keys_file (P.state pages.old) slot) (P.state pages.old) (P.state pages.new)) (P.state pages.old) (P.state pages.new) (fault_of result) }
{
    let file: FileName = pages.file(slot, Part::Keys);
    if pages.count(slot, Part::Keys) == 0 {
        return Err(pages.stop(Fault::PageDamaged { file, page: 0 }));
    }
    pages.load(
        alloc,
        PageId {
            slot,
            part: Part::Keys,
            page: 0,
        },
    )?;
    match header_on(alloc, pages.loaded()) {
        Ok(Some(header)) => Ok(header),
        Ok(None) => Err(pages.stop(Fault::PageDamaged { file, page: 0 })),
        Err(AllocError) => Err(pages.stop(Fault::Memory(AllocError))),
    }
}

/// A table: what it is made of, whether it is plain, and the slot of its files.
#[derive(Debug, Drop)]
pub struct Table {
    pub definition: Definition,
    pub plain: bool,
    pub slot: u32,
}

impl Table {
    /// The table whose files a slot has, as the header of its index file says.
    pub fn read<P: Pages>(alloc: Global, pages: &mut P, slot: u32) -> Result<Table, Fault>
        requires stands { P.stands pages.old }
        requires open { IsTrue ((P.state pages.old).is_open slot) }
        ensures stands { P.stands pages.new }
        ensures moves { P.stays pages.old pages.new }
        ensures loads { Loads P.tells 1 (P.state pages.old) (P.state pages.new) }
        ensures definition { IsTrue P.tells → (body : List ℕ) (h : AnyHeader) → (P.state pages.old).bodies (keys_file (P.state pages.old) slot) 0 ≡ Some body → read_header body ≡ Some h → IfOk result (λ t. (t.definition ≡ h.definition) × (t.plain ≡ h.plain) × (t.slot ≡ slot)) }
        ensures never { IsTrue P.tells → (body : List ℕ) → (P.state pages.old).bodies (keys_file (P.state pages.old) slot) 0 ≡ Some body → read_header body ≡ None → IfOk result (λ t. ⊥) }
        ensures is { IfOk result (λ t. IsDefinition t.definition) }
        ensures answers { Answers (P.state pages.old) (P.state pages.new) (fault_of result) }
        ensures cause { HasPagesCause (OfTree P.tells P.logged (HasTable (P.state pages.old) (keys_file (P.state pages.old) slot)) (keys_file (P.state pages.old) slot) (P.state pages.old) (P.state pages.new)) (P.state pages.old) (P.state pages.new) (fault_of result) }
    {
        let _file = FileName::Control;
        let header = header_of(alloc, pages, slot)?;
        let Header {
            plain,
            definition,
            ..
        } = header;
        Ok(Table {
            definition,
            plain,
            slot,
        })
    }
}
