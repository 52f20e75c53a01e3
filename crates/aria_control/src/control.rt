//! What the control file's page names, and how it is spelled.

ghost use Rattle.std.specs.Prelude.{◌≡◌, ◌≤◌, ◌↔◌, take, length, IsTrue, IsSome};
ghost use Rattle.aria_page.specs.Page.{Sums};
ghost use Rattle.aria_host.specs.Folder.{Folder, with_page};
ghost use Rattle.aria_control.specs.declared.found.Found.TheVariants.{Kept};
ghost use Rattle.aria_control.specs.Found.{control_file, Finds};
ghost use Rattle.aria_control.specs.ControlPage.{magic, control_page, named_by, HasMagic, IsStorable};

use aria_page::{LSN_BYTES, Lsn, Page, SUM_BYTES, bytes_from, lsn_of, same_bytes};

/// What the control file names. Each log sequence number has a file number below 2^24.
#[derive(Clone, Copy, Debug, PartialEq, Eq)]
pub struct Control {
    /// The last checkpoint of the log; file 0 with offset 0 where there is none.
    pub checkpoint: Lsn,
    /// Where redo starts; file 0 with offset 0 stands for the start of the log.
    pub redo: Lsn,
}

const MAGIC_BYTES: usize = 8;

const MAGIC: [u8; MAGIC_BYTES] = *b"ARIAOWN1";

const MAGIC_AT: usize = SUM_BYTES;

const CHECKPOINT_AT: usize = MAGIC_AT + MAGIC_BYTES;

const REDO_AT: usize = CHECKPOINT_AT + LSN_BYTES;

// So many bytes from the front.
fn front(bytes: &[u8], count: usize) -> &[u8]
    requires { count ≤ length bytes.now }
    ensures { result.now ≡ take count bytes.now }
{
    &bytes[..count]
}

/// The page that names these two, and no others.
pub(crate) fn page_of(control: &Control) -> Page
    ensures page { result ≡ control_page control.now }
    ensures sums { Sums result }
    ensures named { IsStorable control.now → named_by result ≡ control.now }
    ensures found { IsStorable control.now → (folder : Folder) → IsSome (folder control_file) → Finds (Kept control.now) (with_page control_file 0 (control_page control.now) folder) }
    ensures one { (other : Control) → IsStorable control.now → IsStorable other → control_page other ≡ control_page control.now → other ≡ control.now }
{
    let mut page = Page::zero();
    page.put(REDO_AT, &control.redo.to_bytes());
    page.put(CHECKPOINT_AT, &control.checkpoint.to_bytes());
    page.put(MAGIC_AT, &MAGIC);
    page.sum();
    page
}

/// The two that a page names.
#[tactic(auto, unfolding(crate::specs::ControlPage::named_by))]
pub(crate) fn named_by(page: &Page) -> Control
    ensures value { result ≡ named_by page.now }
    ensures storable { IsStorable result }
{
    Control {
        checkpoint: lsn_of(bytes_from(page.bytes(), CHECKPOINT_AT)),
        redo: lsn_of(bytes_from(page.bytes(), REDO_AT)),
    }
}

/// Whether the magic stands in its place.
#[tactic(auto, unfolding(crate::specs::ControlPage::HasMagic, crate::specs::ControlPage::magic))]
pub(crate) fn has_magic(page: &Page) -> bool
    ensures { IsTrue result ↔ HasMagic page.now }
{
    same_bytes(
        front(bytes_from(page.bytes(), MAGIC_AT), MAGIC_BYTES),
        &MAGIC,
    )
}
