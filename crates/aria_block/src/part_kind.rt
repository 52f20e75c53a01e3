ghost use Rattle.std.specs.Prelude.{◌≡◌};
ghost use Rattle.aria_block.specs.PartPage.{part_byte};

use aria_page::PageKind;

/// A part of a row that may share its page with others. A page has parts of one kind.
#[derive(Clone, Copy, Debug, PartialEq, Eq)]
pub enum PartKind {
    Head,
    Tail,
}

impl PartKind {
    /// The first byte of the body of a page of such parts.
    pub fn to_byte(self) -> u8
        ensures { result ≡ part_byte self }
    {
        match self {
            PartKind::Head => PageKind::Head.to_byte(),
            PartKind::Tail => PageKind::Tail.to_byte(),
        }
    }
}
