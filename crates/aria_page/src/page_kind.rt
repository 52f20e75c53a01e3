ghost use Rattle.std.specs.Prelude.{◌≡◌, IfSome, Some};
ghost use Rattle.aria_page.specs.declared.page_kind.PageKind.{PageKind as AnyKind};
ghost use Rattle.aria_page.specs.PageKind.{kind_byte};

/// What a page of a table's file is. The first byte of its body says so (docs/FORMATS.md, "Pages").
#[derive(Clone, Copy, Debug, PartialEq, Eq)]
pub enum PageKind {
    /// A free page of a data file.
    FreeData,
    /// The header of an index file.
    Header,
    Bitmap,
    Head,
    Tail,
    Blob,
    /// A free page of an index file.
    FreeIndex,
    /// A page of dynamic rows.
    Dynamic,
    Leaf,
    Node,
}

impl PageKind {
    /// The byte that stands for the kind.
    pub fn to_byte(self) -> u8
        ensures { result ≡ kind_byte self }
    {
        match self {
            PageKind::FreeData => 0,
            PageKind::Header => 1,
            PageKind::Bitmap => 2,
            PageKind::Head => 3,
            PageKind::Tail => 4,
            PageKind::Blob => 5,
            PageKind::FreeIndex => 8,
            PageKind::Dynamic => 9,
            PageKind::Leaf => 10,
            PageKind::Node => 11,
        }
    }

    /// The kind that the byte stands for; `None` where it stands for none.
    pub fn from_byte(byte: u8) -> Option<PageKind>
        ensures found { IfSome result (λ kind. byte ≡ kind_byte kind) }
        ensures only { (kind : AnyKind) → byte ≡ kind_byte kind → result ≡ Some kind }
    {
        match byte {
            0 => Some(PageKind::FreeData),
            1 => Some(PageKind::Header),
            2 => Some(PageKind::Bitmap),
            3 => Some(PageKind::Head),
            4 => Some(PageKind::Tail),
            5 => Some(PageKind::Blob),
            8 => Some(PageKind::FreeIndex),
            9 => Some(PageKind::Dynamic),
            10 => Some(PageKind::Leaf),
            11 => Some(PageKind::Node),
            _ => None,
        }
    }
}
