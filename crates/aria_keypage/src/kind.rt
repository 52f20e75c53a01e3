//! Leaf or node.

ghost use Rattle.std.specs.Prelude.{◌≡◌, IfSome, IfNone};
ghost use Rattle.aria_keypage.specs.Content.{kind_byte, width};

/// The first byte of a leaf's body.
pub const LEAF: u8 = 10;

/// The first byte of a node's body.
pub const NODE: u8 = 11;

/// What a key page is.
#[derive(Clone, Copy, Debug, PartialEq, Eq)]
pub enum Kind {
    /// A page at the bottom of the tree, whose entries lead to rows.
    Leaf,
    /// A page above others, whose entries stand between its children.
    Node,
}

impl Kind {
    // The kind with this byte.
    pub(crate) fn of_byte(byte: u8) -> Option<Kind>
        ensures found { IfSome result (λ kind. kind_byte kind ≡ byte) }
        ensures none { IfNone result ((kind : Kind) → kind_byte kind ≡ byte → ⊥) }
    {
        match byte {
            LEAF => Some(Kind::Leaf),
            NODE => Some(Kind::Node),
            _ => None,
        }
    }

    // The first byte of the body.
    pub(crate) fn byte(self) -> u8
        ensures { result ≡ kind_byte self }
    {
        match self {
            Kind::Leaf => LEAF,
            Kind::Node => NODE,
        }
    }

    // The size of a target or of a child, in bytes.
    pub(crate) fn width(self) -> usize
        ensures { result ≡ width self }
    {
        match self {
            Kind::Leaf => 5,
            Kind::Node => 4,
        }
    }
}
