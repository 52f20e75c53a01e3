//! Whole bodies of new pages.

ghost use Rattle.std.specs.Prelude.{◌≡◌, ◌≤◌, ◌<◌, ◌^◌, length, IfOk};
ghost use Rattle.aria_keypage.specs.declared.item.TheConstants.{ENTRY_MAX};
ghost use Rattle.aria_keypage.specs.declared.key_page.TheConstants.{ITEM_BYTES_MAX};
ghost use Rattle.aria_keypage.specs.Content.{Content, item_bytes, IsContent};
ghost use Rattle.aria_keypage.specs.Change.{IsBody, leaf_of_one, node_of_one};

use crate::item::push_item;
use crate::kind::Kind;
use aria_page::{BODY_BYTES, Bytes, u16_bytes, u32_bytes};
use std::alloc::{AllocError, Global};

// The body with these item bytes, and zeros behind them.
pub(crate) fn whole_body(
    alloc: Global,
    kind: Kind,
    key: u8,
    bytes: &[u8],
) -> Result<Bytes, AllocError>
    requires { length bytes.now ≤ ITEM_BYTES_MAX }
    ensures { (c : Content) → IsContent c → c.kind ≡ kind → c.key ≡ key → item_bytes c ≡ bytes.now → IfOk result (λ body. IsBody body c) }
{
    let mut body = Vec::new(alloc);
    body.push(kind.byte())?;
    body.push(key)?;
    body.extend_from_slice(&u16_bytes(bytes.len() as u16))?;
    body.extend_from_slice(bytes)?;
    body.resize(BODY_BYTES, 0)?;
    Ok(Bytes::from_vec(body))
}

/// The body of a leaf with one item.
pub fn root_leaf(alloc: Global, key: u8, entry: &[u8], target: u64) -> Result<Bytes, AllocError>
    requires entry { length entry.now ≤ ENTRY_MAX }
    requires target { target < 2 ^ 40 }
    ensures { IfOk result (λ body. IsBody body (leaf_of_one key (record { entry = entry.now; to = target }))) }
{
    let mut bytes = Vec::new(alloc);
    push_item(&mut bytes, Kind::Leaf, b"", entry, target)?;
    whole_body(alloc, Kind::Leaf, key, bytes.as_slice())
}

/// The body of a node with a first child and one item.
pub fn root_node(
    alloc: Global,
    key: u8,
    first: u32,
    entry: &[u8],
    child: u32,
) -> Result<Bytes, AllocError>
    requires { length entry.now ≤ ENTRY_MAX }
    ensures { IfOk result (λ body. IsBody body (node_of_one key first (record { entry = entry.now; to = child }))) }
{
    let mut bytes = Vec::new(alloc);
    bytes.extend_from_slice(&u32_bytes(first))?;
    push_item(&mut bytes, Kind::Node, b"", entry, child as u64)?;
    whole_body(alloc, Kind::Node, key, bytes.as_slice())
}
