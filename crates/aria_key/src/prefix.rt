//! The first entry that begins with given bytes.

ghost use Rattle.std.specs.Prelude.{◌≡◌, ◌==◌, ℕ, ◌<◌, List, Some, None, IsTrue, IfOk, if◌then◌else◌};
ghost use Rattle.std.specs.List.{starts_with};
ghost use Rattle.aria_keypage.specs.Item.{Item};
ghost use Rattle.aria_keypage.specs.LeafReading.{last_read};
ghost use Rattle.aria_cache.specs.Calls.{fault_of, Answers, Loads};
ghost use Rattle.aria_cache.specs.Causes.{HasPagesCause};
ghost use Rattle.aria_key.specs.IndexFile.{HoldsTrees};
ghost use Rattle.aria_key.specs.Reading.{keys_file, OfTree};
ghost use Rattle.aria_key.specs.Ahead.{HasKey};
ghost use Rattle.aria_key.specs.Prefixed.{first_with};

use crate::cursor::{Cursor, next, seek};
use aria_cache::Pages;
use aria_host::{Fault, FileName};
use aria_page::Bytes;
use std::alloc::Global;

// What a cursor read last, where it begins with a prefix.
fn found_in(cursor: Cursor, prefix: &[u8]) -> Option<(Bytes, u64)>
    ensures { result ≡ (if starts_with ◌==◌ (last_read cursor.reader) prefix.now then Some (last_read cursor.reader, cursor.target) else None) }
{
    if !cursor.entry().starts_with(prefix) {
        return None;
    }
    let target = cursor.target();
    Some((cursor.into_entry(), target))
}

/// The first entry of a key's tree that begins with a prefix, and its target; `None` where none does.
pub fn first_with_prefix<P: Pages>(
    alloc: Global,
    pages: &mut P,
    slot: u32,
    key: u8,
    prefix: &[u8],
) -> Result<Option<(Bytes, u64)>, Fault>
    requires stands { P.stands pages.old }
    requires open { IsTrue ((P.state pages.old).is_open slot) }
    ensures stands { P.stands pages.new }
    ensures moves { P.stays pages.old pages.new }
    ensures loads { Loads P.tells 80 (P.state pages.old) (P.state pages.new) }
    ensures first { IsTrue P.tells → (keys : ℕ) → (walks : ℕ → List Item)
        → HoldsTrees keys ((P.state pages.old).counts (keys_file (P.state pages.old) slot)) ((P.state pages.old).bodies (keys_file (P.state pages.old) slot)) walks → key < keys
        → IfOk result (λ r. r ≡ first_with prefix.now (walks key)) }
    ensures answers { Answers (P.state pages.old) (P.state pages.new) (fault_of result) }
    ensures cause { HasPagesCause (OfTree P.tells P.logged (HasKey (P.state pages.old) (keys_file (P.state pages.old) slot) key) (keys_file (P.state pages.old) slot) (P.state pages.old) (P.state pages.new)) (P.state pages.old) (P.state pages.new) (fault_of result) }
{
    let _file = FileName::Control;
    let mut cursor = seek(alloc, pages, slot, key, prefix)?;
    let more = next(alloc, pages, &mut cursor)?;
    if !more {
        return Ok(None);
    }
    Ok(found_in(cursor, prefix))
}
