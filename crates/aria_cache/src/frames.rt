ghost use Rattle.std.specs.Prelude.{◌≡◌, ◌<◌, ◌≤◌, ◌+◌, ◌++◌, ◌∷◌, [], not, if◌then◌else◌, ℕ, IsTrue, nat_eq, length, is_some, option_map, All, true, IsSome, None, Some, false, IfOk, IfSome, option_copied, OnOk, OnErr};
ghost use Rattle.std.specs.List.{list_any};
ghost use Rattle.std.specs.List.Sorted.{IsStrictlyIncreasing};
ghost use Rattle.std.specs.NonZero.{non_zero_usize_get};
ghost use Rattle.std.specs.Map.{lookup, update};
ghost use Rattle.aria_cache.specs.Frames.{Held, shown, held, front, count, room, is_pinned, victim_of, dirty_of, without_slot, others, turned, edited_held, cleaned, stamped, stamp_all, redone_held};
ghost use Rattle.aria_page.specs.Edit.{IsWithin, edited, all_edited};
ghost use Rattle.aria_page.specs.Page.{page_body};
ghost use Rattle.aria_page.specs.Lsn.{lsn_number};
ghost use Rattle.aria_page.specs.Change.{edit_of, edits_of};

use crate::page_id::PageId;
use aria_page::{Change, Edit, Lsn, Page, apply, apply_all};
use arrayvec::ArrayVec;
use lru::LruCache;
use std::alloc::{AllocError, Global};
use std::num::NonZeroUsize;

/// The most pages that can be pinned.
pub const MAX_PINS: usize = 48;

/// How many pages are looked at for one that is clean.
const NEAR: usize = 32;

/// A page that is held.
#[derive(Drop)]
pub struct Frame {
    pub page: Box<Page>,
    pub lsn: Lsn,
    pub dirty: bool,
}

/// Pages that are held, by their numbers.
#[derive(Drop)]
pub struct Frames {
    pub(crate) cache: LruCache<u64, Frame>,
    pub(crate) pins: ArrayVec<u64, MAX_PINS>,
}

// Makes the edits of a group of the log, one after another.
fn apply_edits(edits: &[Edit], page: &mut Page)
    requires { All IsWithin edits.now }
    ensures { page_body page.new ≡ all_edited edits.now (page_body page.old) }
{
    for edit in edits {
        apply_edit(edit, page);
    }
}

#[tactic(auto, using(crate::proofs::Applied::body_applied))]
fn apply_edit(edit: &Edit, page: &mut Page)
    requires { IsWithin edit.now }
    ensures { page_body page.new ≡ edited edit.now (page_body page.old) }
{
    let _ = page.bytes();
    let Ok(()) = apply(edit, page) else {
        unreachable!();
    };
}

impl Frames {
    /// No page is held.
    pub fn new(alloc: Global, most: NonZeroUsize) -> Result<Frames, AllocError>
        ensures none { IfOk result (λ frames. (k : ℕ) → held frames k ≡ None) }
        ensures pins { IfOk result (λ frames. frames.pins.items ≡ []) }
        ensures room { IfOk result (λ frames. room frames ≡ non_zero_usize_get most) }
    {
        let cache = LruCache::sparse(alloc, most)?;
        Ok(Frames {
            cache,
            pins: ArrayVec::new(),
        })
    }

    /// Whether the page is held. It is the most recently used then.
    pub fn find(&mut self, key: u64) -> bool
        ensures found { result ≡ is_some (held self.old key) }
        ensures front { IsTrue result → front self.new ≡ held self.old key }
        ensures held { held self.new ≡ held self.old }
        ensures pins { self.new.pins ≡ self.old.pins }
        ensures room { room self.new ≡ room self.old }
        ensures count { count self.new ≡ count self.old }
    {
        let _ = self.cache.len();
        self.cache.promote(&key)
    }

    /// The frame of a page.
    pub fn peek(&self, key: u64) -> Option<&Frame>
        ensures { option_map shown (option_copied result) ≡ held self.now key }
    {
        self.cache.peek(&key)
    }

    /// The page that was used last.
    pub fn front(&self) -> Option<&Frame>
        ensures { option_map shown (option_copied result) ≡ front self.now }
    {
        let (_key, frame) = self.cache.peek_mru()?;
        Some(frame)
    }

    /// Holds a page more.
    pub fn insert(&mut self, key: u64, frame: Frame) -> Result<(), AllocError>
        requires absent { held self.old key ≡ None }
        requires free { count self.old < room self.old }
        ensures ok { OnOk result (held self.new ≡ update nat_eq (held self.old) key (Some (shown frame))) }
        ensures err { OnErr result (held self.new ≡ held self.old) }
        ensures front { OnOk result (front self.new ≡ Some (shown frame)) }
        ensures pins { self.new.pins ≡ self.old.pins }
        ensures room { room self.new ≡ room self.old }
        ensures count { OnOk result (count self.new ≡ count self.old + 1) }
    {
        match self.cache.put(key, frame) {
            Ok(_) => Ok(()),
            Err(_) => Err(AllocError),
        }
    }

    /// Takes a page out.
    pub fn remove(&mut self, key: u64) -> Option<Frame>
        ensures was { option_map shown result ≡ held self.old key }
        ensures held { held self.new ≡ update nat_eq (held self.old) key None }
        ensures pins { self.new.pins ≡ self.old.pins }
        ensures room { room self.new ≡ room self.old }
        ensures count { IsTrue (is_some (held self.old key)) → count self.new + 1 ≡ count self.old }
    {
        let _ = self.cache.len();
        self.cache.pop(&key)
    }

    // Looks at the page that was used last: one of the slot is taken out, and another counts as used longest ago from now on.
    fn turn(&mut self, slot: u32)
        ensures entries { self.new.cache.entries ≡ turned slot self.old.cache.entries }
        ensures pins { self.new.pins ≡ self.old.pins }
        ensures room { room self.new ≡ room self.old }
    {
        let Some((key, _frame)) = self.cache.peek_mru() else {
            return;
        };
        let key = *key;
        if PageId::slot_of(key) == slot {
            drop(self.cache.pop_mru());
        } else {
            self.cache.demote(&key);
        }
    }

    /// Takes out the pages of a slot. The others stay in their order of use.
    pub fn remove_slot(&mut self, slot: u32)
        ensures held { held self.new ≡ without_slot slot (held self.old) }
        ensures order { self.new.cache.entries ≡ others slot self.old.cache.entries }
        ensures pins { self.new.pins ≡ self.old.pins }
        ensures room { room self.new ≡ room self.old }
        ensures count { count self.new ≤ count self.old }
    {
        for _nth in 0..self.cache.len() {
            self.turn(slot);
        }
    }

    /// The numbers of the pages that are dirty, in rising order: by slots, then by parts, then by pages.
    pub fn dirty(&self, alloc: Global) -> Result<Vec<u64>, AllocError>
        ensures all { IfOk result (λ keys. (k : ℕ) → list_any (nat_eq k) keys.items ≡ dirty_of (held self.now k)) }
        ensures rises { IfOk result (λ keys. IsStrictlyIncreasing keys.items) }
    {
        let _ = self.cache.len();
        let mut keys = Vec::new(alloc);
        for (key, frame) in self.cache.iter() {
            if frame.dirty {
                keys.push(*key)?;
            }
        }
        keys.sort_unstable();
        Ok(keys)
    }

    /// How many pages are held.
    pub fn count(&self) -> usize
        ensures count { result ≡ count self.now }
        ensures most { count self.now ≤ room self.now }
        ensures some { 0 < room self.now }
    {
        self.cache.len()
    }

    /// Whether no page more fits.
    pub fn is_full(&self) -> bool
        ensures full { result ≡ false → count self.now < room self.now }
        ensures none { result ≡ true → count self.now ≡ room self.now }
        ensures some { 0 < room self.now }
    {
        self.cache.len() == self.cache.cap().get()
    }

    fn is_pinned(&self, key: u64) -> bool
        ensures { result ≡ is_pinned self.now key }
    {
        self.pins.as_slice().iter().any(|pin| key == *pin)
    }

    /// The least recently used page that isn't pinned.
    pub fn victim(&self) -> Option<u64>
        ensures victim { result ≡ victim_of self.now }
        ensures free { IfSome result (λ key. is_pinned self.now key ≡ false) }
    {
        let mut rest = self.cache.iter();
        while let Some((key, _frame)) = rest.next_back() {
            if !self.is_pinned(*key) {
                return Some(*key);
            }
        }
        None
    }

    /// Of the pages that were used longest ago, so many at most, the first that is clean and isn't pinned.
    fn spare(&self, most: usize) -> Option<u64>
        ensures free { IfSome result (λ key. is_pinned self.now key ≡ false) }
    {
        let mut rest = self.cache.iter();
        for _nth in 0..most {
            let Some((key, frame)) = rest.next_back() else {
                return None;
            };
            if !frame.dirty && !self.is_pinned(*key) {
                return Some(*key);
            }
        }
        None
    }

    /// A page to be taken out: one that needs no write where one stands near, else the victim.
    pub fn choose(&self) -> Option<u64>
        ensures free { IfSome result (λ key. is_pinned self.now key ≡ false) }
        ensures some { result ≡ None → victim_of self.now ≡ None }
    {
        match self.spare(NEAR) {
            Some(key) => Some(key),
            None => self.victim(),
        }
    }

    /// Pins the page.
    pub fn pin(&mut self, key: u64)
        requires { length self.old.pins.items < 48 }
        ensures pins { self.new.pins.items ≡ (if is_pinned self.old key then self.old.pins.items else self.old.pins.items ++ key ∷ []) }
        ensures cache { self.new.cache ≡ self.old.cache }
    {
        if !self.is_pinned(key) {
            let Ok(()) = self.pins.try_push(key) else {
                unreachable!();
            };
        }
    }

    /// No page is pinned.
    pub fn unpin_all(&mut self)
        ensures pins { self.new.pins.items ≡ [] }
        ensures cache { self.new.cache ≡ self.old.cache }
    {
        self.pins.clear();
    }

    /// Edits a page that is held.
    pub fn edit(&mut self, key: u64, edits: &[Change<'_>])
        requires { All (λ e. IsWithin (edit_of e)) edits.now }
        ensures held { held self.new ≡ update nat_eq (held self.old) key (option_map (edited_held (edits_of edits.now)) (held self.old key)) }
        ensures pins { self.new.pins ≡ self.old.pins }
        ensures room { room self.new ≡ room self.old }
        ensures count { count self.new ≡ count self.old }
    {
        let _ = self.cache.len();
        if let Some(frame) = self.cache.get_mut(&key) {
            apply_all(edits, &mut frame.page);
            frame.dirty = true;
        }
    }

    /// Edits a page that is held as a group of the log did, whose log sequence number it gets.
    pub fn redo(&mut self, key: u64, lsn: Lsn, edits: &[Edit])
        requires { All IsWithin edits.now }
        ensures held { held self.new ≡ update nat_eq (held self.old) key (option_map (redone_held (lsn_number lsn) edits.now) (held self.old key)) }
        ensures pins { self.new.pins ≡ self.old.pins }
        ensures room { room self.new ≡ room self.old }
        ensures count { count self.new ≡ count self.old }
    {
        let _ = self.cache.len();
        if let Some(frame) = self.cache.get_mut(&key) {
            apply_edits(edits, &mut frame.page);
            frame.lsn = lsn;
            frame.dirty = true;
        }
    }

    /// The file has the page as it is held. Its place in the order of use stays.
    pub fn clean(&mut self, key: u64)
        ensures held { held self.new ≡ update nat_eq (held self.old) key (option_map cleaned (held self.old key)) }
        ensures pins { self.new.pins ≡ self.old.pins }
        ensures room { room self.new ≡ room self.old }
        ensures count { count self.new ≡ count self.old }
    {
        let _ = self.cache.len();
        if let Some(frame) = self.cache.peek_mut(&key) {
            frame.dirty = false;
        }
    }

    /// Sets the log sequence number of a page that is held.
    fn stamp(&mut self, key: u64, lsn: Lsn)
        ensures held { held self.new ≡ update nat_eq (held self.old) key (option_map (stamped (lsn_number lsn)) (held self.old key)) }
        ensures pins { self.new.pins ≡ self.old.pins }
        ensures room { room self.new ≡ room self.old }
        ensures count { count self.new ≡ count self.old }
    {
        let _ = self.cache.len();
        if let Some(frame) = self.cache.get_mut(&key) {
            frame.lsn = lsn;
        }
    }

    /// Sets the log sequence number of each pinned page, and pins none.
    pub fn stamp_pins(&mut self, lsn: Lsn)
        ensures held { held self.new ≡ stamp_all self.old.pins.items (lsn_number lsn) (held self.old) }
        ensures pins { self.new.pins.items ≡ [] }
        ensures room { room self.new ≡ room self.old }
        ensures count { count self.new ≡ count self.old }
    {
        while let Some(key) = self.pins.pop() {
            self.stamp(key, lsn);
        }
    }
}
