//! A slot is found for a table, and stands for it.

ghost use Rattle.std.specs.Prelude.{◌≡◌, ◌⊎◌, ◌<◌, ◌≤◌, ◌-◌, ◌^◌, ℕ, length, slice_get, IsTrue, None, is_some, IfOk, IfErr, alloc_error};
ghost use Rattle.std.specs.Option.{option_and_then};
ghost use Rattle.aria_host.specs.declared.fault.Fault.TheVariants.{Memory, TooManyTables};
ghost use Rattle.aria_pager.specs.PageStore.{name_in, name_at, set_at};
ghost use Rattle.aria_pager.specs.Filing.{empty_slot, first_slot, Reserves, AreTaken, with_slots};

use crate::page_store::PageStore;
use crate::slot::{FilePages, MAX_SLOTS, Slot};
use aria_host::{Fault, FileName};
use aria_page::Name;

// The first slot that is unused, or behind the last one.
fn first_unused(slots: &[Slot]) -> usize
    ensures most { result ≤ length slots.now }
    ensures unused { option_and_then name_in (slice_get slots.now result) ≡ None }
    ensures before { (n : ℕ) → n < result → IsTrue (is_some (option_and_then name_in (slice_get slots.now n))) }
{
    for (n, slot) in slots.iter().enumerate() {
        if !slot.used {
            return n;
        }
    }
    slots.len()
}

// A slot that stands for no table.
fn no_slot(name: &Name) -> Slot
    ensures { result ≡ empty_slot name.now }
{
    Slot {
        name: *name,
        used: false,
        keys: FilePages::of(0),
        rows: FilePages::of(0),
    }
}

// A slot that stands for a table as it is made.
fn first_slot(name: &Name) -> Slot
    ensures { result ≡ first_slot name.now }
{
    Slot {
        name: *name,
        used: true,
        keys: FilePages::of(1),
        rows: FilePages::of(1),
    }
}

impl PageStore {
    /// Finds a slot that is unused, or adds one.
    pub(crate) fn reserve(&mut self, name: &Name) -> Result<u32, Fault>
        ensures free { IfOk result (λ n. name_at self.old n ≡ None) }
        ensures low { IfOk result (λ n. n < 2 ^ 32 - 1) }
        ensures there { IfOk result (λ n. IsTrue (is_some (slice_get self.new.slots n))) }
        ensures reserves { Reserves self.old self.new }
        ensures rest { self.new ≡ with_slots self.old self.new.slots }
        ensures cause { IfErr result (λ fault. (fault ≡ Memory alloc_error) ⊎ ((fault ≡ TooManyTables) × AreTaken self.old)) }
    {
        let _file = FileName::Control;
        let n = first_unused(self.slots.as_slice());
        if n >= MAX_SLOTS {
            return Err(Fault::TooManyTables);
        }
        if n == self.slots.len() {
            self.slots.push(no_slot(name))?;
        }
        Ok(n as u32)
    }

    /// The slot stands for the table from now on.
    pub(crate) fn enter(&mut self, name: &Name, n: u32)
        requires there { IsTrue (is_some (slice_get self.old.slots n)) }
        ensures slots { self.new.slots ≡ set_at self.old.slots n (first_slot name.now) }
        ensures rest { self.new ≡ with_slots self.old self.new.slots }
    {
        self.slots.overwrite(n as usize, &[first_slot(name)]);
    }
}
