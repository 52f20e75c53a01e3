ghost use Rattle.std.specs.Prelude.{◌≡◌, ◌/◌, ◌<◌, ◌^◌};
ghost use Rattle.aria_cache.specs.declared.page_id.PageId.{PageId as Id};
ghost use Rattle.aria_cache.specs.Key.{key_of};

use aria_page::Part;

/// A page of one of the two files of an open table. Slots are the numbers of open tables.
#[derive(Clone, Copy, Debug)]
pub struct PageId {
    pub slot: u32,
    pub part: Part,
    pub page: u32,
}

/// The pages of a part are numbered below this.
const PART: u64 = 1 << 31;

/// The keys of a slot are this far from those of the next.
const SLOT: u64 = 1 << 32;

impl PageId {
    /// Its number, by which it is found in memory.
    pub fn key(self) -> u64
        requires { self.page < 2 ^ 31 }
        ensures { result ≡ key_of self }
    {
        let part = match self.part {
            Part::Keys => 0,
            Part::Rows => PART,
        };
        u64::from(self.slot) * SLOT + part + u64::from(self.page)
    }

    /// The slot of the page of that number.
    pub fn slot_of(key: u64) -> u32
        ensures { result ≡ key / 2 ^ 32 }
    {
        (key / SLOT) as u32
    }

    /// The page of that number. No two pages have one number.
    #[tactic(auto, using(crate::proofs::Keys::once))]
    pub fn of_key(key: u64) -> PageId
        ensures is { key_of result ≡ key }
        ensures low { result.page < 2 ^ 31 }
        ensures only { (at : Id) → at.page < 2 ^ 31 → key_of at ≡ key → at ≡ result }
    {
        let low = key % SLOT;
        let (part, page) = if low < PART {
            (Part::Keys, low as u32)
        } else {
            (Part::Rows, (low - PART) as u32)
        };
        PageId {
            slot: PageId::slot_of(key),
            part,
            page,
        }
    }
}
