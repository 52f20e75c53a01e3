ghost use Rattle.std.specs.Prelude.{◌≡◌, ℕ, ◌<◌, ◌^◌, false, slice_index_or};
ghost use Rattle.aria_bitmap.specs.declared.group.TheConstants.{CODES, GROUP_PATTERNS};
ghost use Rattle.aria_bitmap.specs.Promise.{promises};
ghost use Rattle.aria_bitmap.specs.Sought.{OfPairs, any_sought};

use crate::code::{ROOM_OF_1, ROOM_OF_2, ROOM_OF_3, ROOM_OF_5, ROOM_OF_6};
use std::marker::Model;

/// The codes that a search looks for. Contracts see for each code whether it is one.
#[derive(Drop)]
pub struct Sought {
    codes: [bool; 8],
    // For each pair of octal digits whether one of them is sought, so that a group takes four looks.
    pairs: [bool; 64],
}

impl Model for Sought {
    ghost use Rattle.std.specs.Prelude.{List, Bool};
    ghost use Rattle.std.specs.Coded.{coded_list, coded_bool};

    ghost Value = { List Bool };

    ghost coded = { coded_list coded_bool };

    ghost view = { λ s. s.codes };

    ghost use Rattle.aria_bitmap.specs.Sought.{OfPairs};

    ghost invariant = { λ s. OfPairs s.codes s.pairs };
}

fn pairs_of(codes: &[bool; 8]) -> [bool; 64]
    ensures { OfPairs codes.now result }
{
    let mut pairs = [false; 64];
    for (pair, sought) in pairs.iter_mut().enumerate() {
        *sought = codes[pair % 8] || codes[pair / 8];
    }
    pairs
}

impl Sought {
    pub fn new(codes: [bool; 8]) -> Sought
        ensures { result ≡ codes }
    {
        let pairs = pairs_of(&codes);
        Sought { codes, pairs }
    }

    /// The codes that promise such a part.
    #[tactic(auto, unfolding(crate::specs::Promise::promises))]
    pub fn room(tail: bool, bytes: u16) -> Sought
        ensures { (code : ℕ) → code < CODES → slice_index_or result code false ≡ promises tail bytes code }
    {
        if tail {
            let large = bytes <= ROOM_OF_5;
            let small = bytes <= ROOM_OF_6;
            Sought::new([true, false, false, false, false, large, small, false])
        } else {
            let large = bytes <= ROOM_OF_1;
            let middle = bytes <= ROOM_OF_2;
            let small = bytes <= ROOM_OF_3;
            Sought::new([true, large, middle, small, false, false, false, false])
        }
    }

    /// Whether this code is sought.
    pub fn has(&self, code: u8) -> bool
        requires { code < CODES }
        ensures { result ≡ slice_index_or self.now code false }
    {
        self.codes[code as usize]
    }

    /// Whether one of the eight patterns of a group is sought.
    pub fn is_in(&self, group: u32) -> bool
        requires { group < 2 ^ 24 }
        ensures { result ≡ any_sought self.now GROUP_PATTERNS group }
    {
        self.pairs[(group % 64) as usize]
            | self.pairs[(group / 64 % 64) as usize]
            | self.pairs[(group / 4096 % 64) as usize]
            | self.pairs[(group / 262_144) as usize]
    }
}
