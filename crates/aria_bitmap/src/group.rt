ghost use Rattle.std.specs.Prelude.{◌≡◌, ◌≢◌, ℕ, ◌+◌, ◌*◌, ◌^◌, ◌<◌, length, slice_index};
ghost use Rattle.aria_page.specs.declared.page.TheConstants.{BODY_BYTES};
ghost use Rattle.aria_bitmap.specs.Pattern.{digit, group};

/// The number of patterns of a bitmap page.
pub const PATTERNS: u32 = 21_808;

/// The number of patterns of a group.
pub const GROUP_PATTERNS: u32 = 8;

/// The number of groups of a bitmap page.
pub const GROUPS: u32 = PATTERNS / GROUP_PATTERNS;

/// Codes are below this.
pub const CODES: u8 = 8;

/// The size of a group of eight patterns, in bytes.
pub const GROUP_BYTES: usize = 3;

/// The place of the first group in a body.
pub const GROUPS_AT: usize = 1;

// The three bytes of a group as one number.
#[tactic(auto, unfolding(crate::specs::Pattern::group))]
pub fn group(body: &[u8], nth: u32) -> u32
    requires body { length body.now ≡ BODY_BYTES }
    requires nth { nth < GROUPS }
    ensures value { result ≡ group body.now nth }
    ensures fits { result < 2 ^ 24 }
{
    let at = GROUPS_AT + GROUP_BYTES * nth as usize;
    body[at] as u32 + 256 * body[at + 1] as u32 + 65536 * body[at + 2] as u32
}

// The three bytes of a number, the lowest first.
pub fn group_bytes(group: u32) -> [u8; GROUP_BYTES]
    requires { group < 2 ^ 24 }
    ensures value { slice_index result 0 + 256 * slice_index result 1 + 65536 * slice_index result 2 ≡ group }
    ensures len { length result ≡ GROUP_BYTES }
{
    [
        (group % 256) as u8,
        (group / 256 % 256) as u8,
        (group / 65536) as u8,
    ]
}

// An octal digit of a group, from the lowest on.
pub fn digit(group: u32, nth: u32) -> u8
    requires { nth < GROUP_PATTERNS }
    ensures value { result ≡ digit nth group }
    ensures fits { result < CODES }
{
    ((group >> (3 * nth)) % 8) as u8
}

// The group with another digit in this place.
pub fn with_digit(group: u32, nth: u32, code: u8) -> u32
    requires group { group < 2 ^ 24 }
    requires nth { nth < GROUP_PATTERNS }
    requires code { code < CODES }
    ensures here { digit nth result ≡ code }
    ensures others { (k : ℕ) → k ≢ nth → digit k result ≡ digit k group }
    ensures fits { result < 2 ^ 24 }
{
    let unit = 1 << (3 * nth);
    group - digit(group, nth) as u32 * unit + code as u32 * unit
}
