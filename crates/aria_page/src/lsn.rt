ghost use Rattle.std.specs.Prelude.{◌≡◌, ◌≤◌, ◌↔◌, ◌++◌, Some, length, IsTrue, OnOk};
ghost use Rattle.aria_page.specs.declared.lsn.TheConstants.{LSN_BYTES};
ghost use Rattle.aria_page.specs.Field.{Gives};
ghost use Rattle.aria_page.specs.Lsn.{IsLsn, lsn_bytes, lsn_of, lsn_at, lsn_text, IsBefore};

use crate::list::Bytes;
use crate::number::{u24_at, u24_bytes, u24_of, u32_at, u32_bytes, u32_of};
use std::alloc::AllocError;
use std::fmt;

/// The number of bytes that a log sequence number is stored in.
pub const LSN_BYTES: usize = 7;

/// A log sequence number: the number of a log file, below 2^24, and the offset of a byte in it, from 0.
///
/// They are ordered as their bytes stand in the log. File 0 with offset 0 means none.
#[derive(Clone, Copy, Debug, PartialEq, Eq, PartialOrd, Ord)]
pub struct Lsn {
    pub file: u32,
    pub offset: u32,
}

impl Lsn {
    /// Whether this one stands before the other in the log.
    pub fn is_before(self, other: Lsn) -> bool
        ensures { IsTrue result ↔ IsBefore self other }
    {
        self < other
    }

    /// The bytes that it is stored in. Of a file number from 2^24 on they hold the lowest 3 bytes.
    #[tactic(auto, unfolding(crate::specs::Lsn::lsn_bytes, crate::specs::Number::number))]
    pub fn to_bytes(self) -> [u8; LSN_BYTES]
        ensures { result ≡ lsn_bytes self }
    {
        let [a, b, c] = u24_bytes(self.file);
        let [d, e, f, g] = u32_bytes(self.offset);
        [a, b, c, d, e, f, g]
    }
}

/// As `(1,0x10)`: the file's number, and the offset in hexadecimal digits.
impl fmt::Display for Lsn {
    ghost output = { λ lsn. Some (lsn_text lsn) };

    fn fmt<W: fmt::Write>(&self, f: &mut fmt::Formatter<W>) -> fmt::Result {
        write!(f, "({},0x{:x})", self.file, self.offset)
    }
}

/// The log sequence number in the first 7 bytes.
#[tactic(auto, unfolding(crate::specs::Lsn::lsn_of))]
pub fn lsn_of(bytes: &[u8]) -> Lsn
    requires { LSN_BYTES ≤ length bytes.now }
    ensures value { result ≡ lsn_of bytes.now }
    ensures fits { IsLsn result }
{
    Lsn {
        file: u24_of(bytes),
        offset: u32_of(&bytes[3..]),
    }
}

/// The log sequence number in the first 7 bytes, and the bytes after it; `None` where the bytes run out.
#[tactic(auto, unfolding(crate::specs::Lsn::lsn_at))]
pub fn lsn_at(bytes: &[u8]) -> Option<(Lsn, &[u8])>
    ensures { Gives (λ x. (x.0, x.1.now)) result (lsn_at bytes.now) }
{
    let (file, rest) = u24_at(bytes)?;
    let (offset, rest) = u32_at(rest)?;
    Some((Lsn { file, offset }, rest))
}

/// Adds the bytes that a log sequence number is stored in.
pub fn push_lsn(out: &mut Bytes, lsn: Lsn) -> Result<(), AllocError>
    ensures { OnOk result (out.new ≡ out.old ++ lsn_bytes lsn) }
{
    out.extend_from_slice(&lsn.to_bytes())
}
