ghost use Rattle.std.specs.Prelude.{◌≡◌, ◌≤◌, ◌*◌};
ghost use Rattle.aria_page.specs.Crc.{bits_on, crc_from, checksum};

use crate::crc_table::ahead;

// The remainder after eight bytes, gone on by as many zero bytes as come after them.
fn eight_on(remainder: u32, bytes: &[u8; 8], after: usize) -> u32
    requires { after ≤ 8 }
    ensures { result ≡ bits_on (8 * after) (crc_from remainder bytes.now) }
{
    let [r0, r1, r2, r3] = remainder.to_le_bytes();
    let [b0, b1, b2, b3, b4, b5, b6, b7] = *bytes;
    ahead(b0 ^ r0, after + 7)
        ^ (ahead(b1 ^ r1, after + 6)
            ^ (ahead(b2 ^ r2, after + 5)
                ^ (ahead(b3 ^ r3, after + 4)
                    ^ (ahead(b4, after + 3)
                        ^ (ahead(b5, after + 2) ^ (ahead(b6, after + 1) ^ ahead(b7, after)))))))
}

// The remainder after sixteen bytes.
fn sixteen_on(remainder: u32, first: &[u8; 8], second: &[u8; 8]) -> u32
    ensures { result ≡ crc_from (crc_from remainder first.now) second.now }
{
    eight_on(remainder, first, 8) ^ eight_on(0, second, 0)
}

// The remainder after the bytes in blocks of sixteen, and the fewer than sixteen bytes that are left.
fn blocks_on(remainder: u32, bytes: &[u8]) -> (u32, &[u8])
    ensures { crc_from result.0 result.1.now ≡ crc_from remainder bytes.now }
{
    let mut remainder = remainder;
    let mut rest = bytes;
    while let Some((first, behind)) = rest.split_first_chunk::<8>() {
        let Some((second, behind)) = behind.split_first_chunk::<8>() else {
            break;
        };
        remainder = sixteen_on(remainder, first, second);
        rest = behind;
    }
    (remainder, rest)
}

// The remainder after the bytes, one by one.
fn bytes_on(remainder: u32, bytes: &[u8]) -> u32
    ensures { result ≡ crc_from remainder bytes.now }
{
    let mut remainder = remainder;
    for byte in bytes {
        remainder = ahead(*byte ^ (remainder % 256) as u8, 0) ^ (remainder >> 8);
    }
    remainder
}

/// The CRC-32 of the bytes (docs/FORMATS.md).
#[tactic(auto, unfolding(crate::specs::Crc::checksum))]
pub fn checksum(bytes: &[u8]) -> u32
    ensures { result ≡ checksum bytes.now }
{
    let (remainder, rest) = blocks_on(u32::MAX, bytes);
    bytes_on(remainder, rest) ^ u32::MAX
}
