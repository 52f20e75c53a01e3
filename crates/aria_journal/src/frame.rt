ghost use Rattle.std.specs.Prelude.{◌↔◌, IsTrue};
ghost use Rattle.aria_journal.specs.Frames.{IsFrame};

/// The most bytes of a frame.
pub const MAX_FRAME_BYTES: usize = 1_048_576;

/// The size of a frame's length, in bytes.
pub(crate) const LENGTH_BYTES: u64 = 4;

/// Whether a frame may hold these bytes: they are from 1 to `MAX_FRAME_BYTES` (docs/FORMATS.md, "The journal's runs of frames").
pub fn is_frame(bytes: &[u8]) -> bool
    ensures { IsTrue result ↔ IsFrame bytes.now }
{
    1 <= bytes.len() && bytes.len() <= MAX_FRAME_BYTES
}
