ghost use Rattle.std.specs.Prelude.{◌≤◌, ◌<◌, ◌+◌, ◌-◌, ◌*◌, ◌^◌};

use aria_page::Page;

/// The log: where it ends in its files, and the page that is filled.
///
/// Pages are numbered through all files: page p of file f has number 1024 * f + p.
#[derive(Drop)]
pub struct Log {
    pub(crate) page: Page,
    /// The number of the page that is filled.
    pub(crate) number: u64,
    /// The first page of the run that is written: those before it are on the disk.
    pub(crate) first: u64,
    /// How many bytes of the body of the page that is filled are used.
    pub(crate) used: u16,
    /// The file of the page that is filled is there.
    pub(crate) there: bool,
    /// The first page that isn't in its file yet: pages of zeros may stand behind the log's end.
    pub(crate) made: u64,
    /// How many pages were written since the log was started, at most `MOST_AHEAD`.
    pub(crate) written: u64,
    /// The number of the log's last file, as it was opened.
    pub(crate) last: u32,
    ghost within: { used ≤ 8176 },
    ghost run: { first ≤ number },
    ghost few: { written ≤ 128 },
    ghost files: { last < 2 ^ 24 },
    ghost room: { 8176 * number + used ≤ 8176 * (2 ^ 34 - 1) },
}
