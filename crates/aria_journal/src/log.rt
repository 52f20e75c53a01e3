ghost use Rattle.std.specs.Prelude.{◌≤◌, ◌+◌, ◌*◌, ◌^◌};

use aria_page::Page;

/// The log: its end in the file, and the page that is filled.
#[derive(Drop)]
pub struct Log {
    pub(crate) page: Page,
    pub(crate) number: u32,
    pub(crate) begins: bool,
    pub(crate) used: u16,
    ghost within: { used ≤ 8176 },
    ghost room: { 8176 * number + used ≤ 8176 * 2 ^ 31 },
}
