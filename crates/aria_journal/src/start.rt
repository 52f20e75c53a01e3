//! Starts a log that was opened.

ghost use Rattle.std.specs.Prelude.{◌≡◌, length, IsTrue, OnOk, is_ok};
ghost use Rattle.aria_host.specs.Calls.{HasDiskCause};
ghost use Rattle.aria_journal.specs.Runs.{HoldsFrames};
ghost use Rattle.aria_journal.specs.Log.{IsLog, IsOpened, IsLogAtRest, LogMoments, HasPages, Prepared, log_of, place};

use crate::log::Log;
use crate::log_page::FILE;
use aria_host::{Fault, FileName, Host};

impl Log {
    // Cuts the file to the log's end if it has more pages than so many.
    fn cut_end<H: Host>(&self, host: &mut H, pages: u32) -> Result<(), Fault>
        requires opened { IsTrue H.tells → IsOpened self.now (H.state host.old).folder }
        requires rest { IsTrue H.tells → IsLogAtRest (H.state host.old) }
        requires pages { IsTrue H.tells → HasPages pages (H.state host.old).folder }
        ensures prepared { IsTrue H.tells → Prepared self.now (H.state host.old) (H.state host.new) (is_ok result) }
        ensures cause { HasDiskCause (H.state host.old) (H.state host.new) result }
    {
        if self.number < pages {
            return host.cut(&FileName::Log(FILE), self.number);
        }
        Ok(())
    }

    // Makes the file where it isn't there, and else cuts it to the log's end.
    fn prepare<H: Host>(&self, host: &mut H) -> Result<(), Fault>
        requires opened { IsTrue H.tells → IsOpened self.now (H.state host.old).folder }
        requires rest { IsTrue H.tells → IsLogAtRest (H.state host.old) }
        ensures prepared { IsTrue H.tells → Prepared self.now (H.state host.old) (H.state host.new) (is_ok result) }
        ensures cause { HasDiskCause (H.state host.old) (H.state host.new) result }
    {
        match host.look(&FileName::Log(FILE))? {
            None => host.create(&FileName::Log(FILE)),
            Some(extent) => self.cut_end(host, extent.pages),
        }
    }

    /// Makes the log ready for frames: its file is there, ends where the log does, and is on the disk.
    pub fn start<H: Host>(&mut self, host: &mut H) -> Result<(), Fault>
        requires opened { IsTrue H.tells → IsOpened self.old (H.state host.old).folder }
        requires rest { IsTrue H.tells → IsLogAtRest (H.state host.old) }
        ensures started { IsTrue H.tells → OnOk result (IsLog self.new (H.state host.new) (log_of (H.state host.old).folder) (length (log_of (H.state host.old).folder))) }
        ensures moments { IsTrue H.tells → LogMoments (H.state host.old) (H.state host.new) (λ content. HoldsFrames content (log_of (H.state host.old).folder)) }
        ensures place { place self.new ≡ place self.old }
        ensures cause { HasDiskCause (H.state host.old) (H.state host.new) result }
    {
        self.prepare(host)?;
        host.sync(&FileName::Log(FILE))
    }
}
