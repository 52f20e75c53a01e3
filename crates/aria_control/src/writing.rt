//! Writes the control file.

ghost use Rattle.std.specs.Prelude.{IsTrue, IsSome, OnOk, is_ok};
ghost use Rattle.aria_host.specs.State.{LeavesOnly};
ghost use Rattle.aria_host.specs.Calls.{HasDiskCause};
ghost use Rattle.aria_host.specs.Folder.{Folder, with_page};
ghost use Rattle.aria_control.specs.declared.found.Found.TheVariants.{Kept};
ghost use Rattle.aria_control.specs.Found.{control_file, Finds};
ghost use Rattle.aria_control.specs.ControlPage.{control_page, IsStorable};
ghost use Rattle.aria_control.specs.Written.{Puts, AtControl, IsNamed, Keeps};

use crate::control::{Control, page_of};
use aria_host::{Fault, FileName, Host};

/// Puts these two on the control file's page, and brings the file to the disk. The file has to be there. Its name is on
/// the disk once it was made or the folder's names were listed; else a crash may take it.
///
/// After an `Err` the page may be the one as it was or the new one, also in what a crash leaves.
pub fn write<H: Host>(host: &mut H, control: &Control) -> Result<(), Fault>
    requires { IsTrue H.tells → IsSome ((H.state host.old).folder control_file) }
    ensures puts { IsTrue H.tells → Puts (control_page control.now) (H.state host.old) (H.state host.new) (is_ok result) }
    ensures moments { IsTrue H.tells → LeavesOnly (H.state host.old) (H.state host.new) (AtControl (control_page control.now) (H.state host.old)) }
    ensures kept { IsTrue H.tells → IsStorable control.now → OnOk result (Keeps control.now (H.state host.new)) }
    ensures named { IsTrue H.tells → IsNamed (H.state host.old) → IsNamed (H.state host.new) }
    ensures found { IsStorable control.now → (folder : Folder) → IsSome (folder control_file) → Finds (Kept control.now) (with_page control_file 0 (control_page control.now) folder) }
    ensures cause { HasDiskCause (H.state host.old) (H.state host.new) result }
{
    let page = page_of(control);
    host.write_page(&FileName::Control, 0, &page)?;
    host.sync(&FileName::Control)
}
