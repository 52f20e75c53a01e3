//! The control file of a folder that is opened; that of a fresh folder is made.

ghost use Rattle.std.specs.Prelude.{◌≡◌, IsTrue, IsSome, IfOk, OnOk};
ghost use Rattle.aria_host.specs.Calls.{HasDiskCause, HaveNames, Narrows};
ghost use Rattle.aria_control.specs.ControlPage.{IsStorable};
ghost use Rattle.aria_control.specs.Found.{control_file, Finds, IsFoundStorable};
ghost use Rattle.aria_pager.specs.Found.{no_control, AreKept, BeginsControl, HaveBegun, IsDurable, MayBegin, Names};

use aria_control::{Control, Found, write};
use aria_host::{Fault, FileName, Host};
use aria_page::Lsn;

// The control of a folder whose control file names nothing.
fn no_control() -> Control
    ensures none { result ≡ no_control }
    ensures storable { IsStorable result }
{
    Control {
        checkpoint: Lsn { file: 0, offset: 0 },
        redo: Lsn { file: 0, offset: 0 },
    }
}

// Brings the control file to the disk, if it is there.
fn sync_control<H: Host>(host: &mut H) -> Result<(), Fault>
    requires names { IsTrue H.tells → HaveNames (H.state host.old) }
    ensures same { IsTrue H.tells → Narrows (H.state host.old) (H.state host.new) }
    ensures durable { IsTrue H.tells → OnOk result (IsDurable control_file (H.state host.new)) }
    ensures cause { HasDiskCause (H.state host.old) (H.state host.new) result }
{
    match host.look(&FileName::Control)? {
        None => Ok(()),
        Some(_) => host.sync(&FileName::Control),
    }
}

// Makes an empty control file, if there is none.
fn make_file<H: Host>(host: &mut H) -> Result<(), Fault>
    requires begun { IsTrue H.tells → HaveBegun (H.state host.old) }
    ensures begins { IsTrue H.tells → BeginsControl (H.state host.old) (H.state host.new) }
    ensures there { IsTrue H.tells → OnOk result (IsSome ((H.state host.new).folder control_file)) }
    ensures names { IsTrue H.tells → HaveNames (H.state host.old) → OnOk result (HaveNames (H.state host.new)) }
    ensures cause { HasDiskCause (H.state host.old) (H.state host.new) result }
{
    match host.look(&FileName::Control)? {
        None => host.create(&FileName::Control),
        Some(_) => Ok(()),
    }
}

// Makes the control file of a fresh folder, which names nothing, and brings it to the disk.
fn begin<H: Host>(host: &mut H) -> Result<Control, Fault>
    requires begun { IsTrue H.tells → HaveBegun (H.state host.old) }
    requires names { IsTrue H.tells → HaveNames (H.state host.old) }
    ensures begins { IsTrue H.tells → BeginsControl (H.state host.old) (H.state host.new) }
    ensures none { IfOk result (λ control. control ≡ no_control) }
    ensures kept { IsTrue H.tells → OnOk result (AreKept no_control (H.state host.new)) }
    ensures names { IsTrue H.tells → OnOk result (HaveNames (H.state host.new)) }
    ensures storable { IfOk result IsStorable }
    ensures cause { HasDiskCause (H.state host.old) (H.state host.new) result }
{
    make_file(host)?;
    let control = no_control();
    write(host, &control)?;
    Ok(control)
}

/// The control of a folder, whose control file is as found: it is on the disk then, and that of a fresh folder is made.
pub(crate) fn settle_control<H: Host>(host: &mut H, found: Found) -> Result<Control, Fault>
    requires found { IsTrue H.tells → Finds found (H.state host.old).folder }
    requires storable { IsFoundStorable found }
    requires names { IsTrue H.tells → HaveNames (H.state host.old) }
    ensures begins { IsTrue H.tells → MayBegin (H.state host.old) (H.state host.new) }
    ensures named { IsTrue H.tells → IfOk result (Names (H.state host.old).folder) }
    ensures kept { IsTrue H.tells → IfOk result (λ control. AreKept control (H.state host.new)) }
    ensures names { IsTrue H.tells → OnOk result (HaveNames (H.state host.new)) }
    ensures storable { IfOk result IsStorable }
    ensures cause { HasDiskCause (H.state host.old) (H.state host.new) result }
{
    sync_control(host)?;
    match found {
        Found::Kept(control) => Ok(control),
        Found::Fresh => begin(host),
    }
}
