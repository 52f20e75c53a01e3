//! The command `read_log`.

ghost use Rattle.std.specs.Prelude.{◌≡◌, ◌≢◌, ◌⊎◌, ◌++◌, ℕ, List, [], Err, IsTrue};
ghost use Rattle.aria_host.specs.Count.{Rose};
ghost use Rattle.aria_host.specs.declared.fault.Fault.{Fault as Failure};
ghost use Rattle.aria_engine.specs.Store.{SameFaults};
ghost use Rattle.aria_readlog.specs.Display.{Answers, DamagedAt, IsDisplay, IsSound, IsTold};
ghost use Rattle.aria_tools.specs.LogEndings.{IsLogStatus, OnlyTells, TellsLogStatus, as_run, whole_log};

use crate::ending::{Ended, end};
use crate::stop::Stop;
use aria_host::{Fault, Host};
use aria_page::List as Seq;
use aria_readlog::display;
use std::alloc::Global;

// What was answered, as a run ends.
fn as_run(shown: Result<(), Fault>) -> Result<bool, Stop>
    ensures { result ≡ as_run shown }
{
    match shown {
        Ok(()) => Ok(false),
        Err(fault) => Err(Stop::Fault(fault)),
    }
}

/// Tells what stands in the log of the folder: a line for each record and each void rest, and a last line that counts
/// them; or `silent` the last line alone. Nothing is changed, and no exception is listed.
pub fn read_log<H: Host>(alloc: Global, host: &mut H, silent: bool) -> Ended
    ensures statuses { IsLogStatus result.status }
    ensures met { result.met ≡ [] }

    // With 0 the log is sound, and all of its lines were told. There is no other list of them.
    ensures sound { result.status ≡ 0 → IsTrue H.tells → IsSound (H.state host.old).folder }
    ensures told { result.status ≡ 0 → IsTrue H.tells → (lines : List ℕ) × (last : List ℕ) × IsDisplay (H.state host.old).folder (whole_log silent) lines last
        × ((H.state host.new).out ≡ (H.state host.old).out ++ (lines ++ last)) }
    ensures told_only { result.status ≡ 0 → IsTrue H.tells → (lines last : List ℕ) → IsDisplay (H.state host.old).folder (whole_log silent) lines last
        → (H.state host.new).out ≡ (H.state host.old).out ++ (lines ++ last) }
    ensures calm { result.status ≡ 0 → SameFaults (H.state host.old) (H.state host.new) }

    // A folder in which a fault stands doesn't end with 0, nor a sound one with 5.
    ensures damage { IsTrue H.tells → (fault : Failure) → Answers (Err fault) (H.state host.old).folder → result.status ≢ 0 }
    ensures no_damage { IsTrue H.tells → IsSound (H.state host.old).folder → result.status ≢ 5 }

    // With 5 all lines but the last were told where the log is damaged.
    ensures damaged_told { result.status ≡ 5 → IsTrue H.tells → (file page : ℕ) → DamagedAt (H.state host.old).folder file page
        → (lines : List ℕ) × (last : List ℕ) × IsDisplay (H.state host.old).folder (whole_log silent) lines last
        × ((H.state host.new).out ≡ (H.state host.old).out ++ lines) }

    // However it ends, a front of the lines was told, and nothing is changed.
    ensures part { IsTrue H.tells → IsTold (H.state host.old).folder (whole_log silent) (H.state host.old).out (H.state host.new).out }
    ensures kept { IsTrue H.tells → OnlyTells silent (H.state host.old) (H.state host.new) }

    // 4 and 7: the disk, or a stream, failed.
    ensures disk_fault { result.status ≡ 4 → Rose (H.state host.old).disk_faults (H.state host.new).disk_faults }
    ensures tell_fault { result.status ≡ 7 → Rose (H.state host.old).tell_faults (H.state host.new).tell_faults }

    // It ends with 0 or 5, or for want of memory, where no fault is counted.
    ensures complete { (¬ Rose (H.state host.old).disk_faults (H.state host.new).disk_faults) → (¬ Rose (H.state host.old).tell_faults (H.state host.new).tell_faults)
        → (result.status ≡ 0) ⊎ ((result.status ≡ 5) ⊎ (result.status ≡ 3)) }

    // On standard error stands the line of the status, or a front of it where telling failed.
    ensures error_text { IsTrue H.tells → TellsLogStatus result.status (H.state host.old) (H.state host.new) }
{
    let shown = display(alloc, host, None, None, silent);
    let outcome = as_run(shown);
    Ended {
        status: end(alloc, host, &outcome),
        met: Seq::new(alloc),
    }
}
