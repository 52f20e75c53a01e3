//! The command line as a call.

ghost use Rattle.std.specs.Prelude.{◌≡◌, ◌≢◌, ◌⊎◌, ◌↔◌, ◌+◌, ◌^◌, ◌≤◌, ◌++◌, ℕ, Bool, List, [], Err, All, length, take, IsTrue};
ghost use Rattle.aria_host.specs.Count.{Rose};
ghost use Rattle.aria_host.specs.Calls.{SameImages};
ghost use Rattle.aria_host.specs.declared.fault.Fault.{Fault as Failure};
ghost use Rattle.aria_host.specs.Folder.{page_count};
ghost use Rattle.aria_host.specs.State.{LeavesOnly};
ghost use Rattle.aria_journal.specs.Log.{log_file};
ghost use Rattle.aria_model.specs.World.{World};
ghost use Rattle.aria_model.specs.Script.{any_refused, lines_of, statements, told, world_after};
ghost use Rattle.aria_model.specs.Journal.{met_at};
ghost use Rattle.aria_engine.specs.Holds.{EachHolds, EachHoldsSome, HoldsSome, ReadsAs, Holds, AtRest, IsSettled};
ghost use Rattle.aria_engine.specs.Store.{SameFaults};
ghost use Rattle.aria_engine.specs.Done.{IsFull};
ghost use Rattle.aria_tools.specs.Endings.{AnswersEnded, AnswersFull, BeganOrPrefix, ChangesNothing, Counts, IsStatus, LeavesOtherFiles, MeetsAllDue, MeetsDue, Prefix, TellsStatus};
ghost use Rattle.aria_tools.specs.Pieces.{supply};
ghost use Rattle.aria_readlog.specs.Display.{Answers, DamagedAt, IsDisplay, IsSound, IsTold};
ghost use Rattle.aria_tools.specs.LogEndings.{IsLogStatus, OnlyTells, TellsLogStatus, whole_log};
ghost use Rattle.aria_tools.specs.Words.{AsksForLog, IsReadLog, IsRun};

use crate::ending::Ended;
use crate::read_log::read_log;
use crate::run_script::run_script;
use crate::words::{Command, WordList};
use aria_host::{Host, Source};
use std::alloc::Global;

/// Carries out a command line. `run` executes the script that `input` has left on the tables of the folder; `read_log`
/// tells what stands in the log, and changes nothing.
///
/// Statuses: 0, all was executed, or told; 1, and a statement was refused; 2, bad words; 3, want of memory, which may come
/// at any time; 4, the disk failed; 5, the folder is damaged; 6, the input failed; 7, standard output failed; 8, the input
/// has more than 2^40 bytes. The clauses on bytes and folders speak where the host and the input tell what they hold.
pub fn aria<H: Host, S: Source>(
    alloc: Global,
    words: &WordList,
    host: &mut H,
    input: &mut S,
) -> Ended
    // At each moment a crash leaves the tables after the first k statements, for a k not below the number of those that
    // were acknowledged by then, and each byte told by then is of these k statements.
    ensures any_moment { (¬ AsksForLog words.now) → IsTrue H.tells → IsTrue S.tells → (world : World) → EachHolds (H.state host.old) world
        → LeavesOnly (H.state host.old) (H.state host.new) (Prefix world (lines_of (S.left input.old)) (met_at result.met) (H.state host.old).out) }

    // Whatever a crash might have left as the run began, as behind a run that was killed: a crash leaves that, with
    // nothing told, or the tables after the first k statements, on those that the folder read as.
    ensures any_moment_read { (¬ AsksForLog words.now) → IsTrue H.tells → IsTrue S.tells → (world : World) → ReadsAs (H.state host.old) world
        → LeavesOnly (H.state host.old) (H.state host.new) (BeganOrPrefix (H.state host.old) world (lines_of (S.left input.old)) (met_at result.met)) }

    // Where each folder that a crash might have left held some tables, each holds some at every moment. So the next run
    // begins so too, however this one ends.
    ensures any_moment_held { IsTrue H.tells → IsTrue S.tells → EachHoldsSome (H.state host.old) → LeavesOnly (H.state host.old) (H.state host.new) (λ c b. HoldsSome c) }

    // However it ends, and whatever the folder held: files other than the log's are left as they are.
    ensures others { IsTrue H.tells → LeavesOtherFiles (H.state host.old) (H.state host.new) }

    // Exactly the statements are refused for want of room in the log, and listed, that begin with the log full and that a
    // spent log refuses: each once, in their order.
    ensures met_due { (¬ AsksForLog words.now) → result.status ≢ 2 → IsTrue S.tells → IsTrue H.tells → (world : World) → ReadsAs (H.state host.old) world
        → MeetsDue world (lines_of (S.left input.old)) result.met (H.state host.old) (H.state host.new) }
    ensures done_met { (¬ AsksForLog words.now) → result.status ≤ 1 → IsTrue S.tells → IsTrue H.tells → (world : World) → ReadsAs (H.state host.old) world
        → MeetsAllDue world (lines_of (S.left input.old)) result.met (H.state host.old) (H.state host.new) }

    // None is where the statements before it can't have filled the log.
    ensures met { IsTrue S.tells → IsTrue H.tells → All (IsFull (lines_of (S.left input.old)) 0 (page_count log_file (H.state host.old).folder)) result.met }
    ensures statuses { IsStatus result.status }

    // 2 comes exactly at other words, and then nothing is read, told on standard output or changed.
    ensures bad_words { (result.status ≡ 2) ↔ ((¬ IsRun words.now) × (¬ AsksForLog words.now)) }
    ensures bad_words_read { result.status ≡ 2 → input.new ≡ input.old }
    ensures bad_words_met { result.status ≡ 2 → result.met ≡ [] }
    ensures bad_words_told { result.status ≡ 2 → IsTrue H.tells → (H.state host.new).out ≡ (H.state host.old).out }
    ensures bad_words_kept { result.status ≡ 2 → IsTrue H.tells → ChangesNothing (H.state host.old) (H.state host.new) }
    ensures bad_words_images { result.status ≡ 2 → IsTrue H.tells → SameImages (H.state host.old) (H.state host.new) }

    // With 0 or 1 all of the input was read, and what its lines tell was told; 1 says that a reply was a refusal. The
    // folder is at rest and holds the tables after all statements. No fault was counted.
    ensures done_read { (¬ AsksForLog words.now) → result.status ≤ 1 → IsTrue S.tells → S.left input.new ≡ [] }
    ensures done_told { (¬ AsksForLog words.now) → result.status ≤ 1 → IsTrue S.tells → IsTrue H.tells → (world : World) → ReadsAs (H.state host.old) world
        → (H.state host.new).out ≡ (H.state host.old).out ++ told world (lines_of (S.left input.old)) (met_at result.met) }
    ensures done_refused { (¬ AsksForLog words.now) → result.status ≤ 1 → IsTrue S.tells → IsTrue H.tells → (world : World) → ReadsAs (H.state host.old) world
        → ((result.status ≡ 1) ↔ IsTrue (any_refused world (lines_of (S.left input.old)) (met_at result.met))) }
    ensures done_rest { (¬ AsksForLog words.now) → result.status ≤ 1 → IsTrue S.tells → IsTrue H.tells → (world : World) → ReadsAs (H.state host.old) world → AtRest (H.state host.new) }
    ensures done_settled { (¬ AsksForLog words.now) → result.status ≤ 1 → IsTrue S.tells → IsTrue H.tells → (world : World) → ReadsAs (H.state host.old) world → IsSettled (H.state host.new).folder }
    ensures done_holds { (¬ AsksForLog words.now) → result.status ≤ 1 → IsTrue S.tells → IsTrue H.tells → (world : World) → ReadsAs (H.state host.old) world
        → Holds (H.state host.new).folder (world_after world (statements (lines_of (S.left input.old))) (met_at result.met)) }
    ensures done_calm { result.status ≤ 1 → SameFaults (H.state host.old) (H.state host.new) }
    ensures done_calm_too { result.status ≤ 1 → S.faults input.new ≡ S.faults input.old }

    // Else a front of it was told.
    ensures part_told { (¬ AsksForLog words.now) → result.status ≢ 2 → IsTrue S.tells → IsTrue H.tells → (world : World) → ReadsAs (H.state host.old) world
        → (n : ℕ) × ((H.state host.new).out ≡ (H.state host.old).out ++ take n (told world (lines_of (S.left input.old)) (met_at result.met))) }

    // A damaged folder is refused: but with 2 to 5 it held tables as the call began.
    ensures sound { (¬ AsksForLog words.now) → (result.status ≤ 1) ⊎ (6 ≤ result.status) → IsTrue H.tells → (world : World) × Holds (H.state host.old).folder world }

    // 4: the disk failed.
    ensures disk_fault { result.status ≡ 4 → Rose (H.state host.old).disk_faults (H.state host.new).disk_faults }

    // 5: the folder is damaged (`error_text` says of what), and left as it was; nothing was read.
    ensures damage_kept { (¬ AsksForLog words.now) → result.status ≡ 5 → IsTrue H.tells → ChangesNothing (H.state host.old) (H.state host.new) }
    ensures damage_read { result.status ≡ 5 → input.new ≡ input.old }

    // 6: the input failed. All lines are answered that LF ends in the bytes taken.
    ensures input_fault { result.status ≡ 6 → Rose (S.faults input.old) (S.faults input.new) }
    ensures input_fault_told { result.status ≡ 6 → IsTrue S.tells → IsTrue H.tells → (world : World) → ReadsAs (H.state host.old) world → AnswersEnded
        (supply (S.left input.old) (S.taken input.old) (S.faults input.old)) (supply (S.left input.new) (S.taken input.new) (S.faults input.new))
        world (met_at result.met) (H.state host.old) (H.state host.new) }

    // 7: a stream failed.
    ensures tell_fault { result.status ≡ 7 → Rose (H.state host.old).tell_faults (H.state host.new).tell_faults }

    // 8: exactly where 2^40 bytes were taken and a further one. All lines are answered that LF ends in the former.
    ensures too_long { result.status ≡ 8 → Counts (S.taken input.old) (2 ^ 40 + 1) (S.taken input.new) }
    ensures too_long_always { S.taken input.old + 2 ^ 40 + 1 ≤ S.taken input.new → result.status ≡ 8 }
    ensures too_long_told { result.status ≡ 8 → IsTrue S.tells → IsTrue H.tells → (world : World) → ReadsAs (H.state host.old) world → AnswersFull
        (supply (S.left input.old) (S.taken input.old) (S.faults input.old)) (supply (S.left input.new) (S.taken input.new) (S.faults input.new))
        world (met_at result.met) (H.state host.old) (H.state host.new) }

    // It ends with 0 or 1, or for want of memory, where the folder holds tables, the input is short enough and no fault is counted.
    ensures complete { IsRun words.now → IsTrue S.tells → IsTrue H.tells → (world : World) → ReadsAs (H.state host.old) world
        → length (S.left input.old) ≤ 2 ^ 40 → (¬ Rose (H.state host.old).disk_faults (H.state host.new).disk_faults)
        → (¬ Rose (H.state host.old).tell_faults (H.state host.new).tell_faults) → (¬ Rose (S.faults input.old) (S.faults input.new))
        → (result.status ≤ 1) ⊎ (result.status ≡ 3) }

    // On standard error stands the line of the status, or a front of it where telling failed.
    ensures error_text { (¬ AsksForLog words.now) → IsTrue H.tells → TellsStatus result.status (H.state host.old) (H.state host.new) }

    // Words that ask for the log: a line for each record of it and a last line, or silent the last line alone. With 0 the
    // log is sound, and all of that was told. There is no other list of lines.
    ensures read_log_statuses { AsksForLog words.now → IsLogStatus result.status }
    ensures read_log_input { AsksForLog words.now → input.new ≡ input.old }
    ensures read_log_met { AsksForLog words.now → result.met ≡ [] }
    ensures read_log_sound { AsksForLog words.now → result.status ≡ 0 → IsTrue H.tells → IsSound (H.state host.old).folder }
    ensures read_log_told { (silent : Bool) → IsReadLog words.now silent → result.status ≡ 0 → IsTrue H.tells → (lines : List ℕ) × (last : List ℕ) × IsDisplay (H.state host.old).folder (whole_log silent) lines last
        × ((H.state host.new).out ≡ (H.state host.old).out ++ (lines ++ last)) }
    ensures read_log_told_only { (silent : Bool) → IsReadLog words.now silent → result.status ≡ 0 → IsTrue H.tells → (lines last : List ℕ) → IsDisplay (H.state host.old).folder (whole_log silent) lines last
        → (H.state host.new).out ≡ (H.state host.old).out ++ (lines ++ last) }

    // A folder in which a fault stands doesn't end with 0, nor a sound one with 5.
    ensures read_log_damage { AsksForLog words.now → IsTrue H.tells → (fault : Failure) → Answers (Err fault) (H.state host.old).folder → result.status ≢ 0 }
    ensures read_log_no_damage { AsksForLog words.now → IsTrue H.tells → IsSound (H.state host.old).folder → result.status ≢ 5 }

    // With 5 all lines but the last were told where the log is damaged.
    ensures read_log_damaged_told { (silent : Bool) → IsReadLog words.now silent → result.status ≡ 5 → IsTrue H.tells → (file page : ℕ) → DamagedAt (H.state host.old).folder file page
        → (lines : List ℕ) × (last : List ℕ) × IsDisplay (H.state host.old).folder (whole_log silent) lines last
        × ((H.state host.new).out ≡ (H.state host.old).out ++ lines) }

    // However it ends, a front of the lines was told, and nothing is changed.
    ensures read_log_part { (silent : Bool) → IsReadLog words.now silent → IsTrue H.tells → IsTold (H.state host.old).folder (whole_log silent) (H.state host.old).out (H.state host.new).out }
    ensures read_log_kept { (silent : Bool) → IsReadLog words.now silent → IsTrue H.tells → OnlyTells silent (H.state host.old) (H.state host.new) }

    // It ends with 0 or 5, or for want of memory, where no fault is counted.
    ensures read_log_complete { AsksForLog words.now → (¬ Rose (H.state host.old).disk_faults (H.state host.new).disk_faults) → (¬ Rose (H.state host.old).tell_faults (H.state host.new).tell_faults)
        → (result.status ≡ 0) ⊎ ((result.status ≡ 5) ⊎ (result.status ≡ 3)) }

    // On standard error stands the line of the status, or a front of it where telling failed.
    ensures read_log_error_text { AsksForLog words.now → IsTrue H.tells → TellsLogStatus result.status (H.state host.old) (H.state host.new) }
{
    match words.command() {
        Some(Command::ReadLog { silent }) => read_log(alloc, host, silent),
        _ => run_script(alloc, words, host, input),
    }
}
