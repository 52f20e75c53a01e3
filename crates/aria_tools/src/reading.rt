//! Reads a script in pieces and runs it.

ghost use Rattle.std.specs.Prelude.{◌≡◌, ◌+◌, ◌-◌, ◌^◌, ◌<◌, ◌≤◌, min, ℕ, [], List, false, length, All, IsTrue, IfOk, IfErr, OnOk, OnErr};
ghost use Rattle.aria_host.specs.Folder.{page_count};
ghost use Rattle.aria_journal.specs.Log.{log_file};
ghost use Rattle.aria_model.specs.World.{World};
ghost use Rattle.aria_model.specs.Script.{lines_of};
ghost use Rattle.aria_engine.specs.Holds.{ReadsAs};
ghost use Rattle.aria_engine.specs.Store.{NoFewerFaults, SameFaults, IsFresh};
ghost use Rattle.aria_engine.specs.Done.{DoesPart, IsFull};
ghost use Rattle.aria_tools.specs.Endings.{Ends, LeavesOtherFiles, RunsWhole, StaysAlone, Took, WasSound, status_of_run};
ghost use Rattle.aria_tools.specs.Held.{clipped};
ghost use Rattle.aria_tools.specs.Pieces.{Fed, IsReady, TakesPiece, NoPiece, supply};
ghost use Rattle.aria_tools.specs.Sessions.{LineStops, RunsOn, RunsFrom};

use crate::session::Session;
use crate::stop::Stop;
use aria_engine::Store;
use aria_host::{Host, Source};
use aria_model::Met;
use aria_page::List as Seq;
use std::alloc::Global;

/// The most bytes of a script.
const MAX_INPUT_BYTES: u64 = 1 << 40;

/// How many bytes are asked for at once.
const PIECE_BYTES: usize = 65_536;

/// What a run came to: whether a statement was refused, or why it stopped, and the exceptions that its statements met.
#[derive(Drop)]
pub struct Ran {
    pub outcome: Result<bool, Stop>,
    pub met: Seq<Met>,
}

// Takes the next bytes, of which so many were taken before; past the most that there may be, one byte is a test.
fn read_piece<S: Source>(input: &mut S, taken: u64, piece: &mut [u8]) -> Result<usize, Stop>
    requires few { taken ≤ 2 ^ 40 }
    requires room { 0 < length piece.old }
    ensures ok { IfOk result (λ n. TakesPiece S.tells n taken piece.new (supply (S.left input.old) (S.taken input.old) (S.faults input.old)) (supply (S.left input.new) (S.taken input.new) (S.faults input.new))) }
    ensures err { IfErr result (λ stop. NoPiece S.tells stop taken (supply (S.left input.old) (S.taken input.old) (S.faults input.old)) (supply (S.left input.new) (S.taken input.new) (S.faults input.new))) }
    ensures later { S.faults input.old ≤ S.faults input.new }
{
    if taken == MAX_INPUT_BYTES {
        if input.read(&mut piece[..1])? > 0 {
            return Err(Stop::TooLong);
        }
        return Ok(0);
    }
    let room = (MAX_INPUT_BYTES - taken).min(piece.len() as u64) as usize;
    Ok(input.read(&mut piece[..room])?)
}

// Answers the lines of the input one after another, up to the last that LF ends, and holds what is behind it.
fn read_script<H: Host, S: Source>(
    alloc: Global,
    host: &mut H,
    input: &mut S,
    session: &mut Session,
    piece: &mut [u8],
) -> Result<(), Stop>
    requires fresh { session.old.held.items ≡ [] }
    requires room { 0 < length piece.old }
    requires ready { IsReady H.tells session.old.store (H.state host.old) }
    ensures ready { OnOk result (IsReady H.tells session.new.store (H.state host.new)) }
    ensures done { OnOk result ((read : List ℕ) × (rest : List ℕ) × (length read ≤ 2 ^ 40)
        × Took S.tells read (supply (S.left input.old) (S.taken input.old) (S.faults input.old)) (supply (S.left input.new) (S.taken input.new) (S.faults input.new))
        × (IsTrue S.tells → S.left input.new ≡ [])
        × (session.new.held.items ≡ clipped rest)
        × Fed H.tells [] read rest session.old.store session.new.store session.old.refused session.new.refused (H.state host.old) (H.state host.new)) }
    ensures part { OnErr result (IsTrue S.tells → DoesPart H.tells (lines_of (S.left input.old)) session.old.store session.new.store (H.state host.old) (H.state host.new)) }
    ensures cause { IfErr result (λ stop. LineStops S.tells H.tells stop
        (supply (S.left input.old) (S.taken input.old) (S.faults input.old)) (supply (S.left input.new) (S.taken input.new) (S.faults input.new))
        session.old.store session.new.store (H.state host.old) (H.state host.new)) }
    ensures silent { IsTrue H.tells → (H.state host.new).err ≡ (H.state host.old).err }
    ensures alone { IsTrue H.tells → StaysAlone (H.state host.old) (H.state host.new) }
    ensures calm { OnOk result (SameFaults (H.state host.old) (H.state host.new)) }
    ensures calm_too { OnOk result (S.faults input.new ≡ S.faults input.old) }
    ensures later { NoFewerFaults (H.state host.old) (H.state host.new) }
{
    let mut taken = 0;
    'pieces: loop {
        let n = read_piece(input, taken, piece)?;
        if n == 0 {
            return Ok(());
        }
        taken += n as u64;
        session.feed(alloc, host, &piece[..n])?;
    }
}

// Runs the script that the input has left, tells what it tells, and says whether a statement was refused.
fn run_session<H: Host, S: Source>(
    alloc: Global,
    host: &mut H,
    input: &mut S,
    session: &mut Session,
) -> Result<bool, Stop>
    requires fresh { session.old.held.items ≡ [] }
    requires refused { session.old.refused ≡ false }
    requires ready { IsReady H.tells session.old.store (H.state host.old) }
    ensures runs { RunsOn S.tells H.tells
        (supply (S.left input.old) (S.taken input.old) (S.faults input.old)) (supply (S.left input.new) (S.taken input.new) (S.faults input.new))
        result session.old.store session.new.store (H.state host.old) (H.state host.new) }
{
    let mut piece = vec![in alloc; 0; PIECE_BYTES]?;
    read_script(alloc, host, input, session, &mut piece)?;
    session.finish(alloc, host)
}

// Runs the script that the input has left on an opened store.
fn run_store<H: Host, S: Source>(alloc: Global, host: &mut H, input: &mut S, store: Store) -> Ran
    requires fresh { IsFresh store }
    requires ready { IsReady H.tells store (H.state host.old) }
    ensures runs { RunsFrom S.tells H.tells
        (supply (S.left input.old) (S.taken input.old) (S.faults input.old)) (supply (S.left input.new) (S.taken input.new) (S.faults input.new))
        result.outcome result.met store (H.state host.old) (H.state host.new) }
{
    let mut session = Session::new(alloc, store);
    let outcome = run_session(alloc, host, input, &mut session);
    let met = session.take_met(alloc);
    Ran { outcome, met }
}

/// Opens the store of the folder, and runs the script that the input has left on it.
pub fn run<H: Host, S: Source>(alloc: Global, host: &mut H, input: &mut S) -> Ran
    ensures ends { Ends S.tells H.tells
        (supply (S.left input.old) (S.taken input.old) (S.faults input.old)) (supply (S.left input.new) (S.taken input.new) (S.faults input.new))
        result.outcome (H.state host.old) (H.state host.new) }
    ensures runs { IsTrue S.tells → IsTrue H.tells → (world : World) → ReadsAs (H.state host.old) world → RunsWhole
        (supply (S.left input.old) (S.taken input.old) (S.faults input.old)) (supply (S.left input.new) (S.taken input.new) (S.faults input.new))
        world result.met result.outcome (H.state host.old) (H.state host.new) }
    ensures sound { IsTrue H.tells → WasSound result.outcome (H.state host.old).folder }
    ensures full { IsTrue S.tells → IsTrue H.tells → All (IsFull (lines_of (S.left input.old)) 0 (page_count log_file (H.state host.old).folder)) result.met }
    ensures silent { IsTrue H.tells → (H.state host.new).err ≡ (H.state host.old).err }
    ensures others { IsTrue H.tells → LeavesOtherFiles (H.state host.old) (H.state host.new) }
    ensures untouched { status_of_run result.outcome ≡ 5 → input.new ≡ input.old }
    ensures later { NoFewerFaults (H.state host.old) (H.state host.new) }
{
    match Store::open(alloc, host) {
        Ok(store) => run_store(alloc, host, input, store),
        Err(fault) => Ran {
            outcome: Err(Stop::from(fault)),
            met: Seq::new(alloc),
        },
    }
}
