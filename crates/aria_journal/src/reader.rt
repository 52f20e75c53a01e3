//! Collects the frames of the log, page after page.

ghost use Rattle.std.specs.Prelude.{◌≡◌, ◌≤◌, ◌+◌, ◌^◌, ◌++◌, ◌∷◌, [], suc, length, map, IfOk, OnOk, List as Seq, ℕ, false, ◌==◌, if◌then◌else◌};
ghost use Rattle.std.specs.Bool.{MatchBool};
ghost use Rattle.aria_journal.specs.Frames.{frames_in};
ghost use Rattle.aria_journal.specs.Front.{front};
ghost use Rattle.aria_journal.specs.Places.{EndsBefore, pages_from};
ghost use Rattle.aria_journal.specs.Collected.{all_frames, all_pages};

use crate::opened::Frame;
use crate::reading::{push_frames, read_page_of};
use aria_page::{Bytes, LOG_BODY_BYTES, List, Page};
use std::alloc::{AllocError, Global};

/// What was read of the valid front: the frames of the runs before; of the run that goes on its first page, its used
/// bytes, and whether its last page is full.
#[derive(Drop)]
pub(crate) struct Reader {
    pub(crate) frames: List<Frame>,
    first: u32,
    run: Bytes,
    full: bool,
}

impl Reader {
    pub(crate) fn new(alloc: Global) -> Reader
        ensures frames { result.frames ≡ [] }
        ensures first { result.first ≡ 0 }
        ensures run { result.run ≡ [] }
        ensures full { result.full ≡ false }
    {
        Reader {
            frames: List::new(alloc),
            first: 0,
            run: Bytes::new(alloc),
            full: false,
        }
    }

    /// Ends the run: its whole frames join those before.
    pub(crate) fn end_run(&mut self, alloc: Global) -> Result<(), AllocError>
        requires within { EndsBefore self.old.first self.old.run (2 ^ 32) }
        ensures frames { OnOk result (map (λ f. f.bytes) self.new.frames ≡ map (λ f. f.bytes) self.old.frames ++ frames_in self.old.run) }
        ensures starts { OnOk result (map (λ f. f.page) self.new.frames ≡ map (λ f. f.page) self.old.frames ++ pages_from self.old.first 0 (frames_in self.old.run)) }
        ensures run { OnOk result (self.new.run ≡ []) }
    {
        push_frames(alloc, &mut self.frames, self.first, self.run.as_slice())?;
        self.run.clear();
        Ok(())
    }

    /// All frames, those of the last run too.
    pub(crate) fn finish(self, alloc: Global) -> Result<List<Frame>, AllocError>
        requires within { EndsBefore self.first self.run (2 ^ 32) }
        ensures frames { IfOk result (λ frames. map (λ f. f.bytes) frames ≡ map (λ f. f.bytes) self.frames ++ frames_in self.run) }
        ensures starts { IfOk result (λ frames. map (λ f. f.page) frames ≡ map (λ f. f.page) self.frames ++ pages_from self.first 0 (frames_in self.run)) }
    {
        let Reader {
            mut frames,
            first,
            run,
            ..
        } = self;
        push_frames(alloc, &mut frames, first, run.as_slice())?;
        Ok(frames)
    }

    // Adds the bytes of a page that begins a run or goes on with one.
    fn put(
        &mut self,
        alloc: Global,
        number: u32,
        begins: bool,
        bytes: &[u8],
    ) -> Result<(), AllocError>
        requires within { EndsBefore self.old.first self.old.run number }
        requires fits { length bytes.now ≤ 8176 }
        ensures frames { OnOk result (map (λ f. f.bytes) self.new.frames ≡ map (λ f. f.bytes) self.old.frames ++ (if begins then frames_in self.old.run else [])) }
        ensures starts { OnOk result (map (λ f. f.page) self.new.frames ≡ map (λ f. f.page) self.old.frames ++ (if begins then pages_from self.old.first 0 (frames_in self.old.run) else [])) }
        ensures first { OnOk result (self.new.first ≡ (if begins then number else self.old.first)) }
        ensures run { OnOk result (self.new.run ≡ (if begins then [] else self.old.run) ++ bytes.now) }
        ensures full { OnOk result (self.new.full ≡ (length bytes.now == 8176)) }
        ensures within { OnOk result (EndsBefore self.new.first self.new.run (number + 1)) }
    {
        if begins {
            self.end_run(alloc)?;
            self.first = number;
        }
        self.run.extend_from_slice(bytes)?;
        self.full = bytes.len() == LOG_BODY_BYTES;
        Ok(())
    }

    /// Takes the next page, and says whether it is in the valid front.
    pub(crate) fn take(
        &mut self,
        alloc: Global,
        number: u32,
        page: &Page,
    ) -> Result<bool, AllocError>
        requires within { EndsBefore self.old.first self.old.run number }
        ensures within { OnOk result (EndsBefore self.new.first self.new.run (number + 1)) }
        ensures taken { IfOk result (λ taken. (pages : Seq (Seq ℕ))
            → MatchBool taken
            ((length (front number self.old.full (page.now ∷ pages)) ≡ suc (length (front (number + 1) self.new.full pages)))
            × (all_frames (map (λ f. f.bytes) self.old.frames) self.old.run (front number self.old.full (page.now ∷ pages)) ≡ all_frames (map (λ f. f.bytes) self.new.frames) self.new.run (front (number + 1) self.new.full pages))
            × (all_pages (map (λ f. f.page) self.old.frames) self.old.first self.old.run number (front number self.old.full (page.now ∷ pages)) ≡ all_pages (map (λ f. f.page) self.new.frames) self.new.first self.new.run (number + 1) (front (number + 1) self.new.full pages)))
            ((front number self.old.full (page.now ∷ pages) ≡ []) × (self.new.frames ≡ self.old.frames) × (self.new.first ≡ self.old.first) × (self.new.run ≡ self.old.run))) }
    {
        match read_page_of(number, page) {
            None => Ok(false),
            Some((begins, bytes)) => {
                let mut goes_on = begins;
                goes_on |= self.full;
                if !goes_on {
                    return Ok(false);
                }
                self.put(alloc, number, begins, bytes)?;
                Ok(true)
            }
        }
    }
}
