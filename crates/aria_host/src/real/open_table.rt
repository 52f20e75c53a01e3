ghost use Rattle.std.specs.Prelude.{◌≡◌, ◌<◌, MatchOption};
ghost use Rattle.aria_host.specs.OpenTable.{is_of, IsPlace, IsClosed};

use crate::FileName;
use crate::real::os::Handle;
use std::array;

/// The most files that are kept open.
const MAX_OPEN: usize = 32;

/// The files that stay open between calls, each with the name that it was opened by. They stand in place.
#[derive(Drop)]
pub(crate) struct OpenTable {
    handles: [Option<Handle>; MAX_OPEN],
    /// The place whose file is closed next, where no place is free.
    next: usize,
}

// Whether a place has the file of that name.
fn is_of(place: &Option<Handle>, name: &FileName) -> bool
    ensures { result ≡ is_of name.now place.now }
{
    match place {
        Some(handle) => handle.name.is_same(name),
        None => false,
    }
}

impl OpenTable {
    pub(crate) fn new() -> OpenTable {
        OpenTable {
            handles: array::from_fn(|_| None),
            next: 0,
        }
    }

    /// The place of an open file.
    #[tactic(auto, using(crate::proofs::Table::read_there, crate::proofs::Table::not_below_more))]
    pub(crate) fn place(&self, name: &FileName) -> Option<usize>
        ensures { MatchOption result (IsClosed name.now self.now.handles) (λ place. IsPlace name.now place self.now.handles) }
    {
        for place in 0..MAX_OPEN {
            if is_of(&self.handles[place], name) {
                return Some(place);
            }
        }
        None
    }

    /// The file at a place.
    pub(crate) fn at(&self, place: usize, name: &FileName) -> &Handle
        requires { IsPlace name.now place self.now.handles }
        ensures { result.now.name ≡ name.now }
    {
        match &self.handles[place] {
            Some(handle) => handle,
            None => unreachable!(),
        }
    }

    // A place with no file, or else the next place in turn.
    fn free_place(&mut self) -> usize
        ensures { result < 32 }
    {
        if let Some(place) = self.handles.iter().position(|place| place.is_none()) {
            return place;
        }
        let place = self.next % MAX_OPEN;
        self.next = place + 1;
        place
    }

    /// Keeps a file open, and says at which place. Another is closed where too many are open.
    pub(crate) fn keep(&mut self, handle: Handle) -> usize
        ensures { IsPlace handle.name result self.new.handles }
    {
        let place = self.free_place();
        self.handles[place] = Some(handle);
        place
    }

    /// Closes the file, if it is open.
    #[tactic(auto, using(crate::proofs::Table::read_there, crate::proofs::Table::not_below_more, crate::proofs::Table::not_below_set))]
    pub(crate) fn close(&mut self, name: &FileName)
        ensures { IsClosed name.now self.new.handles }
    {
        for place in 0..MAX_OPEN {
            if is_of(&self.handles[place], name) {
                self.handles[place] = None;
            }
        }
    }
}
