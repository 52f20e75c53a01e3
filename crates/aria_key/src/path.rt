//! The way from a root down to a leaf.

ghost use Rattle.std.specs.Prelude.{◌≡◌, ◌+◌, ◌<◌, [], ◌∷◌, ◌++◌, ◌≤◌, MatchOption, IfSome};
ghost use Rattle.aria_key.specs.Path.{passed, IsTop};

/// The most levels of a tree that are read.
pub const MAX_LEVELS: usize = 16;

/// A node that was passed on the way down, and which of its children came next, from 0 on.
#[derive(Clone, Copy)]
pub struct Passed {
    pub page: u32,
    pub at: usize,
}

/// The nodes that were passed, from the root on.
#[derive(Clone, Copy)]
pub struct Path {
    steps: [Passed; MAX_LEVELS],
    len: usize,
}

impl Path {
    // The way to the root.
    pub(crate) fn new() -> Path
        ensures passed { passed result ≡ [] }
        ensures len { result.len ≡ 0 }
    {
        Path {
            steps: [Passed { page: 0, at: 0 }; MAX_LEVELS],
            len: 0,
        }
    }

    // Goes back up to the last node that was passed, and forgets it; none at the root.
    pub(crate) fn up(&mut self) -> Option<Passed>
        ensures { MatchOption result (passed self.old ≡ []) (λ step. passed self.old ≡ passed self.new ++ step ∷ []) }
    {
        let len = if self.len < MAX_LEVELS {
            self.len
        } else {
            MAX_LEVELS
        };
        if len == 0 {
            return None;
        }
        self.len = len - 1;
        Some(self.steps[len - 1])
    }

    // How many nodes were passed.
    pub(crate) fn len(&self) -> usize
        ensures { result ≡ self.now.len }
    {
        self.len
    }

    // Whether no node was passed.
    pub(crate) fn is_empty(&self) -> bool
        requires { self.now.len ≤ MAX_LEVELS }
        ensures empty { IsTop result (passed self.now) }
    {
        self.len == 0
    }

    // The way goes on through this child of a node.
    pub(crate) fn push(&mut self, step: Passed)
        requires { self.old.len < MAX_LEVELS }
        ensures passed { passed self.new ≡ passed self.old ++ step ∷ [] }
        ensures len { self.new.len ≡ self.old.len + 1 }
    {
        self.steps[self.len] = step;
        self.len += 1;
    }

    // The last step of the way, which then ends before it; none at the root.
    pub(crate) fn pop(&mut self) -> Option<Passed>
        requires { self.old.len ≤ MAX_LEVELS }
        ensures passed { MatchOption result ((passed self.old ≡ []) × (self.new ≡ self.old)) (λ step. passed self.old ≡ passed self.new ++ step ∷ []) }
        ensures len { IfSome result (λ step. self.old.len ≡ self.new.len + 1) }
    {
        if self.len == 0 {
            return None;
        }
        self.len -= 1;
        Some(self.steps[self.len])
    }
}
