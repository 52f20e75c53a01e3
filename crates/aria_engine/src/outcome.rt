ghost use Rattle.std.specs.Prelude.{◌≡◌, false};
ghost use Rattle.aria_engine.specs.Outcomes.{was_refused, was_blank};

/// What a line came to.
#[derive(Clone, Copy, Debug)]
pub enum Outcome {
    /// It is blank, and has no reply.
    Blank,
    /// Its statement was accepted.
    Accepted,
    /// Its statement was refused.
    Refused,
}

impl Outcome {
    pub fn is_refused(self) -> bool
        ensures { result ≡ was_refused self }
    {
        matches!(self, Outcome::Refused)
    }
}

/// What a statement came to.
pub(crate) fn of_statement(refused: bool) -> Outcome
    ensures refused { was_refused result ≡ refused }
    ensures blank { was_blank result ≡ false }
{
    if refused {
        Outcome::Refused
    } else {
        Outcome::Accepted
    }
}
