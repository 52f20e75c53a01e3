ghost use Rattle.std.specs.Prelude.{◌≡◌, false};
ghost use Rattle.std.specs.Option.{option_map_or};
ghost use Rattle.aria_readlog.specs.Choice.{is_before, is_within};

use aria_page::Lsn;

/// What is told of the log.
#[derive(Clone, Copy, Debug)]
pub struct Choice {
    /// No group or rest with a lower number.
    pub from: Option<Lsn>,
    /// None with a higher one.
    pub to: Option<Lsn>,
    /// The last line alone.
    pub silent: bool,
}

fn is_before(a: Lsn, b: Lsn) -> bool
    ensures { result ≡ is_before a b }
{
    a.file < b.file || (a.file == b.file && a.offset < b.offset)
}

fn is_below(lsn: Lsn, low: Option<Lsn>) -> bool
    ensures { result ≡ option_map_or (λ low. is_before lsn low) low false }
{
    match low {
        None => false,
        Some(low) => is_before(lsn, low),
    }
}

fn is_above(lsn: Lsn, high: Option<Lsn>) -> bool
    ensures { result ≡ option_map_or (λ high. is_before high lsn) high false }
{
    match high {
        None => false,
        Some(high) => is_before(high, lsn),
    }
}

impl Choice {
    /// Whether what stands at this number is asked for.
    pub(crate) fn is_within(&self, lsn: Lsn) -> bool
        ensures { result ≡ is_within self.now lsn }
    {
        !is_below(lsn, self.from) && !is_above(lsn, self.to)
    }
}
