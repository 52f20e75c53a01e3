use aria_page::Page;

/// What a crash does to a write or a cut that wasn't synced.
#[derive(Clone, Copy, Debug)]
pub enum Fate {
    Kept,
    Lost,
    /// The page holds these bytes. It counts as `Lost` but for a page of the log that is given a page that isn't sound.
    Torn(Page),
}
