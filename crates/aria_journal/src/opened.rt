use crate::log::Log;
use aria_page::{Bytes, List};

/// A frame of the log, and the page of its file in which it begins.
#[derive(Debug, Drop)]
pub struct Frame {
    pub bytes: Bytes,
    pub page: u32,
}

/// What the opening of a log finds.
#[derive(Drop)]
pub enum Opened {
    /// The log, which is to be started before anything is appended, and its frames.
    Sound(Log, List<Frame>),
    /// The log is damaged at this page of its file: it isn't valid, and a valid page behind it begins a run.
    Damaged { page: u32 },
}
