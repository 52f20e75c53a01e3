//! The log: frames of bytes, appended to one file of pages, that no crash tears apart.
//!
//! A `Log` stands over a `Host`. `append` puts a frame at the end, and `force` brings all frames to the disk. At each
//! moment a crash leaves a front of the frames that has every forced one: pages are numbered and have a checksum, and
//! a run of pages, from one force to the next, counts up to its first page that isn't valid.
//!
//! The calls, in their order:
//!
//! ```text
//! match open(alloc, &mut host)? {                         // reads, and changes nothing
//!     Opened::Damaged { page } => ..,                     // the log can't be gone on with
//!     Opened::Sound(mut log, frames) => {                 // to read the frames, this is all
//!         log.start(&mut host)?;                          // once, before the first frame
//!         if is_frame(bytes) && log.has_room(bytes) {     // what `append` asks of any bytes
//!             log.append(&mut host, bytes)?;              // as often as wanted
//!         }
//!         log.force(&mut host)?;                          // all frames are on the disk: append and force again
//!     }
//! }
//! ```
//!
//! `start` asks that each crash now leaves the log's file as it reads, as it is when a run begins; `append` and `force`
//! ask for a log that was started, which `start`, `append` and `force` answer. After a call has answered a fault the log
//! isn't used again: it is opened anew. docs/FORMATS.md has the pages and, in "The journal's runs of frames", the frames.
#![tactic(auto)]

mod calls;
mod filling;
mod frame;
mod log;
mod log_page;
mod opened;
mod reader;
mod reading;
mod scan;
mod start;

pub use frame::{MAX_FRAME_BYTES, is_frame};
pub use log::Log;
pub use opened::{Frame, Opened};
pub use scan::open;

#[cfg(test)]
mod tests;
