//! A folder, streams and input in memory, for tests.
mod crash;
mod effect;
mod fate;
mod listing;
mod mem_host;
mod mem_source;
mod seen;
mod zero_page;

pub use fate::Fate;
pub use mem_host::MemHost;
pub use mem_source::MemSource;
