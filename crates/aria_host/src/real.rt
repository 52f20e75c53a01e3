//! The current folder and the standard streams.
mod dir_host;
mod open_files;
mod open_table;
mod os;
mod std_source;
mod system;

pub use dir_host::DirHost;
pub use std_source::StdSource;
