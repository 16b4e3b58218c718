//! The adapters of the system: files, and sinks over a writer, for the traits of `esi_links`.
#![tactic(auto)]

pub mod disk_files;
pub mod std_sink;
mod system;

pub use disk_files::DiskFiles;
pub use std_sink::StdSink;
