//! The outside: files, sinks of octets and links, which a program reaches only through the traits
//! of this crate, with forms of them in memory, and the two calls that read and write whole texts.
#![tactic(auto)]

pub mod calls;
pub mod files;
mod holding;
pub mod limits;
pub mod links;
pub mod memory_files;
pub mod memory_sink;
pub mod note;
pub mod noting_files;
pub mod sink;
pub mod stop;
pub mod sure_files;
pub mod sure_links;
pub mod sure_sink;
pub mod whole;

pub use calls::Calls;
pub use files::Files;
pub use links::{Entry, Event, Links};
pub use memory_files::MemoryFiles;
pub use memory_sink::MemorySink;
pub use note::Note;
pub use noting_files::NotingFiles;
pub use sink::Sink;
pub use stop::{LinkStop, OutStop};
pub use sure_files::{SureFiles, sure_files_law};
pub use sure_links::{SureLinks, sure_links_law};
pub use sure_sink::{SureSink, sure_sink_law};
pub use whole::{read_whole, write_whole};
