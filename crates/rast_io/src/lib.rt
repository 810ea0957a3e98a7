//! The outside as the program sees it: files and a sink, each with a count of its faults.
//!
//! [`read_all`] and [`write_all`] are what the program calls. [`MemFiles`] and [`MemSink`] stand
//! for files and a sink in memory, [`DiskFiles`] and [`StdSink`] for the real ones.
#![tactic(auto)]

mod calls;
mod disk;
mod mem_files;
mod mem_sink;
mod outside;
mod whole;

pub use disk::{DiskFiles, StdSink};
pub use mem_files::MemFiles;
pub use mem_sink::MemSink;
pub use outside::{Failed, Files, Sink};
pub use whole::{LIMIT, ReadErr, WriteFault, read_all, write_all};
