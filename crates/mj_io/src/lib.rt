//! The outside of the program as traits: files that are read, a sink that is written to, and a wire to which
//! lines are presented.
//!
//! Each trait has a count of faults that never falls, and a call answers that it failed only where the count
//! rose in that call. An object may tell what it holds: contracts speak of contents where it does. Objects in
//! memory tell, the adapters over the real things don't.
#![tactic(auto)]

mod files;
mod folder_files;
mod log_wire;
mod memory_files;
mod memory_sink;
mod memory_wire;
mod out_sink;
mod sink;
mod warning;
mod wire;

pub use files::{Files, FilesError};
pub use folder_files::FolderFiles;
pub use log_wire::LogWire;
pub use memory_files::{MemoryFile, MemoryFiles, SureFiles, are_files};
pub use memory_sink::{MemorySink, SureSink};
pub use memory_wire::{MemoryWire, SureWire};
pub use out_sink::OutSink;
pub use sink::{Failed, Sink};
pub use wire::Wire;
