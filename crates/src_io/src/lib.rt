//! Where sources are read from and where text goes.
//!
//! Source: names and bytes of a device. Result: whole readings, whole writings, or the device's fault.
//! Rule: this project's own; a device that tells what it holds is described by it, and each failure is counted.
//! Main contract: `read_named` gives the held bytes, `write_all` writes all; Failed only where a count rose.
//! Knows nothing of: what the bytes mean.
#![tactic(auto)]

mod calls;
mod device;
mod file_sources;
mod mem_sink;
mod mem_sources;
mod reading;
mod std_sink;
#[cfg(test)]
mod tests;
mod writing;

pub use device::{Failed, OpenEnd, Sink, Sources};
pub use file_sources::FileSources;
pub use mem_sink::MemSink;
pub use mem_sources::MemSources;
pub use reading::{ReadEnd, read_named};
pub use std_sink::StdSink;
pub use writing::write_all;
