//! Where bytes come from and where they go: sources and sinks that count their faults, in memory and
//! over any reader or writer, and the two loops that read all and write all.
#![tactic(auto)]

mod mem_sink;
mod mem_source;
mod read;
mod sink;
mod source;
mod std_sink;
mod std_source;
#[cfg(test)]
mod tests;
mod turn;
mod write;

pub use mem_sink::MemSink;
pub use mem_source::MemSource;
pub use read::{ReadStop, read_all};
pub use sink::Sink;
pub use source::Source;
pub use std_sink::StdSink;
pub use std_source::StdSource;
pub use turn::{Failed, Turn};
pub use write::write_all;
