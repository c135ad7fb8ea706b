//! Sources and sinks of bytes, in memory and over real streams, and the gate before each call.
#![tactic(auto)]

mod cursor;
mod failed;
mod gate;
mod mem_sink;
mod mem_source;
mod no_fault_source;
mod open_gate;
mod retries;
mod sink;
mod source;
mod std_sink;
mod std_source;

pub use failed::Failed;
pub use gate::Gate;
pub use mem_sink::MemSink;
pub use mem_source::MemSource;
pub use no_fault_source::NoFaultSource;
pub use open_gate::OpenGate;
pub use sink::Sink;
pub use source::Source;
pub use std_sink::StdSink;
pub use std_source::StdSource;
