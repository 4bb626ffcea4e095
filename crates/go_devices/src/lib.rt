//! Devices: files and sinks of the system, and in memory. What holds of each is said by the traits `Files` and `Sink`.
#![tactic(auto)]

mod call_plan;
mod mem_files;
mod mem_sink;
mod real_files;
mod real_sink;

pub use mem_files::MemFiles;
pub use mem_sink::MemSink;
pub use real_files::RealFiles;
pub use real_sink::RealSink;
