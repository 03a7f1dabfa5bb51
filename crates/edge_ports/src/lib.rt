//! The outside: sources, sinks, ports and shelves, in memory or over files, and a run's devices.
#![tactic(auto)]

mod boxed_port;
mod calls;
mod devices;
mod failed;
mod file_port;
mod file_shelf;
mod memory_port;
mod memory_shelf;
mod memory_sink;
mod memory_source;
mod octets;
mod port;
mod reading;
mod reason;
mod records;
mod shelf;
mod shelf_file;
mod shelf_log;
mod sink;
mod source;
mod standard;
mod std_sink;
mod std_source;
mod sure_source;
mod unread;
mod writing;

pub use devices::Devices;
pub use failed::Failed;
pub use file_port::FilePort;
pub use file_shelf::FileShelf;
pub use memory_port::MemoryPort;
pub use memory_shelf::MemoryShelf;
pub use memory_sink::MemorySink;
pub use memory_source::MemorySource;
pub use port::Port;
pub use reason::Reason;
pub use shelf::{Shelf, ShelfFault};
pub use shelf_file::ShelfFile;
pub use sink::Sink;
pub use source::Source;
pub use standard::Standard;
pub use std_sink::StdSink;
pub use std_source::StdSource;
pub use sure_source::SureSource;

#[cfg(test)]
mod tests;
