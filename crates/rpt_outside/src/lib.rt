//! What lies outside of the program, as traits whose meaning is written down: files, sinks of bytes, and gates.
//!
//! The program reaches a file or a stream through `Files` and `Sink` alone. Their contracts tie each failure to a count
//! of faults that rose, and what was read or put to the bytes that the implementation tells, where it tells any. So the
//! layers above are proved against whatever folder or stream they get, and tested with files and sinks in memory whose
//! calls fail by number. `read_whole` reads one file to its end within a limit.
#![tactic(auto)]

mod errors;
mod folder;
mod held_files;
mod meet_gate;
mod memory_files;
mod memory_sink;
mod stream;
mod traits;
mod whole;

pub use errors::ReadError;
pub use folder::FolderFiles;
pub use held_files::HeldFiles;
pub use meet_gate::MeetGate;
pub use memory_files::MemoryFiles;
pub use memory_sink::MemorySink;
pub use stream::StreamSink;
pub use traits::{Failed, Files, Gate, OpenGate, Sink};
pub use whole::read_whole;
