//! The outside: where texts are read from, where bytes are written to, and the gate that workers
//! pass. The product says what they promise, and no proof says what a file or a terminal does.
#![tactic(auto)]

pub mod files;
pub mod gate;
pub mod memory;
pub mod shelf;
pub mod sink;
pub mod stdout;

pub use files::{FileShelf, Opener};
pub use gate::{Gate, Moment, NoGate};
pub use memory::{MemoryShelf, MemorySink};
pub use shelf::{ReadRefusal, Shelf};
pub use sink::{Sink, WriteFault};
pub use stdout::{Output, StdoutSink};
