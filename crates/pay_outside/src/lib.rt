//! What a run of the solver has outside itself: a shelf to read files from, a sink to write to, and a gate
//! around the work of each worker.
#![tactic(auto)]

mod gate;
mod mem;
mod real;
mod shelf;
mod sink;

pub use gate::{Gate, HoldGate, OpenGate};
pub use mem::{MemShelf, MemSink, SINK_ROOM};
pub use real::{FileShelf, StdSink};
pub use shelf::{Shelf, ShelfFault};
pub use sink::{Sink, SinkFault};

#[cfg(test)]
mod tests;
