//! The outside of the store: where scripts come from, where replies go, and what tells the time.
//!
//! Each object is a trait, so that a program passes standard input and output and a test passes memory.
//! Where an object can, it tells its bytes; a contract that speaks of content speaks of such objects.
//! Every object counts its faults, so that an answer that blames it can be held to that count.
#![tactic(auto)]

mod clock;
mod failed;
mod gate;
mod list_clock;
mod listed;
mod mem_sink;
mod mem_source;
mod open_gate;
mod pieces;
mod retries;
mod sink;
mod source;
mod std_sink;
mod std_source;
mod still_clock;

pub use clock::Clock;
pub use failed::Failed;
pub use gate::Gate;
pub use list_clock::ListClock;
pub use mem_sink::MemSink;
pub use mem_source::MemSource;
pub use open_gate::OpenGate;
pub use sink::Sink;
pub use source::Source;
pub use std_sink::StdSink;
pub use std_source::StdSource;
pub use still_clock::StillClock;
