//! The outside of the linker and loader: a shelf of files, the streams that are written to, and who runs next.
//!
//! [`Shelf`] and [`Sink`] say what every implementation keeps. A shelf in memory tells the files that it has, a sink in
//! memory the bytes that it took; the adapters over the file system and the standard streams tell nothing, and count
//! their faults. [`Policy`] says what is kept by all that choose a process, and what more by those of a named kind. A
//! policy is lent in a box and asked before each turn; which process its answer stands for, and for how many cycles, is
//! the same for every policy: [`effective_pick`].
#![tactic(auto)]

mod dir_shelf;
mod draw;
mod drawn;
mod effective;
mod found;
mod kind;
mod last;
pub mod limits;
mod memory_shelf;
mod memory_sink;
mod next;
mod numbered;
mod parts;
mod pick;
mod policy;
mod round;
mod shelf;
mod sink;
mod stored;
mod stream_sink;
mod streams;
mod tally;

pub use dir_shelf::DirShelf;
pub use drawn::DrawnBySeed;
pub use effective::effective_pick;
pub use kind::Kind;
pub use last::LastFirst;
pub use memory_shelf::MemoryShelf;
pub use memory_sink::MemorySink;
pub use parts::put_parts;
pub use pick::Pick;
pub use policy::Policy;
pub use round::RoundRobin;
pub use shelf::{Shelf, ShelfError};
pub use sink::{Sink, SinkError};
pub use stored::Stored;
pub use stream_sink::{ErrSink, OutSink, StreamSink};
