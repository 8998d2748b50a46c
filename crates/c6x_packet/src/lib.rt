//! Execute packets: the instructions that issue in one cycle, and what may stand together in one
//! (SPRU732, "Parallel Operations" and "Resource Constraints").

#![tactic(auto)]

mod chain;
mod crosses;
mod error;
mod laws;
mod packet;
mod pairs;
mod rule;
mod sides;
mod splitting;
mod units;

pub use chain::is_chain;
pub use error::PacketError;
pub use laws::split_is_packet_or_first_broken;
pub use packet::Packet;
pub use splitting::split;
