// The sender: cuts a message that comes in portions into packets.
#![tactic(auto)]

pub mod closed;
pub mod ids;
pub mod length;
pub mod limits;
pub mod message;
pub mod open;
mod parts;
mod state;
