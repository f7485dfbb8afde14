// The receiver: it hears packets in whatever order they arrive, and hands out each message once it is whole.
// `docs/RECEIVER.md` has its states and its refusals.
#![tactic(auto)]

pub mod answers;
pub mod receiver;
mod stay;
mod steps;
mod unique_id;
