// What every layer of the link shares: numbers as bytes in either byte order, the refusal, common limits.
#![tactic(auto)]

pub mod limits;
pub mod order;
pub mod refusal;
