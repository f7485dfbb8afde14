// Worked examples of the formats, compared by tests. The crate has nothing else.
#![tactic(auto)]

#[cfg(test)]
mod lawful_blocks;
#[cfg(test)]
mod packets;
#[cfg(test)]
mod refusals;
#[cfg(test)]
mod senders;
#[cfg(test)]
mod shelves;
