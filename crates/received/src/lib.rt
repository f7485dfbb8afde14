// Worked runs of a receiver, compared by tests. The crate has nothing else.
#![tactic(auto)]

#[cfg(test)]
mod rig;
#[cfg(test)]
mod runs;
