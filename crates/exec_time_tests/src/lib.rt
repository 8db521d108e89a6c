//! Tests of the wheel, the sleepers, a sleep and the notes, apart from their crate, so that it is proved once.
#![tactic(auto)]

#[cfg(test)]
mod found;
#[cfg(test)]
mod notes;
#[cfg(test)]
mod sleep;
#[cfg(test)]
mod timers;
#[cfg(test)]
mod wheel;
