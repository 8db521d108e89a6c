//! Tests of the public calls of the small parts and of the byte containers, apart from their crates, so that those are
//! proved once.
#![tactic(auto)]

#[cfg(test)]
mod bufs;
#[cfg(test)]
mod errors_and_ends;
#[cfg(test)]
mod found;
#[cfg(test)]
mod gate;
#[cfg(test)]
mod one_shot;
#[cfg(test)]
mod post;
#[cfg(test)]
mod slab;
#[cfg(test)]
mod spinner;
