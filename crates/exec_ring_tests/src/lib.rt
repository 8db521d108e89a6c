//! Tests of the ring and its model kernel, apart from their crate, so that it is proved once.
#![tactic(auto)]

#[cfg(test)]
mod sim_ring;
