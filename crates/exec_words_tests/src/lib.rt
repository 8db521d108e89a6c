//! Tests of the shared words of a pool, apart from their crate, so that it is proved once.
#![tactic(auto)]

#[cfg(test)]
mod found;
#[cfg(test)]
mod tests;
