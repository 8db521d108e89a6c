//! Tests of whole runs, apart from their crate, so that it is proved once.
#![tactic(auto)]

#[cfg(test)]
mod found;
#[cfg(test)]
mod local;
#[cfg(test)]
mod pool;
#[cfg(test)]
mod run;
