//! Tests of the reader of traces, apart from its crate, so that it is proved once.
#![tactic(auto)]

#[cfg(test)]
mod faults;
#[cfg(test)]
mod pool;
#[cfg(test)]
mod read_trace;
#[cfg(test)]
mod reading;
#[cfg(test)]
mod words;
