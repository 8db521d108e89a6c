//! Tests of the public calls of waiters and of drivers, apart from their crates, so that these are proved once.
#![tactic(auto)]

#[cfg(test)]
mod asks;
#[cfg(test)]
mod calls;
#[cfg(test)]
mod found;
#[cfg(test)]
mod kinds;
#[cfg(test)]
mod lives;
#[cfg(test)]
mod requests;
#[cfg(test)]
mod steps;
#[cfg(test)]
mod trial;
#[cfg(test)]
mod waiters;
#[cfg(test)]
mod word;
#[cfg(test)]
mod worker;
