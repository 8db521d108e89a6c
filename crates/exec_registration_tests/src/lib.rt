//! Tests of the public calls of registrations over a driver, apart from their crate, so that it is proved once.
#![tactic(auto)]

#[cfg(test)]
mod desk;
#[cfg(test)]
mod found;
#[cfg(test)]
mod mail;
#[cfg(test)]
mod registrations;
#[cfg(test)]
mod sleepers;
#[cfg(test)]
mod visits;
