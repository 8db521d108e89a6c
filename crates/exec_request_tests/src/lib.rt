//! Tests of the public calls of requests, apart from their crate, so that it is proved once.
#![tactic(auto)]

#[cfg(test)]
mod calls;
#[cfg(test)]
mod make;
#[cfg(test)]
mod request;
#[cfg(test)]
mod trial;
