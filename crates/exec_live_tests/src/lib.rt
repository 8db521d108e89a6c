//! Tests of the live parts on running threads, apart from their crates, so that those are proved
//! once.
#![tactic(auto)]

#[cfg(test)]
mod beside;
#[cfg(test)]
mod calls;
#[cfg(test)]
mod found;
#[cfg(test)]
mod goes_on;
#[cfg(test)]
mod idle;
#[cfg(test)]
mod queue;
#[cfg(test)]
mod searchers;
