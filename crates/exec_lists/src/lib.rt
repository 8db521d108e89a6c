//! The places of a driver: lists of requests, each in order of coming, and what holds of a list as one request changes.
#![tactic(auto)]

pub mod examples;
pub mod lists;
mod name_list;
