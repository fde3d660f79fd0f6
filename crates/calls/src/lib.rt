// What a host has of the driver: a kind for each call, under the Rust's name, and one call, started by its kind, whichever engine carries it out.
#![tactic(auto)]

pub mod call;
pub mod kind;
