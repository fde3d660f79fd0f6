// A model of the gauge's data flash: what it makes of a frame, what it replies, and what is left of either where a transfer is lost.
#![tactic(auto)]

pub mod frame;
pub mod gauge;
