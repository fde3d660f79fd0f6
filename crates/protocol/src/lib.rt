// The words of the bus: what the driver's calls say to the gauge, byte by byte, and what they take back.
#![tactic(auto)]

pub mod bytes;
pub mod common;
pub mod consts;
pub mod error;
pub mod frame;
pub mod reply;
pub mod window;
