// A reading call: one budget for everything in it. A failure of any kind makes its head due again.
#![tactic(auto)]

pub mod call;
pub mod parts;
