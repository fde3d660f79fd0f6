// What both engines share: the outcomes of the bus, what a failed attempt costs, what a call counts, and how it is admitted.
#![tactic(auto)]

pub mod budget;
pub mod bus;
pub mod limit;
