// A writing call: frames one after the other, each with a budget of its own. A failed attempt sends the same frame again.
#![tactic(auto)]

pub mod call;
pub mod frames;
