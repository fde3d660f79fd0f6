#![tactic(auto)]

// What is promised of the count over all packs. The crate has no code.
