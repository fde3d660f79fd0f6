#![tactic(auto)]

// What is promised of the bench program: line by line it is the Rust, but for the milliseconds of waits that grow. All of it stands in specs/ and proofs/.
