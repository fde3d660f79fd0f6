#![tactic(auto)]

// The three demands, each stated in a file of specs/ that a customer can be walked through, and their proofs. The crate has no code.
