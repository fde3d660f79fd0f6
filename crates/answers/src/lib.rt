#![tactic(auto)]

// When each answer is given: the table of document 01 as a theorem over every call. The crate is its specs/ and proofs/.
