#![tactic(auto)]

// How many transfers a call makes at the most, and that every call ends: all of it in specs/ and proofs/.
