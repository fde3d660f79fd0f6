#![tactic(auto)]

// The original's loops and calls as definitions, and the theorem that the step machine equals them: all of it in specs/ and proofs/.
