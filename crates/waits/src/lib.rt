#![tactic(auto)]

// How long a call waits, and that it does nothing else by the setting that says so: all of it in specs/ and proofs/.
