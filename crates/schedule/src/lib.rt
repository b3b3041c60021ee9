// The plain schedule. Its definitions and theorems stand in specs/ and proofs/.
#![tactic(auto)]
