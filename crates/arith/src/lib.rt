// Arithmetic that plans and the dispatcher stand on. Its definitions and laws stand in specs/ and proofs/.
#![tactic(auto)]
