// Demand 3 over any machine: definitions and laws, in specs/ and proofs/.
#![tactic(auto)]
