// No code: demand 3 of the program, in specs/ and proofs/.
#![tactic(auto)]
