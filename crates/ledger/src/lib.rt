// Demand 3 and what goes with it, over the calls' own definitions. There is no code here: the statements stand in specs/, the proofs in
// proofs/.
#![tactic(auto)]
