// The buyer's demands carried from the definitions to the code: what a refusal leaves, what a promise determines and that a made store stays
// made, of every public call, and what a store holds after any sequence of changing calls. The statements stand in specs/, the proofs in
// proofs/; the code here is one function for each public call, which shows that the call keeps the promise of which they speak.
#![tactic(auto)]

pub mod ties;
