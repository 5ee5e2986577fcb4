// The laws of the box: what the steps of document 01 say where they pass, what each change leaves of order, of every key and of the load,
// and where the lines of a key stand. There is no code here: the laws stand in proofs/, and the few definitions that they need in specs/.
#![tactic(auto)]
