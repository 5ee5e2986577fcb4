// Worked cases of the steps over boxes made by hand, which no store of ours can come to: a case for each step that only such a box can meet, and one
// for each two steps whose order only such a box, or the arguments, can tell. There is no code here: the cases stand in proofs/.
#![tactic(auto)]
