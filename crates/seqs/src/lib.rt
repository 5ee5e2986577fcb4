// Laws on lists that the kit lacks, for every element type. There is no code here: the laws stand in proofs/.
#![tactic(auto)]
