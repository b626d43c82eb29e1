// Demands 2 and 3 of the C face: what the contracts of its functions say of lists of their calls. Laws, in proofs/.
#![tactic(auto)]
