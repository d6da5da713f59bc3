// The lookup in the whole image told by places, stated in specs/ and proved in proofs/. It speaks of the walk's definition, and there is no code in it.
#![tactic(auto)]
