// All directories of an image told by the leads of level one, stated in specs/ and proved in proofs/. It speaks of the list's definition, and there is no code in it.
#![tactic(auto)]
