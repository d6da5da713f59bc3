// A directory of an image, written again: stated in specs/ and proved in proofs/. It speaks of the definitions of `build` and `flash`, and there is no code in it.
#![tactic(auto)]
