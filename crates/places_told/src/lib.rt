// What refusals carry, told by the bytes there: stated in specs/ and proved in proofs/. It speaks of the definitions, and there is no code in it.
#![tactic(auto)]
