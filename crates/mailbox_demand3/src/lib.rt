// Demand 3, stated in specs/ and proved in proofs/. It speaks of the mailbox's definitions, and there is no code in it.
#![tactic(auto)]
