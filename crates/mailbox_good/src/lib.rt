// What makes a mailbox consistent, stated in specs/ and proved in proofs/. It speaks of the mailbox's definitions, and there is no code in it.
#![tactic(auto)]
