// The calls on lent words are the mailbox's own, and so is every run of them: stated in specs/ and proved in proofs/. There is no code in it.
#![tactic(auto)]
