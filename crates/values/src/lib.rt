// The values M1 to M10, a table in specs/, and the orders of checks, row by row; both are proved in proofs/. They speak of the definitions, and there is no code in it.
#![tactic(auto)]
