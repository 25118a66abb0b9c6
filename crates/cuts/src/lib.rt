// Demand 3: a block in one call and in any cuts. Definitions and proofs only.
#![tactic(auto)]
