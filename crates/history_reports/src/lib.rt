// Demand 3 for bytes: the entries that runs report are answers of a history. Definitions, statements and proofs only: no function is here.
#![tactic(auto)]
