// Demand 3 (docs/RULES.md, section 11): what holds of a board from begin on, over every sequence of calls. Definitions, statements and
// proofs only: no function is here.
#![tactic(auto)]
