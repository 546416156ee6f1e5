// That the ceiling is reached: the promises on full and cleared speak of boards that there are. Definitions, statements and proofs only: no
// function is here.
#![tactic(auto)]
