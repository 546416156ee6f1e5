// Every sequence of calls of all seven kinds, in definitions and laws alone.
#![tactic(auto)]
