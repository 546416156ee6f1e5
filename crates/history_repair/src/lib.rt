// What a repair leaves behind, over every sequence of calls, in definitions and laws alone.
#![tactic(auto)]
