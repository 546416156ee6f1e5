// The repair of a board after nodes were lost, in definitions and laws alone: passes of cares over the slots of fenced nodes. `repair_pass` and
// `repair_all` compute it.
#![tactic(auto)]
