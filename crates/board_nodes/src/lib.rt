// The board with nodes and fences, in definitions alone: a ring around the slots and words of `board_rules`. Each slot belongs to the node that opened
// it, and a fence shuts out a node whose slots a caretaker then goes over.
#![tactic(auto)]
