// What crosses to a caller in C, in definitions alone: the agent's verbs and answers as plain numbers. `agent_c` computes them.
// Kinds, refusals and outcomes are numbers here, as a caller in C reads them.
#![tactic(auto)]

// A verb: kind 0 none, 1 add (first is the number), 2 read, 3 swap (first is the old word, second the new one). C has no other form of it.
#[repr(C)]
#[derive(Clone, Copy, PartialEq, Eq, Debug)]
pub struct CVerb {
    pub kind: u8,
    pub first: u64,
    pub second: u64,
}

// What is told: number and outcome of rules 5.1 and 5.3, and the number ahead where the outcome is 3. As `Numbers` of `agent_rules`; the C interface fixes
// this one's layout and the name of its last field.
#[repr(C)]
#[derive(Clone, Copy, PartialEq, Eq, Debug)]
pub struct CTold {
    pub number: u8,
    pub outcome: u8,
    pub ahead: u64,
}
