// The kinds of record that a schedule has, in definitions alone: how long the fields of each kind are, and which call it is. Reading
// (`schedule_bytes`) and writing (`schedule_writing`) both come from here.
#![tactic(auto)]

// A call in plain numbers: its kind, and the kind's numbers in their order, 0 where it has fewer than three.
// A number for the kind and no enum, three fields and no array: a caller in C gives any kind, and `numbers_of` names the fields.
#[derive(Clone, Copy, PartialEq, Eq, Debug)]
pub struct Parts {
    pub kind: u8,
    pub first: u64,
    pub second: u64,
    pub third: u64,
}
