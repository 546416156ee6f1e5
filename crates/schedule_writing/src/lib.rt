// Writing a schedule, in definitions alone, with what is promised of writing and reading together. `schedule_writer` computes it, and
// `schedule_c` hands it to callers in C.
#![tactic(auto)]

// Why a call was not written.
#[derive(Clone, Copy, PartialEq, Eq, Debug)]
pub enum NotWritten {
    TooLarge,
    NoRoom,
}

// What became of a record that was to be written, in numbers, as a caller in C reads them: the number of rule 5.1, and the next free place,
// which is the place given where the record was refused.
#[repr(C)]
#[derive(Clone, Copy, PartialEq, Eq, Debug)]
pub struct Placed {
    pub number: u8,
    pub place: usize,
}

// What stands at a place, in numbers, as a caller in C reads them: the number of rule 5.1; the record's kind and numbers, and the place behind
// it. Where no record stands the kind and its numbers are 0, and the place is the one asked for.
#[repr(C)]
#[derive(Clone, Copy, PartialEq, Eq, Debug)]
pub struct Standing {
    pub number: u8,
    pub kind: u8,
    pub first: u64,
    pub second: u64,
    pub third: u64,
    pub next: usize,
}
