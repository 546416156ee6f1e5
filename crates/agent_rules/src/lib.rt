// The life of a request, in definitions alone: what it sends, what it becomes, and what it is told. `agent_sends` and `agent_takes` compute them.
#![tactic(auto)]

use agent_request::Request;

// A verb to send: none, add with its number, read, or swap with the old word and the new one.
// Nothing is one of them, and there is no `Option`: `CareNeverAsks` concludes it (`CarePromises.antt`), and the contracts of the three `_sends` answer it.
#[derive(Clone, Copy, PartialEq, Eq, Debug)]
pub enum Verb {
    Nothing,
    Add(u64),
    Read,
    Swap(u64, u64),
}

// What a request is told; Waiting carries the number ahead.
#[derive(Clone, Copy, PartialEq, Eq, Debug)]
pub enum Answer {
    WrongPhase,
    Granted,
    Waiting(u64),
    Full,
    Withdrawn,
    Released,
    ClearingDue,
    Cleared,
    NotYetClear,
    Passed,
    FreedUnasked,
}

// What a request became, with what it is told.
#[derive(Clone, Copy, PartialEq, Eq, Debug)]
pub struct Taken {
    pub request: Request,
    pub answer: Answer,
}

// An answer in numbers: the table's number, the outcome, and the number ahead where the outcome is waiting.
// Numbers, and no `Result`: a caller in C and the report of a run get these, by rules 5.1 and 5.3.
#[derive(Clone, Copy, PartialEq, Eq, Debug)]
pub struct Numbers {
    pub number: u8,
    pub outcome: u8,
    pub value: u64,
}
