// The rules of the board, in definitions: its answers, what each call makes of slots and words, and the visit of one slot. The one function that is
// written here gives the number of a refusal.
#![tactic(auto)]

ghost use Rattle.std.specs.Prelude.{◌≡◌};
ghost use Rattle.board_rules.specs.Records.{refusal_number};

use agent_request::Request;
use board_slots::Board;

// Why a call on the board is refused.
#[derive(Clone, Copy, PartialEq, Eq, Debug)]
pub enum Refusal {
    SlotTooHigh = 1,
    NoRecord = 2,
    NoMode = 3,
    SlotIsFree = 4,
    WrongPhase = 5,
    NoSlotIsFree = 6,
    NoWordsOrTooMany = 9,
    NodeIsFenced = 14,
    NodeOfSlotIsFenced = 15,
    NodeOfSlotIsNotFenced = 16,
}

// The number that callers are told.
impl From<Refusal> for u8 {
    ghost from_gives = { λ why n. n ≡ refusal_number why };

    fn from(why: Refusal) -> u8 {
        why as u8
    }
}

// One answer for all calls on the board. Opened carries the slot, Shown the word, Told what the agent tells. Refused carries the number and no
// `Refusal`: `AnswerIsItsNumbers` and `RefusedKeeps` speak of a refusal with any number.
#[derive(Clone, Copy, PartialEq, Eq, Debug)]
pub enum Answer {
    Refused(u8),
    Begun,
    Opened(u8),
    Told(agent_rules::Answer),
    Shown(u64),
    Fenced,
}

// An answer in numbers: rules 5.1, 5.3 and 7.6. Numbers, and no Result: the report of a run has these bytes.
#[derive(Clone, Copy, PartialEq, Eq, Debug)]
pub struct Said {
    pub number: u8,
    pub outcome: u8,
    pub slot: u8,
    pub value: u64,
}

// The slot that a call visits, as it was found: its number, its request, and whether the node that the call looks at is fenced.
#[derive(Clone, Copy, PartialEq, Eq, Debug)]
pub struct Found {
    pub slot: usize,
    pub request: Request,
    pub shut: bool,
}

// What became of a visited slot's request, and the answer. As `Taken` of `agent_rules` with the board's answer: one type over both answers would be no
// plainer, since the definitions of each floor name their own.
#[derive(Clone, Copy, PartialEq, Eq, Debug)]
pub struct Seen {
    pub request: Request,
    pub answer: Answer,
}

// A board after a call, and the answer.
#[derive(Clone, Copy)]
pub struct Played {
    pub board: Board,
    pub answer: Answer,
}
