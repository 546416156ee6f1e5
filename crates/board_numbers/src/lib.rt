// The answers of the board in numbers, and whether a verb was sent. It relies on the contracts of `agent_numbers` and `board_gate` alone.
#![tactic(auto)]

ghost use Rattle.std.specs.Prelude.{◌≡◌};
ghost use Rattle.board_rules.specs.Answers.{named_slot, said_of, verbs_of};
ghost use Rattle.board_nodes.specs.Answers.{verbs_of_any};

use agent_rules::Numbers;
use board_call::{AnyCall, Call};
use board_rules::{Answer, Said};

// The slot that a call names, as one byte; 0 where it names none, as the report has it (rule 7.6). No Option: 0 is slot 0 as well, so the definition, of
// which `NamesItsSlot` speaks, would not tell none apart.
fn named_slot(c: Call) -> u8
    ensures { result ≡ named_slot c }
{
    match c {
        Call::Step(slot) | Call::Release(slot) => (slot % 256) as u8,
        Call::Open(_, _) | Call::Show(_) => 0,
    }
}

// The number, outcome, slot and value of the answer to a call.
pub fn tell(c: Call, a: Answer) -> Said
    ensures { result ≡ said_of c a }
{
    let begun = Said {
        number: 0,
        outcome: 0,
        slot: named_slot(c),
        value: 0,
    };
    match a {
        Answer::Refused(number) => Said { number, ..begun },
        Answer::Begun => begun,
        Answer::Opened(slot) => Said {
            outcome: 1,
            slot,
            ..begun
        },
        Answer::Told(told) => {
            let Numbers {
                number,
                outcome,
                value,
            } = agent_numbers::numbers_of(told);
            Said {
                number,
                outcome,
                value,
                ..begun
            }
        }
        Answer::Shown(word) => Said {
            outcome: 10,
            value: word,
            ..begun
        },
        Answer::Fenced => Said {
            outcome: 13,
            ..begun
        },
    }
}

// One where an accepted step or release sent a verb, else 0.
#[tactic(auto, unfolding(board_rules::specs::Answers::verbs_of))]
pub fn verbs_of(c: Call, a: Answer) -> usize
    ensures { result ≡ verbs_of c a }
{
    match c {
        Call::Step(_) | Call::Release(_) if tell(c, a).number == 0 => 1,
        _ => 0,
    }
}

// The same of any call: a care counts as a step, but for one that freed a request unasked.
#[tactic(auto, unfolding(board_nodes::specs::Answers::verbs_of_any))]
pub fn verbs_of_any(o: AnyCall, a: Answer) -> usize
    ensures { result ≡ verbs_of_any o a }
{
    let c = board_gate::reported_as(o);
    // by the number 12, as the definition has it
    if tell(c, a).outcome == 12 {
        0
    } else {
        verbs_of(c, a)
    }
}
