// The answers of the agent in numbers. It relies on types alone.
#![tactic(auto)]

ghost use Rattle.std.specs.Prelude.{◌≡◌};
ghost use Rattle.agent_rules.specs.Answers.{accepted_with, refused_with, numbers_of};

use agent_rules::{Answer, Numbers};

// These two are the words of the rules (`Answers.antt`), and shorter in each arm than the struct. A refusal by its number: `Refusal`, which has it by name,
// is of the board's floor.
fn refused(number: u8) -> Numbers
    ensures { result ≡ refused_with number }
{
    Numbers {
        number,
        outcome: 0,
        value: 0,
    }
}

fn accepted(outcome: u8, value: u64) -> Numbers
    ensures { result ≡ accepted_with outcome value }
{
    Numbers {
        number: 0,
        outcome,
        value,
    }
}

// The number, outcome and value of an answer. No `From`: it would stand in `agent_rules`, and a crate of definitions computes no table of the rules
// (docs/DECISIONS.md, 1).
pub fn numbers_of(a: Answer) -> Numbers
    ensures { result ≡ numbers_of a }
{
    match a {
        Answer::WrongPhase => refused(5),
        Answer::Granted => accepted(2, 0),
        Answer::Waiting(ahead) => accepted(3, ahead),
        Answer::Full => accepted(4, 0),
        Answer::Withdrawn => accepted(5, 0),
        Answer::Released => accepted(6, 0),
        Answer::ClearingDue => accepted(7, 0),
        Answer::Cleared => accepted(8, 0),
        Answer::NotYetClear => accepted(9, 0),
        Answer::Passed => accepted(11, 0),
        Answer::FreedUnasked => accepted(12, 0),
    }
}
