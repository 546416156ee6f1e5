// The step of a request that goes on waiting, told apart: it leaves the request and the words, so that a run need not visit it.
// It relies on the contracts of `board_records`, `agent_request`, `agent_ticket` and `word_layout` alone.
#![tactic(auto)]

ghost use Rattle.std.specs.Prelude.{◌≡◌};
ghost use Rattle.common.specs.Choice.{but};
ghost use Rattle.board_slots.specs.Slots.{SLOTS};
ghost use Rattle.board_visit_waiting.specs.Waits.{still_ahead, stepped_slot};

use agent_request::{Phase, Request, mode_of};
use agent_ticket::Turn;
use board_call::{AnyCall, Call};
use word_layout::Counters;

// The slot of the board that a call steps.
pub fn stepped(o: AnyCall) -> Option<usize>
    ensures { result ≡ but SLOTS (stepped_slot o) }
{
    match o {
        AnyCall::Base(Call::Step(slot)) if slot < 256 => Some(slot as usize),
        _ => None,
    }
}

// How many are ahead of a request that waits and goes on waiting, where its node is not fenced. Its step would leave the request and the words.
#[tactic(auto, using(board_rules::proofs::Sent::record_lent, crate::proofs::Waits::some_ahead), unfolding(crate::specs::Waits::still_ahead))]
pub fn still_ahead(shut: bool, q: Request, words: &[u64]) -> Option<u64>
    ensures { result ≡ but 0 (still_ahead shut q words.now) }
{
    if shut || Phase::from(q.phase) != Phase::Waiting {
        return None;
    }
    if !board_records::is_record(q.record as u64, words.len()) {
        return None;
    }
    let counters = Counters::from(words[q.record as usize]);
    match agent_ticket::turn_of(mode_of(q.mode), q.ticket, counters) {
        Turn::Ahead(n) => Some(n),
        Turn::Passed | Turn::Granted => None,
    }
}
