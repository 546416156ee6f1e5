// A care as a visit of one slot: a Held request is released, one that waits, owes or clears takes its step, and one that asks is freed with no verb. It
// relies on the contracts of `board_visit_verb`, `board_records` and `agent_request` alone.
#![tactic(auto)]

ghost use Rattle.std.specs.Prelude.{◌≡◌};
ghost use Rattle.board_rules.specs.Sent.{handed};
ghost use Rattle.board_nodes.specs.Visit.{care_visit, unasked_visit};

use agent_request::{Phase, Request};
use board_rules::{Answer, Refusal, Seen};

// A request that asks is freed, if its record is lent; the words are only counted.
#[tactic(auto, unfolding(board_nodes::specs::Visit::unasked_visit))]
fn unasked_visit(q: Request, words: &[u64]) -> Seen
    ensures { result ≡ handed (unasked_visit q words.now) }
{
    if board_records::is_record(q.record as u64, words.len()) {
        Seen {
            request: agent_request::free(),
            answer: Answer::Told(agent_rules::Answer::FreedUnasked),
        }
    } else {
        board_records::refused(q, Refusal::NoRecord.into())
    }
}

// The visit of a slot, whose request is q, by a care: what becomes of the request and of the words, and the answer.
#[tactic(auto, using(board_nodes::proofs::Visits::free_care, board_nodes::proofs::Visits::asking_care, board_nodes::proofs::Visits::unasked_words, board_nodes::proofs::Visits::waiting_care, board_nodes::proofs::Visits::release_care, board_nodes::proofs::Visits::owing_care, board_nodes::proofs::Visits::clearing_care))]
pub fn care_visit(q: Request, words: &mut [u64]) -> Seen
    ensures said { result ≡ handed (care_visit q words.old) }
    ensures left { words.new ≡ (care_visit q words.old).words }
{
    match Phase::from(q.phase) {
        Phase::Free => board_records::refused(q, Refusal::SlotIsFree.into()),
        Phase::Asking => unasked_visit(q, words),
        Phase::Held => board_visit_verb::release_visit(q, words),
        Phase::Waiting | Phase::Owing | Phase::Clearing => board_visit_verb::step_visit(q, words),
    }
}
